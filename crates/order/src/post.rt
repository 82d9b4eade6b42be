// The rows that an order adds to the book, and its answer.
ghost use Rattle.std.specs.Prelude.{◌≡◌};
ghost use Rattle.model.specs.Flags.{roll_back};
ghost use Rattle.model.specs.Rows.{rows};
ghost use Rattle.upkeep.specs.Added.{Room};
ghost use Rattle.directory.specs.Directory.{Directory};
ghost use Rattle.order.specs.Post.{added_of, answer_of, history_of, request_of, rows_after, status_of, trade_of};

use directory::totals::Totals;
use estimate::figures::Estimate;
use estimate::terms::Terms;
use kinds::inputs::OrderInput;
use kinds::rows::{Request, Trade, TradeHistory};
use money::fees::commission_rate;
use places::place::nothing;
use record::codes::{Kind, TradeStatus, TradeType};
use record::row::Row;
use record::symbol::Symbol;
use units::{Amount, Cents, Price};
use upkeep::add;

// An order at the market's price is submitted; any other waits.
fn first_status(input: OrderInput) -> u8
    ensures { result ≡ status_of input }
{
    if input.trade_type > TradeType::TMS {
        return TradeStatus::PENDING;
    }
    TradeStatus::SUBMITTED
}

// Its flags are cash and LIFO: roll back is the order's alone.
#[tactic(auto, unfolding(crate::specs::Post::trade_of))]
fn trade_row(input: OrderInput, terms: Terms, estimate: Estimate) -> Row
    ensures { result ≡ trade_of input terms estimate }
{
    Row::from(Trade {
        no: terms.number,
        trade_type: input.trade_type,
        status: first_status(input),
        flags: input.flags % 4,
        account: input.account,
        symbol: input.symbol,
        shares: input.shares,
        bid: estimate.price,
        price: Price(0),
        charge: terms.charge,
        commission: estimate.commission,
        tax: Cents(0),
        time: input.time,
    })
}

#[tactic(auto, unfolding(crate::specs::Post::history_of))]
fn history_row(input: OrderInput, terms: Terms) -> Row
    ensures { result ≡ history_of input terms }
{
    Row::from(TradeHistory {
        no: terms.number,
        status: first_status(input),
        time: input.time,
    })
}

#[tactic(auto, unfolding(crate::specs::Post::request_of))]
fn request_row(input: OrderInput, terms: Terms, estimate: Estimate) -> Row
    ensures { result ≡ request_of input terms estimate }
{
    Row::from(Request {
        no: terms.number,
        trade_type: input.trade_type,
        broker: terms.holder.row.broker,
        symbol: input.symbol,
        shares: input.shares,
        bid: estimate.price,
    })
}

// The answer of an order that is done, posted or rolled back.
#[tactic(auto, unfolding(crate::specs::Post::answer_of))]
pub fn answer_row(terms: Terms, estimate: Estimate) -> Row
    ensures { result ≡ answer_of terms estimate }
{
    Row {
        kind: Kind::ORDER,
        id: terms.number.0,
        symbol: Symbol::holding(estimate.tax.bits()),
        n1: terms.charge.low(),
        n2: commission_rate(terms.band).0,
        n3: estimate.price.0,
        m1: estimate.walk.bought.bits(),
        m2: estimate.walk.sold.bits(),
        ..nothing()
    }
}

fn rolls_back(flags: u8) -> bool
    ensures { result ≡ roll_back flags }
{
    flags / 4 % 2 == 1
}

// The trade, its history, and for an order that waits its request, in the places that are free, lowest first; nothing
// for an order that is rolled back.
pub fn post(
    book: &mut [u8],
    dir: &mut [u16],
    t: Totals,
    input: OrderInput,
    terms: Terms,
    estimate: Estimate,
) -> Totals
    requires { Room (added_of input terms estimate) book.old dir.old t }
    ensures book_after { rows book.new ≡ rows_after (rows book.old) input terms estimate }
    ensures directory { Directory book.new dir.new result }
{
    if rolls_back(input.flags) {
        return t;
    }
    let trade = trade_row(input, terms, estimate);
    let history = history_row(input, terms);
    let next = add(book, dir, t, trade);
    let last = add(book, dir, next, history);
    if input.trade_type <= TradeType::TMS {
        return last;
    }
    add(book, dir, last, request_row(input, terms, estimate))
}
