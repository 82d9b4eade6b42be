// What an order works out from what it reads: the price used, what the lots that it would close are worth, tax and
// commission.
ghost use Rattle.std.specs.Prelude.{true, ◌≡◌, ◌≤◌};
ghost use Rattle.rules.specs.Ranges.{price_most};
ghost use Rattle.model.specs.Rows.{rows};
ghost use Rattle.model.specs.Sound.{s1};
ghost use Rattle.directory.specs.Listed.{Listed};
ghost use Rattle.money.specs.Amounts.{value_most};
ghost use Rattle.walk.specs.Walk.{Within};
ghost use Rattle.estimate.specs.Estimate.{estimate_of, used_price, walk_of};
ghost use Rattle.estimate.specs.Terms.{Fits, Ranged};

use crate::terms::Terms;
use closing::{Sought, gather, walked};
use kinds::inputs::OrderInput;
use kinds::rows::Security;
use money::fees::{commission, commission_rate, tax, untaxed};
use record::codes::TradeType;
use sorted::Sorted;
use units::{Cents, Price};
use walk::Walk;

#[derive(Clone, Copy)]
pub struct Estimate {
    pub price: Price,
    pub walk: Walk,
    pub tax: Cents,
    pub untaxed: bool,
    pub commission: Cents,
}

// The last price for types 1 and 2, else the bid.
#[tactic(auto, using(crate::specs::Estimate::price_last, crate::specs::Estimate::price_bid))]
fn price_used(input: OrderInput, security: Security) -> Price
    ensures { result ≡ used_price input security }
{
    if input.trade_type <= TradeType::TMS {
        return security.last_price;
    }
    input.bid
}

// The walk over the lots that the order would close.
fn closed(book: &[u8], dir: &[u16], input: OrderInput, price: Price) -> Walk
    requires listed { Listed book.now dir.now × (s1 (rows book.now) ≡ true) }
    requires fits { Fits input × (price.0 ≤ price_most) }
    ensures { (result ≡ walk_of (rows book.now) input price) × Within value_most result }
{
    let form = input.trade_type;
    let sought = Sought::of(form, input.flags, input.account, input.symbol);
    let mut at = [0; Sorted::MOST];
    let n = gather(book, dir, sought, &mut at);
    walked(book, &at, n, Walk::start(form, price, input.shares))
}

pub fn estimated(book: &[u8], dir: &[u16], input: OrderInput, terms: Terms) -> Estimate
    requires listed { Listed book.now dir.now × (s1 (rows book.now) ≡ true) }
    requires fits { Fits input × Ranged terms }
    ensures { result ≡ estimate_of (rows book.now) input terms }
{
    let taxed = terms.holder.row.tax_status;
    let rates = terms.rates;
    let band = terms.band;
    let rate = commission_rate(band);
    let price = price_used(input, terms.paper.row);
    let w = closed(book, dir, input, price);
    Estimate {
        price,
        walk: w,
        tax: tax(taxed, rates, w.bought, w.sold),
        untaxed: untaxed(taxed, rates, w.bought, w.sold),
        commission: commission(rate, input.shares, price),
    }
}
