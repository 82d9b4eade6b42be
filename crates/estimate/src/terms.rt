// What an order reads of a book, by the directory.
ghost use Rattle.std.specs.Prelude.{true, ◌≡◌, pos};
ghost use Rattle.units.specs.Units.{cents};
ghost use Rattle.model.specs.Names.{a_charge};
ghost use Rattle.model.specs.Order.{permitted};
ghost use Rattle.model.specs.Rows.{found, rows};
ghost use Rattle.model.specs.Sound.{sound};
ghost use Rattle.directory.specs.Directory.{Directory};
ghost use Rattle.directory.specs.Listed.{Listed};
ghost use Rattle.estimate.specs.Terms.{holder_of, paper_of, terms_of};

use directory::build::places;
use directory::totals::Totals;
use directory::typed;
use groups::band;
use groups::sums::tax_rates;
use kinds::inputs::OrderInput;
use kinds::rows::{Account, Charge, Security};
use model::BandAnswer;
use places::place::typed_at;
use record::symbol::Symbol;
use units::{AccountNo, Cents, ExecutorNo, PerHundredThousand, TradeNo};

// An account, and whether it is there.
#[derive(Clone, Copy)]
pub struct Holder {
    pub row: Account,
    pub known: bool,
}

// A security, and whether it is there.
#[derive(Clone, Copy)]
pub struct Paper {
    pub row: Security,
    pub known: bool,
}

// All that an order reads, but for the lots and the room. A row that is not there is one of zeros, and so is what it
// would have told; of the band, the answer says whether it is there.
#[derive(Clone, Copy)]
pub struct Terms {
    pub holder: Holder,
    pub permitted: bool,
    pub paper: Paper,
    pub charge: Cents,
    pub rates: PerHundredThousand,
    pub band: BandAnswer,
    pub number: TradeNo,
}

#[tactic(auto, using(crate::specs::Terms::holder_is))]
fn holder_of(book: &[u8], dir: &[u16], no: AccountNo) -> Holder
    requires { Listed book.now dir.now }
    ensures { result ≡ holder_of (rows book.now) no }
{
    let at = typed::account(book, dir, no);
    Holder {
        row: typed_at(book, at),
        known: at < places(book),
    }
}

// The owner may always order; anyone else has a row for the account.
#[tactic(auto, using(crate::specs::Terms::owner_may, crate::specs::Terms::other_may))]
fn permitted(book: &[u8], dir: &[u16], account: AccountNo, executor: ExecutorNo) -> bool
    requires { Listed book.now dir.now }
    ensures { result ≡ permitted (rows book.now) account.0 executor.0 }
{
    if executor.0 == 0 {
        return true;
    }
    typed::permission(book, dir, account, executor) < places(book)
}

#[tactic(auto, using(crate::specs::Terms::paper_is))]
fn paper_of(book: &[u8], dir: &[u16], symbol: Symbol) -> Paper
    requires { Listed book.now dir.now }
    ensures { result ≡ paper_of (rows book.now) symbol }
{
    let at = typed::security(book, dir, symbol);
    Paper {
        row: typed_at(book, at),
        known: at < places(book),
    }
}

fn charge_of(book: &[u8], dir: &[u16], form: u8, tier: u8) -> Cents
    requires { Listed book.now dir.now }
    ensures { result ≡ cents (pos (found (a_charge form tier) (rows book.now)).n1) }
{
    typed_at::<Charge>(book, typed::charge(book, dir, form, tier)).amount
}

pub fn terms_of(book: &[u8], dir: &[u16], t: Totals, input: OrderInput) -> Terms
    requires { Directory book.now dir.now t × (sound (rows book.now) ≡ true) }
    ensures { result ≡ terms_of (rows book.now) input }
{
    let form = input.trade_type;
    let holder = holder_of(book, dir, input.account);
    let permitted = permitted(book, dir, input.account, input.executor);
    let paper = paper_of(book, dir, input.symbol);
    let customer = holder.row.customer;
    let tier = band::tier(book, dir, customer);
    Terms {
        holder,
        permitted,
        paper,
        charge: charge_of(book, dir, form, tier),
        rates: tax_rates(book, dir, customer),
        band: band::search(book, dir, form, tier, paper.row.exchange, input.shares),
        number: TradeNo(t.largest.0 + 1),
    }
}
