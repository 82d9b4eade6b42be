// What a result reads of a book, but for the lots: the rows that its trade leads to and where they stand, and the rates
// that go by them.
ghost use Rattle.std.specs.Prelude.{true, ◌≡◌};
ghost use Rattle.record.specs.Signed.{up};
ghost use Rattle.model.specs.Band.{band_answer};
ghost use Rattle.model.specs.Names.{a_customer, a_security};
ghost use Rattle.model.specs.Rows.{found, rows};
ghost use Rattle.model.specs.Sound.{sound};
ghost use Rattle.directory.specs.Listed.{Listed};
ghost use Rattle.reading.specs.Terms.{input_row, places_of, terms_of};

use directory::build::places;
use directory::typed;
use groups::band;
use groups::sums::tax_rates;
use kinds::inputs::ResultInput;
use kinds::rows::{Account, Broker, Security, Summary, Trade};
use model::BandAnswer;
use places::place::typed_at;
use record::symbol::Symbol;
use units::{CustomerNo, PerHundredThousand, TradeNo};

// Where the rows of a result stand, but for its lots; the number of places where there is none.
#[derive(Clone, Copy)]
pub struct Places {
    pub trade: usize,
    pub account: usize,
    pub summary: usize,
    pub broker: usize,
}

// A row that is not there is that of a free record, and so is what it would have told; of the band, the answer says
// whether it is there.
#[derive(Clone, Copy)]
pub struct Terms {
    pub at: Places,
    // The trade is there, and so is a summary.
    pub known: bool,
    pub held: bool,
    pub trade: Trade,
    pub account: Account,
    pub summary: Summary,
    pub broker: Broker,
    pub rates: PerHundredThousand,
    pub band: BandAnswer,
}

fn exchange(book: &[u8], dir: &[u16], symbol: Symbol) -> u8
    requires { Listed book.now dir.now }
    ensures { result ≡ (found (a_security symbol) (rows book.now)).form }
{
    typed_at::<Security>(book, typed::security(book, dir, symbol)).exchange
}

// The commission band of a trade of a customer's account.
fn band_of(book: &[u8], dir: &[u16], trade: Trade, customer: CustomerNo) -> BandAnswer
    requires { Listed book.now dir.now }
    ensures { let rs = rows book.now in
        result ≡ band_answer rs trade.trade_type (found (a_customer customer.0) rs).form
        (found (a_security trade.symbol) rs).form (up trade.shares.0) }
{
    let of = band::tier(book, dir, customer);
    let at = exchange(book, dir, trade.symbol);
    band::search(book, dir, trade.trade_type, of, at, trade.shares)
}

fn places_of(book: &[u8], dir: &[u16], no: TradeNo) -> Places
    requires { Listed book.now dir.now }
    ensures { result ≡ places_of (rows book.now) no.0 }
{
    let own = typed::trade(book, dir, no);
    let trade = typed_at::<Trade>(book, own);
    let account = typed::account(book, dir, trade.account);
    let broker = typed_at::<Account>(book, account).broker;
    Places {
        trade: own,
        account,
        summary: typed::summary(book, dir, trade.account, trade.symbol),
        broker: typed::broker(book, dir, broker),
    }
}

pub fn terms_of(book: &[u8], dir: &[u16], input: ResultInput) -> Terms
    requires listed { Listed book.now dir.now }
    requires book_value { sound (rows book.now) ≡ true }
    ensures { result ≡ terms_of (rows book.now) (input_row input) }
{
    let at = places_of(book, dir, input.trade);
    let end = places(book);
    let trade = typed_at::<Trade>(book, at.trade);
    let account = typed_at::<Account>(book, at.account);
    Terms {
        at,
        known: at.trade < end,
        held: at.summary < end,
        trade,
        account,
        summary: typed_at(book, at.summary),
        broker: typed_at(book, at.broker),
        rates: tax_rates(book, dir, account.customer),
        band: band_of(book, dir, trade, account.customer),
    }
}
