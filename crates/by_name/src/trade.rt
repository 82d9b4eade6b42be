// What a row asks of its trade: a request (S6), a settlement and a cash row (S9), and a lot history (S10).
ghost use Rattle.std.specs.Prelude.{◌≡◌, ◌&&◌, ◌<◌, eqb};
ghost use Rattle.laws.specs.Search.{bit};
ghost use Rattle.record.specs.Codes.{completed, pending};
ghost use Rattle.model.specs.Flags.{cash};
ghost use Rattle.model.specs.Names.{a_trade, an_account};
ghost use Rattle.model.specs.Rows.{found, places, rows};
ghost use Rattle.model.specs.Sound.{cash_right, trades_done};
ghost use Rattle.places.specs.Rows.{row_at};
ghost use Rattle.directory.specs.Listed.{Listed};
ghost use Rattle.by_group.specs.Rules.{as_asked, same_terms};

use directory::typed;
use kinds::rows::{Account, Cash, LotHistory, Request, Settlement, Trade};
use kinds::typed::Typed;
use places::place::{part, typed_at};
use record::codes::TradeStatus;
use units::{AccountNo, Amount, BrokerNo, TradeNo};

// The broker of an account, 0 where there is no such account.
fn broker_of(book: &[u8], dir: &[u16], no: AccountNo) -> BrokerNo
    requires { Listed book.now dir.now }
    ensures { result.0 ≡ (found (an_account no.0) (rows book.now)).n1 }
{
    typed_at::<Account>(book, typed::account(book, dir, no)).broker
}

// The status of a trade, 0 where there is no such trade.
fn status_of(book: &[u8], dir: &[u16], no: TradeNo) -> u8
    requires { Listed book.now dir.now }
    ensures { result ≡ (found (a_trade no.0) (rows book.now)).status }
{
    typed_at::<Trade>(book, typed::trade(book, dir, no)).status
}

#[tactic(auto, unfolding(record::specs::Symbol::same_symbol))]
fn agrees(broker: BrokerNo, t: Trade, q: Request) -> bool
    ensures { result ≡ same_terms broker.0 t q }
{
    (q.trade_type == t.trade_type)
        & (q.symbol == t.symbol)
        & (q.shares.plain() == t.shares.plain())
        & (q.bid == t.bid)
        & (q.broker == broker)
}

// The request at i is of a pending trade, the one at p, and agrees with it.
pub fn asked(book: &[u8], dir: &[u16], p: usize, i: usize) -> bool
    requires { Listed book.now dir.now × (p < places book.now) × (i < places book.now) }
    ensures { let t = row_at book.now p in
        let r = row_at book.now i in
        result ≡ (eqb t.status pending && as_asked (rows book.now) t r) }
{
    let t = Trade::from_bytes(part(book, p));
    let q = Request::from_bytes(part(book, i));
    (t.status == TradeStatus::PENDING) & agrees(broker_of(book, dir, t.account), t, q)
}

// The settlement at i is of a completed trade, the one at p, and has its cash flag.
pub fn settles(book: &[u8], p: usize, i: usize) -> bool
    requires { (p < places book.now) × (i < places book.now) }
    ensures { let t = row_at book.now p in
        let s = row_at book.now i in
        result ≡ (eqb t.status completed && eqb s.flags (bit (cash t.flags))) }
{
    let t = Trade::from_bytes(part(book, p));
    let s = Settlement::from_bytes(part(book, i));
    (t.status == TradeStatus::COMPLETED) & (s.cash == t.flags % 2)
}

// The settlement of the cash row at a place is in cash, of the same amount.
pub fn due(book: &[u8], dir: &[u16], i: usize) -> bool
    requires { Listed book.now dir.now × (i < places book.now) }
    ensures { result ≡ cash_right (rows book.now) (row_at book.now i) }
{
    let c = Cash::from_bytes(part(book, i));
    let s = typed_at::<Settlement>(book, typed::settlement(book, dir, c.no));
    (s.cash == 1) & (s.amount.bits() == c.amount.bits())
}

// The trades that the lot history at a place names are completed.
pub fn done(book: &[u8], dir: &[u16], i: usize) -> bool
    requires { Listed book.now dir.now × (i < places book.now) }
    ensures { result ≡ trades_done (rows book.now) (row_at book.now i) }
{
    let h = LotHistory::from_bytes(part(book, i));
    (status_of(book, dir, h.lot) == TradeStatus::COMPLETED)
        & (status_of(book, dir, h.by) == TradeStatus::COMPLETED)
}
