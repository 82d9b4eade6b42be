// The rows that hang on a trade: request, trade history, lot, settlement and cash. What each asks of its trade, and
// which of the trade's marks is its own.
ghost use Rattle.std.specs.Prelude.{◌≡◌, true, ◌<◌, leb};
ghost use Rattle.model.specs.Names.{a_trade};
ghost use Rattle.model.specs.Rows.{found, places, rows};
ghost use Rattle.places.specs.Rows.{row_at};
ghost use Rattle.directory.specs.Listed.{Listed};
ghost use Rattle.clauses.specs.Hung.{fits_trade, hangs, offset};

use by_group::held;
use by_name::trade::{asked, due, settles};
use kinds::rows::{Trade, TradeHistory};
use kinds::typed::Typed;
use places::place::part;
use record::codes::Kind;

// The status of the trade history at a place.
fn past(book: &[u8], i: usize) -> u8
    requires { i < places book.now }
    ensures { result ≡ (row_at book.now i).status }
{
    TradeHistory::from_bytes(part(book, i)).status
}

// The mark of the row at i, which is of this kind.
pub fn offset(book: &[u8], kind: u8, i: usize) -> usize
    requires i_bound { (i < places book.now) × ((row_at book.now i).kind ≡ kind) }
    requires i_value { hangs (row_at book.now i) ≡ true }
    ensures { result ≡ offset (row_at book.now i) }
{
    match kind {
        Kind::TRADE_HISTORY => usize::from(past(book, i)),
        Kind::LOT => 5,
        Kind::SETTLEMENT => 6,
        Kind::CASH => 7,
        _ => 0,
    }
}

// The history at i is of a status that its trade, the one at p, has or had.
fn reached(book: &[u8], p: usize, i: usize) -> bool
    requires { (p < places book.now) × (i < places book.now) }
    ensures { result ≡ leb (row_at book.now i).status (row_at book.now p).status }
{
    let t = Trade::from_bytes(part(book, p));
    past(book, i) <= t.status
}

// The row at i, which is of this kind, fits its trade, the one at p.
pub fn fits_trade(book: &[u8], dir: &[u16], kind: u8, p: usize, i: usize) -> bool
    requires listed { Listed book.now dir.now × (p < places book.now) × (i < places book.now) }
    requires i_value { ((row_at book.now i).kind ≡ kind) × (hangs (row_at book.now i) ≡ true) }
    requires p_value { row_at book.now p ≡ found (a_trade (row_at book.now i).id) (rows book.now) }
    ensures { let t = row_at book.now p in
        result ≡ fits_trade (rows book.now) t (row_at book.now i) }
{
    match kind {
        Kind::TRADE_HISTORY => reached(book, p, i),
        Kind::LOT => held(book, dir, p, i),
        Kind::SETTLEMENT => settles(book, p, i),
        Kind::CASH => due(book, dir, i),
        _ => asked(book, dir, p, i),
    }
}
