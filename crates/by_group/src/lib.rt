// Bands that do not overlap (S4), a customer's rates (S5), and lots with their summary (S8): that lots of
// one account and symbol have one sign is told at the summary.
#![tactic(auto)]

ghost use Rattle.std.specs.Prelude.{◌≡◌, true, ◌<◌};
ghost use Rattle.model.specs.Names.{a_trade};
ghost use Rattle.model.specs.Rows.{found, places, rows};
ghost use Rattle.model.specs.Sound.{band_apart, rates_fit, s1};
ghost use Rattle.places.specs.Rows.{row_at};
ghost use Rattle.directory.specs.Listed.{Listed};
ghost use Rattle.by_group.specs.Kept.{comes_to, lot_kept};

use directory::typed;
use groups::sums::{holding, overlapping, rates};
use kinds::rows::{Customer, Lot, Summary, Trade};
use kinds::typed::Typed;
use places::place::part;
use record::codes::TradeStatus;
use record::row::Grid;
use units::Amount;

// The band at a place overlaps itself alone.
pub fn apart(book: &[u8], dir: &[u16], i: usize) -> bool
    requires { Listed book.now dir.now × (i < places book.now) }
    ensures { result ≡ band_apart (rows book.now) (row_at book.now i) }
{
    overlapping(book, dir, i) == 1
}

// The rates of the customer at a place.
pub fn rates_fit(book: &[u8], dir: &[u16], i: usize) -> bool
    requires { Listed book.now dir.now × (i < places book.now) }
    ensures { result ≡ rates_fit (rows book.now) (row_at book.now i) }
{
    let c = Customer::from_bytes(part(book, i));
    rates(book, dir, c.no).fit()
}

// The lot at i, of the trade at p.
pub fn held(book: &[u8], dir: &[u16], p: usize, i: usize) -> bool
    requires listed { Listed book.now dir.now × (p < places book.now) × (i < places book.now) }
    requires p_value { row_at book.now p ≡ found (a_trade (row_at book.now i).id) (rows book.now) }
    ensures { result ≡ lot_kept (rows book.now) (row_at book.now i) }
{
    let t = Trade::from_bytes(part(book, p));
    let l = Lot::from_bytes(part(book, i));
    let at = typed::summary(book, dir, l.account, l.symbol);
    (t.status == TradeStatus::COMPLETED)
        & (t.account == l.account)
        & (t.symbol == l.symbol)
        & (at < book.len() / Grid::SIZE)
}

// The lots of a summary are some, of one sign, and come to its shares.
pub fn summed(book: &[u8], dir: &[u16], s: Summary) -> bool
    requires { Listed book.now dir.now × (s1 (rows book.now) ≡ true) }
    ensures { result ≡ comes_to (rows book.now) s.account.0 s.symbol s.shares.0 }
{
    let h = holding(book, dir, s.account, s.symbol);
    let long = h.long;
    let owed = h.owed;
    let left = long.less(owed);
    (1 <= h.lots) & (left.0 == s.shares.0) & ((long.plain() == 0) | (owed.plain() == 0))
}
