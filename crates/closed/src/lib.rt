// The lots that a trade closes, at the places where they were gathered: their histories are added first, and only then
// the lots themselves change or go.
#![tactic(auto)]

ghost use Rattle.std.specs.Prelude.{◌≡◌, ◌+◌, ◌<◌, ◌≤◌, nat_abs, length, take};
ghost use Rattle.record.specs.Signed.{up};
ghost use Rattle.kinds.specs.Written.{trade_row};
ghost use Rattle.rules.specs.Ranges.{shares_most};
ghost use Rattle.model.specs.Result.{closing_rows};
ghost use Rattle.model.specs.Rows.{most_records};
ghost use Rattle.money.specs.Amounts.{UpTo, value_most};
ghost use Rattle.walk.specs.Walk.{Within};
ghost use Rattle.upkeep.specs.Added.{Added, Room};
ghost use Rattle.written.specs.Turned.{Ready, Turned};
ghost use Rattle.closed.specs.Close.{Closables, Told, closed, closing_row, freed, part_put};

use directory::totals::Totals;
use kinds::rows::{Lot, Trade};
use money::sides::remaining;
use places::place::{typed_at, typed_noted};
use units::{Amount, Shares};
use upkeep::{add, change, free};
use walk::Walk;
use written::{lot_after, lot_history};

// What is told of the lots that are closed: how many go, those at the first places, and what is left of the next one,
// which is closed in part (0: there is none).
#[derive(Clone, Copy)]
pub struct Closed {
    pub totals: Totals,
    pub gone: usize,
    pub left: Shares,
}

// Adds the history of a lot of which so many shares are left.
fn add_closing(
    book: &mut [u8],
    dir: &mut [u16],
    t: Totals,
    trade: Trade,
    lot: Lot,
    left: Shares,
) -> Totals
    requires room { Room (closing_row trade lot left) book.old dir.old t }
    requires shares_bound { (nat_abs lot.shares.0 ≤ shares_most) × UpTo shares_most left.0 }
    ensures { Added (closing_row trade lot left) book.old t book.new dir.new result }
{
    let after = remaining(trade.trade_type, left);
    let history = lot_history(lot.no, trade.no, lot.shares, after);
    add(book, dir, t, history)
}

// Adds the histories of the lots in the order of the walk.
pub fn add_closings(
    book: &mut [u8],
    dir: &mut [u16],
    t: Totals,
    at: &[u16],
    n: usize,
    trade: Trade,
    start: Walk,
) -> Closed
    requires room { Room (closing_rows (trade_row trade) (closed book.old at.now n start)) book.old dir.old t }
    requires closables { Closables book.old at.now n × (n ≤ length at.now) }
    requires within { Within value_most start × (start.closed + n ≤ most_records) }
    ensures { Told trade book.old at.now n start t
        book.new dir.new result }
{
    let mut w = start;
    let mut totals = t;
    for i in 0..n {
        if w.need.plain() == 0 {
            return Closed {
                totals,
                gone: i,
                left: Shares(0),
            };
        }
        let lot = typed_noted::<Lot>(book, at[i]);
        let left = w.left(lot);
        totals = add_closing(book, dir, totals, trade, lot, left);
        if left.plain() != 0 {
            return Closed {
                totals,
                gone: i,
                left,
            };
        }
        w = w.step(lot);
    }
    Closed {
        totals,
        gone: n,
        left: Shares(0),
    }
}

// The lot that is closed in part keeps what is left.
pub fn reduce(book: &mut [u8], dir: &[u16], t: Totals, at: &[u16], closed: Closed, trade: Trade)
    requires ready { Ready (part_put trade book.old at.now closed) book.old dir.now t }
    requires up_to { UpTo shares_most closed.left.0 }
    requires gone_in_bounds { (up closed.left.0 ≡ 0 → ⊥) → closed.gone < length at.now }
    ensures { Turned (part_put trade book.old at.now closed) book.old
        book.new dir.now t }
{
    let left = closed.left;
    if left.plain() == 0 {
        return;
    }
    let gone = closed.gone;
    let place = usize::from(at[gone]);
    let shares = remaining(trade.trade_type, left);
    change(
        book,
        dir,
        t,
        place,
        lot_after(typed_at(book, place), shares),
    );
}

// The lots that are closed in whole go.
pub fn free_lots(book: &mut [u8], dir: &mut [u16], t: Totals, at: &[u16], gone: usize) -> Totals
    requires ready { Ready (freed (take gone at.now)) book.old dir.old t }
    requires gone_in_bounds { gone ≤ length at.now }
    ensures { Turned (freed (take gone at.now)) book.old book.new
        dir.new result }
{
    let mut totals = t;
    for &place in &at[..gone] {
        totals = free(book, dir, totals, usize::from(place));
    }
    totals
}
