// The lots that a trade closes: gathered by the directory of the book, put in the order in which they are closed, and
// walked over.
#![tactic(auto)]

ghost use Rattle.std.specs.Prelude.{map, ◌≡◌, ◌+◌, ◌<◌, ◌≤◌, pos, length, set, take};
ghost use Rattle.std.specs.Int.Signed.{lt_z};
ghost use Rattle.laws.specs.Search.{bit};
ghost use Rattle.laws.specs.Tests.{◌⇔◌};
ghost use Rattle.model.specs.Rows.{most_records};
ghost use Rattle.model.specs.Sound.{short};
ghost use Rattle.places.specs.Rows.{row_at};
ghost use Rattle.directory.specs.Listed.{Listed, places};
ghost use Rattle.money.specs.Amounts.{value_most};
ghost use Rattle.walk.specs.Walk.{Within, through};
ghost use Rattle.groups.specs.Collect.{Collected};
ghost use Rattle.closing.specs.Closing.{Gathered, Priced, by_time, closed_by, sought_of};

use directory::build::places;
use groups::lots::{first_lot, next_lot};
use kinds::rows::Lot;
use money::sides::buys;
use places::count::bit;
use places::place::{typed_at, typed_noted};
use record::symbol::Symbol;
use sorted::{By, Sorted, sort};
use units::AccountNo;
use walk::Walk;

// Whose lots a trade closes, of which symbol, on which side, and in which order.
#[derive(Clone, Copy)]
pub struct Sought {
    // The trade buys, and closes lots that are owed.
    pub buying: bool,
    // The last in goes first.
    pub falling: bool,
    pub account: AccountNo,
    pub symbol: Symbol,
}

impl Sought {
    // Of a trade's type and flags.
    pub fn of(form: u8, flags: u8, account: AccountNo, symbol: Symbol) -> Sought
        ensures { result ≡ sought_of form flags account symbol }
    {
        Sought {
            buying: buys(form),
            falling: flags / 2 % 2 == 1,
            account,
            symbol,
        }
    }
}

// A buy closes what is owed, a sell what is held.
fn faces(buying: bool, lot: Lot) -> bool
    ensures { result ≡ (buying ⇔ lt_z lot.shares.0 (pos 0)) }
{
    buying == (lot.shares.0 < 0)
}

// Writes a place down, and counts it where its lot is one to close.
fn noted(book: &[u8], buying: bool, at: &mut [u16], n: usize, place: usize) -> usize
    requires { (n < most_records) × (place < most_records) × (most_records ≤ length at.old) }
    ensures value { result ≡ n + bit (buying ⇔ short (row_at book.now place)) }
    ensures at_after { at.new ≡ set at.old n place }
{
    // No place has more than sixteen bits, so there is nothing for `try_from` to find.
    at[n] = place as u16;
    n + bit(faces(buying, typed_at(book, place)))
}

// Their places in the order of the book.
fn collect(book: &[u8], dir: &[u16], sought: Sought, at: &mut [u16]) -> usize
    requires { Listed book.now dir.now × (most_records ≤ length at.old) }
    ensures { Collected (closed_by sought) book.now at.new result }
{
    let end = places(book);
    let mut n = 0;
    let mut c = first_lot(book, dir, sought.account, sought.symbol);
    while c < end {
        n = noted(book, sought.buying, at, n, c);
        c = next_lot(book, dir, sought.account, sought.symbol, c);
    }
    n
}

#[tactic(auto, unfolding(crate::specs::Closing::by_time))]
fn by_time(falling: bool) -> By
    ensures { result ≡ by_time falling }
{
    if falling { By::Falling } else { By::Rising }
}

// Gathers the places of the lots that are closed, in the order of closing, the first to close first.
pub fn gather(book: &[u8], dir: &[u16], sought: Sought, at: &mut [u16; Sorted::MOST]) -> usize
    requires { Listed book.now dir.now }
    ensures { Gathered sought book.now at.new result }
{
    let n = collect(book, dir, sought, at);
    sort(book, at, n, by_time(sought.falling));
    n
}

// The walk over the lots at the first n places, one after the other, from its start.
pub fn walked(book: &[u8], at: &[u16; Sorted::MOST], n: usize, start: Walk) -> Walk
    requires priced { Priced book.now at.now n }
    requires within { Within value_most start × (start.closed + n ≤ most_records) }
    ensures value { result ≡ through start (map (row_at book.now) (take n at.now)) }
    ensures within_2 { Within value_most result }
{
    let mut w = start;
    for &place in &at[..n] {
        w = w.step(typed_noted(book, place));
    }
    w
}
