// The places of a book chained by kind, so that its rows can be gone through kind by kind.
ghost use Rattle.std.specs.Prelude.{ℕ, ◌≡◌, ◌+◌, ◌≤◌, ◌<◌, get_or, length};
ghost use Rattle.record.specs.Codes.{last_kind};
ghost use Rattle.model.specs.Rows.{most_records, places, rows};
ghost use Rattle.model.specs.Sound.{sound};
ghost use Rattle.places.specs.Rows.{row_at};
ghost use Rattle.by_kind.specs.Chains.{ByKind, NoChains, kind_heads};
ghost use Rattle.by_kind.specs.Tested.{Tested};
ghost use Rattle.by_kind.specs.Says.{Says};

use places::place::row_at;
use record::codes::Kind;
use record::row::Grid;

// The first place of each kind, and then, for each place, the next of its kind. The number of records stands for none.
#[derive(Clone, Copy)]
pub struct Links {}

impl Links {
    pub const HEADS: usize = 18;
}

// The first place of a kind.
pub fn first(links: &[u16], kind: u8) -> usize
    requires { kind < length links.now }
    ensures { result ≡ get_or links.now kind 0 }
{
    usize::from(links[usize::from(kind)])
}

// The next place of the kind of a place.
pub fn next(links: &[u16], at: usize) -> usize
    requires { kind_heads + at < length links.now }
    ensures { result ≡ get_or links.now (kind_heads + at) 0 }
{
    usize::from(links[Links::HEADS + at])
}

// Each place of a kind passes a test.
pub fn every<F: Fn(usize) -> bool>(book: &[u8], links: &[u16], kind: u8, test: F) -> bool
    requires by_kind { ByKind book.now links.now 0 }
    requires kind_le_last_kind { kind ≤ last_kind }
    requires test { (i : ℕ) → i < places book.now → (row_at book.now i).kind ≡ kind → F.pre test i }
    ensures { Tested (F.post test) book.now kind result }
{
    let n = book.len() / Grid::SIZE;
    let mut c = first(links, kind);
    while c < n {
        if !test(c) {
            return false;
        }
        c = next(links, c);
    }
    true
}

// Chains the places, the last first. A book with a row of no kind is unsound.
pub fn chain(book: &[u8], links: &mut [u16]) -> bool
    requires book_bound { places book.now ≤ most_records }
    requires no_chains { NoChains book.now links.old }
    ensures { Says result (ByKind book.now links.new 0) (sound (rows book.now)) }
{
    for i in (0..book.len() / Grid::SIZE).rev() {
        let row = row_at(book, i);
        if Kind::LAST < row.kind {
            return false;
        }
        let k = usize::from(row.kind);
        links[Links::HEADS + i] = links[k];
        links[k] = i as u16;
    }
    true
}
