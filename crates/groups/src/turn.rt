// The rows of a group that goes by a symbol, in turn: one walk for the lots of an account and symbol and for the
// requests on a symbol.
ghost use Rattle.std.specs.Prelude.{◌≡◌, true, ◌+◌, ◌<◌, drop};
ghost use Rattle.laws.specs.Search.{place, seek};
ghost use Rattle.model.specs.Rows.{places, rows};
ghost use Rattle.places.specs.Rows.{row_at};
ghost use Rattle.directory.specs.Listed.{Grouped, InBucket, Listed};
ghost use Rattle.groups.specs.Sums.{member};

use crate::lots::held;
use crate::requests::asked;
use chains::chain::next;
use chains::group;
use keys::Key;
use record::codes::Kind;
use record::row::Grid;
use units::AccountNo;

// The record at a place is of a group.
fn member(book: &[u8], group: Key, at: usize) -> bool
    requires { at < places book.now }
    ensures { result ≡ member group (row_at book.now at) }
{
    if group.kind == Kind::REQUEST {
        return asked(book, group.symbol, at);
    }
    held(book, AccountNo(group.party), group.symbol, at)
}

// The first of a group from a place of its bucket on.
fn walk(book: &[u8], dir: &[u16], group: Key, from: usize) -> usize
    requires listed { Listed book.now dir.now }
    requires grouped { Grouped (member group) group × InBucket book.now dir.now group from }
    ensures { result ≡ seek (member group) from (drop from (rows book.now)) }
{
    let n = book.len() / Grid::SIZE;
    let mut c = from;
    while c < n {
        if member(book, group, c) {
            return c;
        }
        c = next(dir, c);
    }
    c
}

// The place of the first of a group, the number of places where there is none.
pub fn first_of(book: &[u8], dir: &[u16], group: Key) -> usize
    requires { Listed book.now dir.now × Grouped (member group) group }
    ensures { result ≡ place (member group) (rows book.now) }
{
    walk(book, dir, group, group::first(dir, group))
}

// The place of the next of a group after one, the number of places where there is none.
pub fn next_of(book: &[u8], dir: &[u16], group: Key, at: usize) -> usize
    requires listed { Listed book.now dir.now × Grouped (member group) group }
    requires at_bound { (at < places book.now) × (member group (row_at book.now at) ≡ true) }
    ensures { result ≡ seek (member group) (at + 1) (drop (at + 1) (rows book.now)) }
{
    walk(book, dir, group, next(dir, at))
}
