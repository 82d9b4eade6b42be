// The directory of a book, made in one pass.
ghost use Rattle.std.specs.Prelude.{◌≡◌, ◌≤◌};
ghost use Rattle.model.specs.Rows.{most_records};
ghost use Rattle.directory.specs.Directory.{Blank, Directory};
ghost use Rattle.directory.specs.Listed.{places};

use crate::totals::{Totals, raised};
use chains::chain::link;
use chains::group;
use places::place::row_at;
use record::codes::Kind;
use record::row::Grid;
use units::TradeNo;

// The number of a book's places.
pub fn places(book: &[u8]) -> usize
    ensures { result ≡ places book.now }
{
    book.len() / Grid::SIZE
}

// Puts the places of a book into a blank directory, the last first.
pub fn build(book: &[u8], dir: &mut [u16]) -> Totals
    requires book_bound { places book.now ≤ most_records }
    requires blank { Blank book.now dir.old }
    ensures { Directory book.now dir.new result }
{
    let mut free = 0;
    let mut top = TradeNo(0);
    for i in (0..book.len() / Grid::SIZE).rev() {
        let row = row_at(book, i);
        let bucket = group::bucket(dir.len() / 2, group::of(row));
        link(dir, bucket, i);
        free += usize::from(row.kind == Kind::FREE);
        top = raised(top, row);
    }
    Totals { free, largest: top }
}
