// A row put at a place.
ghost use Rattle.std.specs.Prelude.{◌≡◌, ◌<◌, set};
ghost use Rattle.model.specs.Rows.{places, rows};
ghost use Rattle.places.specs.Rows.{put_at, row_at};

use crate::place::record_at;
use record::row::{Grid, Row};

// The row at a place of the book; past the end nothing is written.
pub fn put(book: &mut [u8], i: usize, row: Row)
    ensures { (book.new ≡ put_at book.old i row)
        × (rows book.new ≡ set (rows book.old) i row) }
{
    if i >= book.len() / Grid::SIZE {
        return;
    }
    let a = i * Grid::SIZE;
    let e = a + Grid::SIZE;
    row.write(&mut book[a..e]);
}

// The row at the place p of a book, put at a place of an area as it stands, byte for byte; past the end of the book it is
// the free row.
pub fn put_from(area: &mut [u8], i: usize, book: &[u8], p: usize)
    requires { i < places area.old }
    ensures { let r = row_at book.now p in (area.new ≡ put_at area.old i r)
        × (rows area.new ≡ set (rows area.old) i r) }
{
    let record = record_at(book, p);
    let start = i * Grid::SIZE;
    let end = start + Grid::SIZE;
    area[start..end].copy_from_slice(&record);
}
