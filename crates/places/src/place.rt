// The row at a place.
ghost use Rattle.std.specs.Prelude.{◌≡◌, ◌<◌, length};
ghost use Rattle.record.specs.Grid.{decode};
ghost use Rattle.model.specs.Rows.{nothing, places, record_size};
ghost use Rattle.places.specs.Rows.{row_at};

use kinds::rows::Blank;
use kinds::typed::Typed;
use record::row::{Grid, Row, places};

// The row of a free record.
pub fn nothing() -> Row
    ensures { result ≡ nothing }
{
    Blank::ROW
}

// The bytes of the record at a place.
pub fn part(book: &[u8], i: usize) -> &[u8]
    requires { i < places book.now }
    ensures { (length result.now ≡ record_size) × (decode result.now ≡ row_at book.now i) }
{
    let a = i * Grid::SIZE;
    let e = a + Grid::SIZE;
    &book[a..e]
}

pub fn row_at(book: &[u8], i: usize) -> Row
    ensures { result ≡ row_at book.now i }
{
    if i < book.len() / Grid::SIZE {
        return Row::read(part(book, i));
    }
    nothing()
}

// The bytes of the record at a place, zeros past the end: for a typed row that may not be there.
pub fn record_at(book: &[u8], i: usize) -> [u8; Grid::SIZE]
    ensures { (length result ≡ record_size) × (decode result ≡ row_at book.now i) }
{
    let mut r = [0u8; Grid::SIZE];
    if i < places(book) {
        r.copy_from_slice(part(book, i));
    }
    r
}

// The record at a place as a value of a kind; past the end, that of a free record.
pub fn typed_at<T: Typed>(book: &[u8], i: usize) -> T
    ensures { result ≡ T.of_row (row_at book.now i) }
{
    T::from_bytes(&record_at(book, i))
}

// The same at a place that an array of places holds.
pub fn typed_noted<T: Typed>(book: &[u8], place: u16) -> T
    ensures { result ≡ T.of_row (row_at book.now place) }
{
    typed_at(book, usize::from(place))
}
