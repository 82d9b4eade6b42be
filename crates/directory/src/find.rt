// The place of the row of a key.
ghost use Rattle.std.specs.Prelude.{◌≡◌, false, ◌+◌, ◌<◌, drop};
ghost use Rattle.laws.specs.Search.{seek};
ghost use Rattle.keys.specs.Key.{key_of};
ghost use Rattle.keys.specs.Marks.{all_keys, marks_of};
ghost use Rattle.model.specs.Rows.{has_key, rows};
ghost use Rattle.places.specs.Rows.{row_at};
ghost use Rattle.chains.specs.Group.{apart, key_group};
ghost use Rattle.directory.specs.Listed.{InBucket, Listed, places};
ghost use Rattle.directory.specs.Marked.{trimmed};

use chains::chain::next;
use keys::{Key, marks};
use kinds::limits::Marks;
use places::place::row_at;
use record::row::{Grid, Row};

// The row has the key. Of its fields those are compared that the marks of the key's kind name, and where they lie.
fn has(m: Marks, key: Key, row: Row) -> bool
    requires { (m ≡ marks_of key.kind all_keys) × (trimmed key ≡ key) }
    ensures { result ≡ has_key key row }
{
    (row.kind == key.kind)
        & (!m.form | (row.form == key.form))
        & (!m.status | (row.status == key.status))
        & (!m.flags | (row.flags == key.flags))
        & (!m.party | (row.party == key.party))
        & (!m.id | (row.id == key.id))
        & (!m.symbol | (row.symbol == key.symbol))
        & (!m.n1 | (row.n1 == key.n1))
        & (!m.m2 | (row.m2 == key.m2))
}

// The first place of a key from a place of its bucket on, by the marks of its kind.
pub fn walk(book: &[u8], dir: &[u16], m: Marks, key: Key, from: usize) -> usize
    requires listed { Listed book.now dir.now }
    requires m_value { (m ≡ marks_of key.kind all_keys) × (trimmed key ≡ key) }
    requires kind_value { (apart key.kind ≡ false) × InBucket book.now dir.now (key_group key) from }
    ensures { result ≡ seek (has_key key) from (drop from (rows book.now)) }
{
    let n = book.len() / Grid::SIZE;
    let mut c = from;
    while c < n {
        if has(m, key, row_at(book, c)) {
            return c;
        }
        c = next(dir, c);
    }
    c
}

// The next place after i with the key of the row at i, the number of places where there is none. Rows that share a bucket
// are mostly of different kinds: the key is made at the first one of the same kind, and mostly not at all.
pub fn again(book: &[u8], dir: &[u16], i: usize, row: Row) -> usize
    requires listed { Listed book.now dir.now }
    requires i_bound { (i < places book.now) × (row ≡ row_at book.now i) × (apart row.kind ≡ false) }
    ensures { result ≡ seek (has_key (key_of row)) (i + 1) (drop (i + 1) (rows book.now)) }
{
    let n = book.len() / Grid::SIZE;
    let mut c = next(dir, i);
    while c < n {
        if row_at(book, c).kind == row.kind {
            return walk(book, dir, marks(row.kind), Key::of(row), c);
        }
        c = next(dir, c);
    }
    c
}
