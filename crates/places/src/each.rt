// A test that is put to every record.
ghost use Rattle.std.specs.Prelude.{◌≡◌, Bool, ℕ, ◌<◌};
ghost use Rattle.laws.specs.Search.{every};
ghost use Rattle.record.specs.declared.row.Row.{Row};
ghost use Rattle.model.specs.Rows.{places, rows};
ghost use Rattle.places.specs.Each.{Tells};

use record::row::places;

// Every record of a book or of an input passes the test, which is asked by place, and not again once one fails.
pub fn every<F: Fn(usize) -> bool>(book: &[u8], test: F) -> bool
    requires { (i : ℕ) → i < places book.now → F.pre test i }
    ensures { (p : Row → Bool) → Tells (F.post test) book.now p → result ≡ every p (rows book.now) }
{
    for i in 0..places(book) {
        if !test(i) {
            return false;
        }
    }
    true
}
