// The lots that a result closes.
ghost use Rattle.std.specs.Prelude.{true, ◌≡◌};
ghost use Rattle.model.specs.Rows.{rows};
ghost use Rattle.model.specs.Sound.{sound};
ghost use Rattle.directory.specs.Listed.{Listed};
ghost use Rattle.reading.specs.Lots.{Held, Holds};

use crate::terms::Terms;
use closing::{Sought, gather};
use sorted::Sorted;

// Gathers their places, in the order of closing. Without a summary there are no lots, and none is looked for.
pub fn lots_of(book: &[u8], dir: &[u16], terms: Terms, at: &mut [u16; Sorted::MOST]) -> usize
    requires listed { Listed book.now dir.now }
    requires book_value { (sound (rows book.now) ≡ true) × Holds (rows book.now) terms }
    ensures { Held terms book.now at.new result }
{
    if terms.held {
        let t = terms.trade;
        let sought = Sought::of(t.trade_type, t.flags, t.account, t.symbol);
        return gather(book, dir, sought, at);
    }
    0
}
