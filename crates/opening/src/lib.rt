// What every call checks before it decides anything, and the directory that it is decided with. Nothing is written to
// the book here.
#![tactic(auto)]

ghost use Rattle.std.specs.Prelude.{◌≡◌, IfOk};
ghost use Rattle.reply.specs.Ending.{Refuses, ended};
ghost use Rattle.opening.specs.Opening.{Opened, Room, opening};

use directory::build::build;
use directory::totals::Totals;
use kinds::limits::Ranges;
use model::Status;
use reply::check;
use sound::whole::{sound_by, whole};

// The checks of every call: the book's length, its soundness and the input's fields. Where they find no fault the
// directory is the book's.
#[tactic(auto, using(crate::specs::Opening::few), unfolding(crate::specs::Opening::opening))]
pub fn opened(book: &[u8], inputs: bool, dir: &mut [u16]) -> Result<Totals, Status>
    requires { Room book.now dir.old }
    ensures status_value { ended result ≡ opening inputs book.now }
    ensures opened { IfOk result (λ totals. Opened inputs book.now dir.new totals) }
    ensures refusal { Refuses result }
{
    check(whole(book.len(), Ranges::RECORDS), Status::BadBook)?;
    let totals = build(book, dir);
    check(sound_by(book, dir), Status::Unsound)?;
    check(inputs, Status::BadInput)?;
    Ok(totals)
}
