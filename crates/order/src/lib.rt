// Trade-Order, on a book that is known to be sound and its directory: judged on the book as it is, and then posted.
#![tactic(auto)]

ghost use Rattle.std.specs.Prelude.{◌≡◌, true, length, MatchResult};
ghost use Rattle.record.specs.Grid.{decode};
ghost use Rattle.rules.specs.Rules.{order_input};
ghost use Rattle.model.specs.Order.{order};
ghost use Rattle.model.specs.Rows.{most_records, record_size, rows, whole_records};
ghost use Rattle.model.specs.Sound.{sound};
ghost use Rattle.directory.specs.Directory.{Directory};
ghost use Rattle.reply.specs.Ending.{Refuses, ended};
ghost use Rattle.reply.specs.Left.{answer_left, book_left};

pub mod post;

use crate::post::{answer_row, post};
use directory::totals::Totals;
use estimate::figures::estimated;
use estimate::judge::judge;
use estimate::terms::terms_of;
use kinds::inputs::OrderInput;
use kinds::typed::Typed;
use model::Status;
use places::put::put;

// What an order gives on a book that is sound: the book and the answer of the rules, and where it is refused both areas
// as they were.
pub fn order(
    book: &mut [u8],
    dir: &mut [u16],
    t: Totals,
    input: &[u8],
    answer: &mut [u8],
) -> Result<Totals, Status>
    requires directory { Directory book.old dir.old t }
    requires book_value { (sound (rows book.old) ≡ true) × (whole_records most_records (length book.old) ≡ true) }
    requires input_len { (length input.now ≡ record_size) × (order_input (decode input.now) ≡ true) }
    requires answer_len { length answer.old ≡ record_size }
    ensures status_value { ended result ≡ (order (rows book.old) (decode input.now)).status }
    ensures book_after { let o = order (rows book.old) (decode input.now) in
        book.new ≡ book_left o book.old }
    ensures answer_after { let o = order (rows book.old) (decode input.now) in
        answer.new ≡ answer_left o answer.old }
    ensures directory_2 { MatchResult result (λ totals. Directory book.new dir.new totals)
        (λ _. Directory book.new dir.new t) }
    ensures refusal { Refuses result }
{
    let given = OrderInput::from_bytes(input);
    let terms = terms_of(book, dir, t, given);
    let estimate = estimated(book, dir, given, terms);
    judge(t, given, terms, estimate)?;
    let totals = post(book, dir, t, given, terms, estimate);
    put(answer, 0, answer_row(terms, estimate));
    Ok(totals)
}
