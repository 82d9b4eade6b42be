// Trade-Result, on a book that is known to be sound and its directory: it is judged on the book as it is, and then
// posted.
#![tactic(auto)]

ghost use Rattle.std.specs.Prelude.{true, ◌≡◌, length, MatchResult};
ghost use Rattle.record.specs.Grid.{decode};
ghost use Rattle.rules.specs.Rules.{result_input};
ghost use Rattle.model.specs.Result.{result as trade_result};
ghost use Rattle.model.specs.Rows.{most_records, record_size, rows, whole_records};
ghost use Rattle.model.specs.Sound.{sound};
ghost use Rattle.places.specs.Rows.{put_at};
ghost use Rattle.reply.specs.Ending.{Refuses, ended};
ghost use Rattle.reply.specs.Left.{answer_left, book_left};
ghost use Rattle.directory.specs.Directory.{Directory};
ghost use Rattle.result.specs.Ended.{answer_of};

mod post;

use crate::post::post;
use directory::totals::Totals;
use figures::{Figures, reckoned};
use kinds::inputs::ResultInput;
use kinds::rows::Trade;
use kinds::typed::Typed;
use model::Status;
use places::put::put;
use reading::lots::lots_of;
use reading::terms::terms_of;
use sorted::Sorted;
use verdict::judge;
use written::answer_row;

fn write_answer(answer: &mut [u8], trade: Trade, figures: Figures)
    ensures { answer.new ≡ put_at answer.old 0 (answer_of trade figures) }
{
    put(answer, 0, answer_row(trade, figures));
}

// What a result gives on a book that is sound: the book and the answer of the rules, and where it is refused both areas
// as they were.
pub fn result(
    book: &mut [u8],
    dir: &mut [u16],
    t: Totals,
    input: &[u8],
    answer: &mut [u8],
) -> Result<Totals, Status>
    requires directory { Directory book.old dir.old t }
    requires book_value { (sound (rows book.old) ≡ true) × (whole_records most_records (length book.old) ≡ true) }
    requires input_len { (length input.now ≡ record_size) × (result_input (decode input.now) ≡ true) }
    requires answer_len { length answer.old ≡ record_size }
    ensures status_value { ended result ≡ (trade_result (rows book.old) (decode input.now)).status }
    ensures book_after { book.new ≡ book_left (trade_result (rows book.old) (decode input.now)) book.old }
    ensures answer_after { answer.new
        ≡ answer_left (trade_result (rows book.old) (decode input.now)) answer.old }
    ensures fact { MatchResult result (λ totals. Directory book.new dir.new totals)
        (λ _. Directory book.new dir.new t) }
    ensures refusal { Refuses result }
{
    let what = ResultInput::from_bytes(input);
    let terms = terms_of(book, dir, what);
    let mut at = [0; Sorted::MOST];
    let n = lots_of(book, dir, terms, &mut at);
    let figures = reckoned(book, &at, n, what, terms);
    judge(t.free, terms, figures)?;
    let totals = post(book, dir, t, &at, n, what, terms, figures);
    write_answer(answer, terms.trade, figures);
    Ok(totals)
}
