// What a result that is accepted does to the book. Rows are added first, and after them rows are changed or freed, each
// where it was found, so that no row comes to stand where another has just gone.
ghost use Rattle.std.specs.Prelude.{◌≡◌};
ghost use Rattle.model.specs.Rows.{rows};
ghost use Rattle.directory.specs.Directory.{Directory};
ghost use Rattle.reading.specs.Terms.{input_row};
ghost use Rattle.verdict.specs.Judge.{result_rows};
ghost use Rattle.result.specs.Whole.{Posts};

use added::add_own;
use changed::{change_rows, free_summary};
use closed::{add_closings, free_lots, reduce};
use directory::totals::Totals;
use figures::Figures;
use kinds::inputs::ResultInput;
use reading::terms::Terms;
use sorted::Sorted;
use walk::Walk;

pub fn post(
    book: &mut [u8],
    dir: &mut [u16],
    t: Totals,
    at: &[u16; Sorted::MOST],
    n: usize,
    input: ResultInput,
    terms: Terms,
    figures: Figures,
) -> Totals
    requires { Posts book.old dir.old at.now n t input terms figures }
    ensures book_after { rows book.new ≡ result_rows (rows book.old) (input_row input) }
    ensures directory { Directory book.new dir.new result }
{
    let trade = terms.trade;
    let start = Walk::start(trade.trade_type, input.price, trade.shares);
    let closed = add_closings(book, dir, t, at, n, trade, start);
    let more = add_own(book, dir, closed.totals, input, terms, figures);
    reduce(book, dir, more, at, closed, trade);
    change_rows(book, dir, more, input, terms, figures);
    let less = free_lots(book, dir, more, at, closed.gone);
    free_summary(book, dir, less, terms, figures.shares)
}
