// The calls that C can reach. Whatever bytes and lengths a call is given, it ends, and every byte that it leaves is
// promised.
#![tactic(auto)]

ghost use Rattle.std.specs.Prelude.{◌≡◌, true, ◌*◌, ◌/◌, ◌<◌, ◌≤◌, length};
ghost use Rattle.model.specs.Call.{Promise, feed_call, lookup_call, most_inputs, order_call, result_call};
ghost use Rattle.model.specs.Rows.{most_records, places, record_size, whole_records};
ghost use Rattle.shell.specs.Shell.{call_of, long_of};

use kinds::limits::Ranges;
use model::Status;
use record::row::Grid;
use reply::code;
use shell::{Call, long, looked, within};
use sound::area::{Large, Middle, Size, Small};
use sound::whole::whole;

// The number of records, as a directory has it.
fn records(book: &[u8]) -> u16
    ensures { places book.now < 65536 → result ≡ places book.now }
{
    u16::try_from(book.len() / Grid::SIZE).unwrap_or(0)
}

// The shell of a call that changes a book, with a directory of so many cells. Inlined, a call for a small book would
// pay for the largest.
#[inline(never)]
fn within_cells<const CELLS: usize>(
    call: Call,
    book: &mut [u8],
    input: &[u8],
    answer: &mut [u8],
) -> i32
    requires room { (places book.old ≤ most_records → places book.old < CELLS / 2) × (CELLS ≤ 32768) }
    requires input_value { (long_of call (length input.now) ≡ true) × (length answer.old ≡ record_size) }
    ensures { Promise (call_of call book.old input.now answer.old) result book.new
        answer.new }
{
    let mut dir = [records(book); CELLS];
    within(call, book, &mut dir, input, answer)
}

// The lengths, and a directory of the book's size.
fn called(call: Call, book: &mut [u8], input: &[u8], answer: &mut [u8]) -> i32
    ensures { Promise (call_of call book.old input.now answer.old) result book.new
        answer.new }
{
    if !(long(call, input.len()) & (answer.len() == Grid::SIZE)) {
        return code(Status::BadLength);
    }
    match Size::of(book.len() / Grid::SIZE) {
        Size::Small => within_cells::<{ Small::CELLS }>(call, book, input, answer),
        Size::Middle => within_cells::<{ Middle::CELLS }>(call, book, input, answer),
        Size::Large => within_cells::<{ Large::CELLS }>(call, book, input, answer),
    }
}

// Trade-Order.
#[unsafe(no_mangle)]
pub extern "C" fn book_order(book: &mut [u8], input: &[u8], answer: &mut [u8]) -> i32
    ensures { Promise (order_call book.old input.now answer.old) result book.new
        answer.new }
{
    called(Call::Order, book, input, answer)
}

// Trade-Result.
#[unsafe(no_mangle)]
pub extern "C" fn book_result(book: &mut [u8], input: &[u8], answer: &mut [u8]) -> i32
    ensures { Promise (result_call book.old input.now answer.old) result book.new
        answer.new }
{
    called(Call::Result, book, input, answer)
}

// Market-Feed.
#[unsafe(no_mangle)]
pub extern "C" fn book_feed(book: &mut [u8], input: &[u8], answer: &mut [u8]) -> i32
    ensures { Promise (feed_call book.old input.now answer.old) result book.new
        answer.new }
{
    called(Call::Feed, book, input, answer)
}

// The shell of a lookup, with a directory of so many cells.
#[inline(never)]
fn looked_cells<const CELLS: usize>(book: &[u8], input: &[u8], answer: &mut [u8]) -> i32
    requires room { (places book.now ≤ most_records → places book.now < CELLS / 2) × (CELLS ≤ 32768) }
    requires input_value { (whole_records most_inputs (length input.now) ≡ true)
        × (length answer.old ≡ 2 * length input.now) }
    ensures { Promise (lookup_call book.now input.now answer.old) result book.now
        answer.new }
{
    let mut dir = [records(book); CELLS];
    looked(book, &mut dir, input, answer)
}

// Trade-Lookup by trade number.
#[unsafe(no_mangle)]
pub extern "C" fn book_lookup(book: &[u8], input: &[u8], answer: &mut [u8]) -> i32
    ensures { Promise (lookup_call book.now input.now answer.old) result book.now
        answer.new }
{
    if !(whole(input.len(), Ranges::INPUTS) & (answer.len() == 2 * input.len())) {
        return code(Status::BadLength);
    }
    match Size::of(book.len() / Grid::SIZE) {
        Size::Small => looked_cells::<{ Small::CELLS }>(book, input, answer),
        Size::Middle => looked_cells::<{ Middle::CELLS }>(book, input, answer),
        Size::Large => looked_cells::<{ Large::CELLS }>(book, input, answer),
    }
}
