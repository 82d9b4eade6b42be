// The shell of a call whose lengths are right: the checks, the inner call, and how it ends.
#![tactic(auto)]

ghost use Rattle.std.specs.Prelude.{◌≡◌, true, ◌*◌, length};
ghost use Rattle.model.specs.Call.{Promise, lookup_call, most_inputs};
ghost use Rattle.model.specs.Rows.{record_size, rows, whole_records};
ghost use Rattle.reply.specs.Ending.{Refuses, ended};
ghost use Rattle.reply.specs.Left.{answer_left, book_left};
ghost use Rattle.opening.specs.Opening.{Opened, Room};
ghost use Rattle.shell.specs.Shell.{call_of, decide_of, fields_of, long_of, lookup_of, whole_of};

use directory::totals::Totals;
use feed::feed;
use inputs::{all_feed, all_lookup, is_order, is_result};
use kinds::limits::Ranges;
use lookup::lookup;
use model::Status;
use opening::opened;
use order::order;
use record::row::Grid;
use reply::finish;
use result::result;
use sound::whole::whole;

// The calls that change a book: cases and not closures, since one contract speaks of all three by their names.
#[derive(Clone, Copy)]
pub enum Call {
    Order,
    Result,
    Feed,
}

// The input has a length that the call takes.
pub fn long(call: Call, input: usize) -> bool
    ensures { result ≡ long_of call input }
{
    match call {
        Call::Order | Call::Result => input == Grid::SIZE,
        Call::Feed => whole(input, Ranges::INPUTS),
    }
}

// Every field of the input keeps its rule.
fn fields(call: Call, input: &[u8]) -> bool
    requires { long_of call (length input.now) ≡ true }
    ensures { result ≡ fields_of call input.now }
{
    match call {
        Call::Order => is_order(input),
        Call::Result => is_result(input),
        Call::Feed => all_feed(input),
    }
}

// The inner call, on a book that no check refuses.
fn decide(
    call: Call,
    book: &mut [u8],
    dir: &mut [u16],
    t: Totals,
    input: &[u8],
    answer: &mut [u8],
) -> Result<Totals, Status>
    requires opened { Opened (fields_of call input.now) book.old dir.old t }
    requires input_value { (long_of call (length input.now) ≡ true) × (length answer.old ≡ record_size) }
    ensures status_value { ended result ≡ (decide_of call input.now (rows book.old)).status }
    ensures book_after { book.new
        ≡ book_left (decide_of call input.now (rows book.old)) book.old }
    ensures answer_after { answer.new
        ≡ answer_left (decide_of call input.now (rows book.old)) answer.old }
    ensures refusal { Refuses result }
{
    match call {
        Call::Order => order(book, dir, t, input, answer),
        Call::Result => result(book, dir, t, input, answer),
        Call::Feed => feed(book, dir, t, input, answer),
    }
}

// The checks, and the inner call where none of them refuses.
#[tactic(auto, unfolding(reply::specs::Left::book_left, reply::specs::Left::answer_left))]
fn checked(
    call: Call,
    book: &mut [u8],
    dir: &mut [u16],
    input: &[u8],
    answer: &mut [u8],
) -> Result<Totals, Status>
    requires room { Room book.old dir.old }
    requires input_value { (long_of call (length input.now) ≡ true) × (length answer.old ≡ record_size) }
    ensures status_value { ended result ≡ (whole_of call input.now book.old).status }
    ensures book_after { book.new ≡ book_left (whole_of call input.now book.old) book.old }
    ensures answer_after { answer.new ≡ answer_left (whole_of call input.now book.old) answer.old }
    ensures refusal { Refuses result }
{
    let t = opened(book, fields(call, input), dir)?;
    decide(call, book, dir, t, input, answer)
}

// The shell of a call that changes a book, around the inner call, where the lengths are right.
pub fn within(call: Call, book: &mut [u8], dir: &mut [u16], input: &[u8], answer: &mut [u8]) -> i32
    requires room { Room book.old dir.old }
    requires input_value { (long_of call (length input.now) ≡ true) × (length answer.old ≡ record_size) }
    ensures { Promise (call_of call book.old input.now answer.old) result book.new
        answer.new }
{
    let outcome = checked(call, book, dir, input, answer);
    finish(answer, outcome)
}

// The checks, and the lookup where none of them refuses.
#[tactic(auto, unfolding(reply::specs::Left::answer_left))]
fn found(book: &[u8], dir: &mut [u16], input: &[u8], answer: &mut [u8]) -> Result<(), Status>
    requires room { Room book.now dir.old }
    requires input_value { (whole_records most_inputs (length input.now) ≡ true)
        × (length answer.old ≡ 2 * length input.now) }
    ensures status_value { ended result ≡ (lookup_of input.now book.now).status }
    ensures answer_after { answer.new ≡ answer_left (lookup_of input.now book.now) answer.old }
    ensures refusal { Refuses result }
{
    opened(book, all_lookup(input), dir)?;
    lookup(book, dir, input, answer)
}

// The shell of a lookup, which only reads the book, where the lengths are right.
pub fn looked(book: &[u8], dir: &mut [u16], input: &[u8], answer: &mut [u8]) -> i32
    requires room { Room book.now dir.old }
    requires input_value { (whole_records most_inputs (length input.now) ≡ true)
        × (length answer.old ≡ 2 * length input.now) }
    ensures { Promise (lookup_call book.now input.now answer.old) result book.now
        answer.new }
{
    let outcome = found(book, dir, input, answer);
    finish(answer, outcome)
}
