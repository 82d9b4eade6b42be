// Reads a book of at most 1,024 records from standard input, and prints how many trades it has of each type and
// status, or that it is refused.
#![tactic(auto)]

ghost use Rattle.std.specs.Prelude.{◌≡◌, ◌≤◌, length, take, OnOk};
ghost use Rattle.tally.specs.Page.{IsPrefixLen};
ghost use Rattle.tally.specs.Text.{answer};
ghost use Rattle.tally.specs.Told.{IsTold};

mod input;
#[cfg(test)]
mod tests;
mod text;

use input::read_full;
use model::Status;
use record::row::Grid;
use std::io;
use std::io::{Read, Write};
use text::{put, put_square};

const MOST_RECORDS: usize = 1_024;

// What the program prints of a book, at the front of a page.
fn answer(book: &[u8], page: &mut [u8]) -> usize
    requires { 335 ≤ length page.old }
    ensures prefix_len { IsPrefixLen result page.new }
    ensures page_after { take result page.new ≡ answer book.now }
{
    match sound::whole::status(book, MOST_RECORDS) {
        Status::Done => put_square(page, counts::tally(book)),
        Status::Unsound => put(page, 0, b"refused -102\n"),
        _ => put(page, 0, b"refused -101\n"),
    }
}

// One byte more than the largest book has is read, to see whether there is more.
const AREA: usize = MOST_RECORDS * Grid::SIZE + 1;

// Five lines of at most 67 bytes.
const PAGE: usize = 335;

// Reads a book, and prints what is to be printed of it.
fn run<R: Read, W: Write>(input: &mut R, output: &mut W) -> io::Result<()>
    ensures { OnOk result (IsTold (R.remaining input.old) (R.remaining input.new) (W.contents output.old) (W.contents output.new)) }
{
    let mut area = [0u8; AREA];
    let n = read_full(input, &mut area);
    let mut page = [0u8; PAGE];
    let k = answer(&area[..n], &mut page);
    output.write_all(&page[..k])
}

// Nothing is told of output that is not taken.
fn main(rt: HostRuntime) {
    let _ = run(&mut rt.stdin(), &mut rt.stdout());
}
