// The text of the answer, written at a place of a page; each function answers the place after what it wrote.
ghost use Rattle.std.specs.Prelude.{[], ◌∷◌, ◌+◌, ◌<◌, ◌≤◌, length};
ghost use Rattle.tally.specs.Page.{Wrote};
ghost use Rattle.tally.specs.Text.{count, line, square};

use itoa::Buffer;

fn put_byte(page: &mut [u8], at: usize, b: u8) -> usize
    requires { at < length page.old }
    ensures { Wrote page.old at page.new result (b ∷ []) }
{
    page[at] = b;
    at + 1
}

pub fn put(page: &mut [u8], at: usize, text: &[u8]) -> usize
    requires { at + length text.now ≤ length page.old }
    ensures { Wrote page.old at page.new result text.now }
{
    let end = at + text.len();
    page[at..end].copy_from_slice(text);
    end
}

// A space and a number.
fn put_count(page: &mut [u8], at: usize, n: usize) -> usize
    requires { at + 21 ≤ length page.old }
    ensures wrote { Wrote page.old at page.new result (count n) }
    ensures small { result ≤ at + 21 }
{
    let mut digits = Buffer::new();
    let next = put_byte(page, at, b' ');
    put(page, next, digits.format(n).as_bytes())
}

// A type's code and its counts.
fn put_line(page: &mut [u8], at: usize, code: &[u8; 3], counts: [usize; 3]) -> usize
    requires { at + 67 ≤ length page.old }
    ensures wrote { Wrote page.old at page.new result (line code.now counts) }
    ensures small { result ≤ at + 67 }
{
    let a = put(page, at, code);
    let b = put_count(page, a, counts[0]);
    let c = put_count(page, b, counts[1]);
    let d = put_count(page, c, counts[2]);
    put_byte(page, d, b'\n')
}

pub fn put_square(page: &mut [u8], counts: [[usize; 3]; 5]) -> usize
    requires { 335 ≤ length page.old }
    ensures { Wrote page.old 0 page.new result (square counts) }
{
    let a = put_line(page, 0, b"TMB", counts[0]);
    let b = put_line(page, a, b"TMS", counts[1]);
    let c = put_line(page, b, b"TLB", counts[2]);
    let d = put_line(page, c, b"TLS", counts[3]);
    put_line(page, d, b"TSL", counts[4])
}
