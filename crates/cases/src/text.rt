// Words and numbers in a text.
ghost use Rattle.std.specs.Prelude.{◌<◌, ◌≤◌, length};

// Where a byte next stands, or the end.
pub fn find(text: &[u8], from: usize, end: usize, b: u8) -> usize
    requires { (from ≤ end) × (end ≤ length text.now) }
    ensures { (from ≤ result) × (result ≤ end) }
{
    for i in from..end {
        if text[i] == b {
            return i;
        }
    }
    end
}

fn digit(b: u8) -> u64
    ensures { result < 16 }
{
    u64::from(b % 16)
}

// A number of at most 19 digits.
fn plain(text: &[u8], from: usize, end: usize) -> u64
    requires { end ≤ length text.now }
{
    let mut x: u64 = 0;
    for i in from..end {
        x = x % 1_000_000_000_000_000_000 * 10 + digit(text[i]);
    }
    x
}

// A number in two's complement, with or without a minus.
pub fn number(text: &[u8], from: usize, end: usize) -> u64
    requires { end ≤ length text.now }
{
    if from < end {
        if text[from] == b'-' {
            return 0u64.wrapping_sub(plain(text, from + 1, end));
        }
    }
    plain(text, from, end)
}
