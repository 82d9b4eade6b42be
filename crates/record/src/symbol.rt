// A symbol: eight bytes, compared from the first one on. They are held as one number, the first byte highest, so that
// numbers are ordered as the bytes are.
ghost use Rattle.std.specs.Prelude.{◌≡◌, ◌+◌, ◌≤◌, length};
ghost use Rattle.record.specs.Bytes.{be, turned};
ghost use Rattle.record.specs.Symbol.{holding, symbol_at, symbol_bytes};
ghost use Rattle.record.specs.Spelling.{follows, letter, symbol_ok};

use crate::bytes;

#[derive(Clone, Copy, PartialEq, Eq, PartialOrd, Ord)]
pub struct Symbol(pub u64);

// The number with its four bytes in the other order.
fn turned(x: u32) -> u32
    ensures { result ≡ turned x }
{
    x.swap_bytes()
}

// The number of four bytes, the first one highest: turned, so that four bytes are one load.
fn high_at(part: &[u8], at: usize) -> u32
    requires { at + 4 ≤ length part.now }
    ensures { result ≡ be 4 part.now at }
{
    turned(bytes::u32_at(part, at))
}

// The number of eight bytes, the first one highest.
fn number_at(part: &[u8], at: usize) -> u64
    requires { at + 8 ≤ length part.now }
    ensures { result ≡ be 8 part.now at }
{
    let low = u64::from(high_at(part, at + 4));
    u64::from(high_at(part, at)) * 4294967296 + low
}

// A-Z, 0-9, "." and "-".
fn is_letter(b: u8) -> bool
    ensures { result ≡ letter b }
{
    ((b'A' <= b) & (b <= b'Z')) | ((b'0' <= b) & (b <= b'9')) | (b == b'.') | (b == b'-')
}

// After the byte a comes a zero, or a letter where a was not zero.
fn may_follow(a: u8, b: u8) -> bool
    ensures { result ≡ follows a b }
{
    (b == 0) | (is_letter(b) & (a != 0))
}

impl Symbol {
    pub const LONG: usize = 8;

    // The bytes of a row that has no symbol.
    pub const NONE: Symbol = Symbol(0);

    // The symbol at a place.
    pub fn at(part: &[u8], at: usize) -> Symbol
        requires { at + 8 ≤ length part.now }
        ensures { result ≡ symbol_at part.now at }
    {
        Symbol(number_at(part, at))
    }

    // A number in the place of a symbol: little-endian as every number is.
    pub fn holding(x: u64) -> Symbol
        ensures { result ≡ holding x }
    {
        Symbol(x.swap_bytes())
    }

    // The bytes again, in their order.
    pub fn spelled(self) -> [u8; Symbol::LONG]
        ensures { result ≡ symbol_bytes self }
    {
        self.0.to_be_bytes()
    }

    // One to seven letters, then zeros; the last byte is the fence.
    #[tactic(auto, unfolding(crate::specs::Spelling::symbol_ok))]
    pub fn ok(self) -> bool
        ensures { result ≡ symbol_ok self }
    {
        let b = self.spelled();
        let fence = b[7];
        is_letter(b[0])
            & may_follow(b[0], b[1])
            & may_follow(b[1], b[2])
            & may_follow(b[2], b[3])
            & may_follow(b[3], b[4])
            & may_follow(b[4], b[5])
            & may_follow(b[5], b[6])
            & (fence == 0)
    }
}
