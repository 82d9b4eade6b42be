// One record: 64 bytes, read as fifteen plain numbers and written from them.
ghost use Rattle.std.specs.Prelude.{◌≡◌, ◌+◌, ◌≤◌, length};
ghost use Rattle.std.proofs.lemmas.List.Edits.{sets};
ghost use Rattle.record.specs.Bytes.{stored};
ghost use Rattle.record.specs.Grid.{decode, encode, places};
ghost use Rattle.record.specs.Symbol.{symbol_bytes};

use crate::bytes;
use crate::symbol::Symbol;

// The fifteen fields in the order of their bytes. `form` is the field that the rules call type; a signed field stands
// as its bits.
#[derive(Clone, Copy)]
pub struct Row {
    pub kind: u8,
    pub form: u8,
    pub status: u8,
    pub flags: u8,
    pub party: u32,
    pub id: u64,
    pub symbol: Symbol,
    pub n1: u32,
    pub n2: u32,
    pub n3: u32,
    pub n4: u32,
    pub m1: u64,
    pub m2: u64,
    pub time: u32,
    pub n5: u32,
}

// The places of the fields, and the size of a record.
#[derive(Clone, Copy)]
pub struct Grid {}

impl Grid {
    pub const SIZE: usize = 64;

    pub const KIND: usize = 0;

    pub const FORM: usize = 1;

    pub const STATUS: usize = 2;

    pub const FLAGS: usize = 3;

    pub const PARTY: usize = 4;

    pub const ID: usize = 8;

    pub const SYMBOL: usize = 16;

    pub const N1: usize = 24;

    pub const N2: usize = 28;

    pub const N3: usize = 32;

    pub const N4: usize = 36;

    pub const M1: usize = 40;

    pub const M2: usize = 48;

    pub const TIME: usize = 56;

    pub const N5: usize = 60;
}

// How many records a run of bytes holds.
pub fn places(book: &[u8]) -> usize
    ensures { result ≡ places book.now }
{
    book.len() / Grid::SIZE
}

// The number x in `width` bytes at a place.
pub fn put(bytes: &mut [u8; Grid::SIZE], at: usize, width: usize, x: u64)
    requires { at + width ≤ 64 }
    ensures { bytes.new ≡ stored bytes.old at width x }
{
    let mut y = x;
    for i in 0..width {
        bytes[at + i] = (y % 256) as u8;
        y /= 256;
    }
}

// The bytes of a symbol, in their order.
fn put_symbol(bytes: &mut [u8; Grid::SIZE], x: Symbol)
    ensures { bytes.new ≡ sets bytes.old 16 (symbol_bytes x) }
{
    bytes[Grid::SYMBOL..Grid::SYMBOL + Symbol::LONG].copy_from_slice(&x.spelled());
}

impl Row {
    // The row of a record's bytes.
    #[tactic(auto, unfolding(crate::specs::Grid::decode))]
    pub fn read(part: &[u8]) -> Row
        requires { length part.now ≡ 64 }
        ensures { result ≡ decode part.now }
    {
        Row {
            kind: part[Grid::KIND],
            form: part[Grid::FORM],
            status: part[Grid::STATUS],
            flags: part[Grid::FLAGS],
            party: bytes::u32_at(part, Grid::PARTY),
            id: bytes::u64_at(part, Grid::ID),
            symbol: Symbol::at(part, Grid::SYMBOL),
            n1: bytes::u32_at(part, Grid::N1),
            n2: bytes::u32_at(part, Grid::N2),
            n3: bytes::u32_at(part, Grid::N3),
            n4: bytes::u32_at(part, Grid::N4),
            m1: bytes::u64_at(part, Grid::M1),
            m2: bytes::u64_at(part, Grid::M2),
            time: bytes::u32_at(part, Grid::TIME),
            n5: bytes::u32_at(part, Grid::N5),
        }
    }

    // The record of a row.
    pub fn bytes(self) -> [u8; Grid::SIZE]
        ensures { result ≡ encode self }
    {
        let mut a = [0u8; Grid::SIZE];
        put(&mut a, Grid::KIND, 1, u64::from(self.kind));
        put(&mut a, Grid::FORM, 1, u64::from(self.form));
        put(&mut a, Grid::STATUS, 1, u64::from(self.status));
        put(&mut a, Grid::FLAGS, 1, u64::from(self.flags));
        put(&mut a, Grid::PARTY, 4, u64::from(self.party));
        put(&mut a, Grid::ID, 8, self.id);
        put_symbol(&mut a, self.symbol);
        put(&mut a, Grid::N1, 4, u64::from(self.n1));
        put(&mut a, Grid::N2, 4, u64::from(self.n2));
        put(&mut a, Grid::N3, 4, u64::from(self.n3));
        put(&mut a, Grid::N4, 4, u64::from(self.n4));
        put(&mut a, Grid::M1, 8, self.m1);
        put(&mut a, Grid::M2, 8, self.m2);
        put(&mut a, Grid::TIME, 4, u64::from(self.time));
        put(&mut a, Grid::N5, 4, u64::from(self.n5));
        a
    }

    // The row written over a record.
    pub fn write(self, part: &mut [u8])
        requires { length part.old ≡ 64 }
        ensures { part.new ≡ encode self }
    {
        part.copy_from_slice(&self.bytes());
    }
}
