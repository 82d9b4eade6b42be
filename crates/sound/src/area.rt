// The areas of a check by the size of the book, so that a small book does not pay for clearing large ones: the cells of
// its directory, its places chained by kind, and the marks of its trades.
ghost use Rattle.sound.specs.Area.{Holds};

use by_kind::chain::Links;
use hanging::Marks;
use kinds::limits::Ranges;

#[derive(Clone, Copy)]
pub struct Small {}

impl Small {
    pub const RECORDS: usize = 127;

    pub const CELLS: usize = 512;

    pub const LINKS: usize = Links::HEADS + Small::RECORDS;

    pub const MARKS: usize = Marks::EACH * Small::RECORDS;
}

#[derive(Clone, Copy)]
pub struct Middle {}

impl Middle {
    pub const RECORDS: usize = 1_023;

    pub const CELLS: usize = 4_096;

    pub const LINKS: usize = Links::HEADS + Middle::RECORDS;

    pub const MARKS: usize = Marks::EACH * Middle::RECORDS;
}

// As many records as any book has.
#[derive(Clone, Copy)]
pub struct Large {}

impl Large {
    pub const RECORDS: usize = Ranges::RECORDS;

    pub const CELLS: usize = 32_768;

    pub const LINKS: usize = Links::HEADS + Large::RECORDS;

    pub const MARKS: usize = Marks::EACH * Large::RECORDS;
}

// The size of a book.
#[derive(Clone, Copy)]
pub enum Size {
    Small,
    Middle,
    Large,
}

impl Size {
    pub fn of(records: usize) -> Size
        ensures { Holds result records }
    {
        if records <= Small::RECORDS {
            return Size::Small;
        }
        if records <= Middle::RECORDS {
            return Size::Middle;
        }
        Size::Large
    }
}
