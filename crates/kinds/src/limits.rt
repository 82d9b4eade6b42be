// What a kind says of its rows: a range for each field, unused fields at zero; the rules that are no range; and the
// fields that make the key. Every number of the rules stands here or with its kind, once.

// The lowest number and the highest.
#[derive(Clone, Copy)]
pub struct Span<T>(pub T, pub T);

// A range for each field of a row.
#[derive(Clone, Copy)]
pub struct Limits {
    pub kind: Span<u8>,
    pub form: Span<u8>,
    pub status: Span<u8>,
    pub flags: Span<u8>,
    pub party: Span<u32>,
    pub id: Span<u64>,
    pub symbol: Span<u64>,
    pub n1: Span<u32>,
    pub n2: Span<u32>,
    pub n3: Span<u32>,
    pub n4: Span<u32>,
    pub m1: Span<u64>,
    pub m2: Span<u64>,
    pub time: Span<u32>,
    pub n5: Span<u32>,
}

impl Limits {
    // Unused fields are zero. So are all of a free record's.
    pub const NONE: Limits = Limits {
        kind: Span(0, 0),
        form: Span(0, 0),
        status: Span(0, 0),
        flags: Span(0, 0),
        party: Span(0, 0),
        id: Span(0, 0),
        symbol: Span(0, 0),
        n1: Span(0, 0),
        n2: Span(0, 0),
        n3: Span(0, 0),
        n4: Span(0, 0),
        m1: Span(0, 0),
        m2: Span(0, 0),
        time: Span(0, 0),
        n5: Span(0, 0),
    };
}

// A rule that compares fields.
#[derive(Clone, Copy)]
pub enum Clause {
    Nothing,
    // A band's from is at most its to.
    FromTo,
    // A trade has its price exactly when it is completed, and a tax only then.
    Completed,
    // A lot and a summary are of some shares.
    NotZero,
    // A lot history's before and after differ.
    Unequal,
    // An order at the market has no bid, and every other has one.
    Market,
}

// What a kind asks that is no range.
#[derive(Clone, Copy)]
pub struct Beyond {
    // How far from zero the signed number m1 may be; zero where that is not asked.
    pub m1: u64,
    // The same of n1 and n2.
    pub n1n2: u32,
    // Whether there is a symbol.
    pub symbol: bool,
    pub clause: Clause,
}

impl Beyond {
    pub const NOTHING: Beyond = Beyond {
        m1: 0,
        n1n2: 0,
        symbol: false,
        clause: Clause::Nothing,
    };
}

// The rule of a kind of input.
#[derive(Clone, Copy)]
pub struct Rule {
    pub limits: Limits,
    pub beyond: Beyond,
}

// The fields that make a key.
#[derive(Clone, Copy)]
pub struct Marks {
    pub form: bool,
    pub status: bool,
    pub flags: bool,
    pub party: bool,
    pub id: bool,
    pub symbol: bool,
    pub n1: bool,
    pub m2: bool,
}

impl Marks {
    pub const NONE: Marks = Marks {
        form: false,
        status: false,
        flags: false,
        party: false,
        id: false,
        symbol: false,
        n1: false,
        m2: false,
    };

    // A party, a rate: most of what stands without trade.
    pub const PARTY: Marks = Marks {
        party: true,
        ..Marks::NONE
    };

    // A trade, and what it leaves.
    pub const ID: Marks = Marks {
        id: true,
        ..Marks::NONE
    };
}

// The ranges that several kinds share.
#[derive(Clone, Copy)]
pub struct Ranges {}

impl Ranges {
    // A field whose rule is no range: a symbol, or a signed number.
    pub const ANY32: Span<u32> = Span(0, 0xffff_ffff);

    pub const ANY64: Span<u64> = Span(0, 0xffff_ffff_ffff_ffff);
    // A number that names a party or a rate.
    pub const NUMBER_MOST: u32 = 999_999_999;

    pub const NUMBER: Span<u32> = Span(1, Ranges::NUMBER_MOST);

    pub const TRADE_NO: Span<u64> = Span(1, 999_999_999_999_999);

    pub const PRICE_MOST: u32 = 99_999_999;

    pub const PRICE: Span<u32> = Span(1, Ranges::PRICE_MOST);

    pub const SHARES_MOST: u32 = 999_999;

    // A tax rate of 100 percent, and the most that a customer's rates may sum to.
    pub const RATE_MOST: u32 = 100_000;

    // A commission rate of 100 percent.
    pub const COMMISSION_MOST: u32 = 10_000;

    pub const SHARES: Span<u32> = Span(1, Ranges::SHARES_MOST);

    // Seconds from 2000-01-01.
    pub const TIME_MOST: u32 = 4_000_000_000;

    pub const TIME: Span<u32> = Span(0, Ranges::TIME_MOST);

    // From a trade to its settlement.
    pub const SETTLEMENT_SECONDS: u32 = 172_800;

    pub const TRADE_TYPE: Span<u8> = Span(1, 5);

    pub const STATUS: Span<u8> = Span(1, 3);

    pub const TIER: Span<u8> = Span(1, 3);

    pub const EXCHANGE: Span<u8> = Span(1, 4);

    pub const CHARGE: Span<u32> = Span(0, 999_999);
    // A trade's commission, and its tax.
    pub const FEE: Span<u64> = Span(0, 100_000_000_000_000);

    pub const VOLUME_MOST: u64 = 999_999_999_999;
    // A balance, a settlement and a cash row's amount, either way from zero.
    pub const MONEY_MOST: u64 = 999_999_999_999_999;

    // The most records of a book, and of an input.
    pub const RECORDS: usize = 4_096;

    pub const INPUTS: usize = 20;
}
