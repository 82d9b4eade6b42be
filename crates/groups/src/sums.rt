// Counts and sums over the rows of one group.
ghost use Rattle.std.specs.Prelude.{◌≡◌, false, true, ◌+◌, ◌^◌, ◌≤◌, ◌<◌, leb};
ghost use Rattle.laws.specs.Search.{bit, count};
ghost use Rattle.rules.specs.Ranges.{tax_part};
ghost use Rattle.rules.specs.Rules.{fits};
ghost use Rattle.model.specs.Rows.{places, rows};
ghost use Rattle.model.specs.Sound.{lot_of, overlaps, rate_of, rates_of, s1};
ghost use Rattle.places.specs.Rows.{row_at};
ghost use Rattle.directory.specs.Listed.{Listed};
ghost use Rattle.groups.specs.Sums.{AddsSide, HoldsSide, meet, meets};

use crate::lots::in_holding;
use chains::chain::next;
use chains::group;
use directory::typed::tax_rate;
use kinds::limits::Ranges;
use kinds::rows::{Band, CustomerRate, Lot, TaxRate};
use kinds::typed::Typed;
use places::place::{part, typed_at};
use record::codes::Kind;
use record::row::Grid;
use record::symbol::Symbol;
use units::{AccountNo, Amount, CustomerNo, PerHundredThousand, Shares};

// Two bands have shares in common.
fn overlap(a: Band, b: Band) -> bool
    ensures { result ≡ meet a b }
{
    (a.trade_type == b.trade_type)
        & (a.tier == b.tier)
        & (a.exchange == b.exchange)
        & (a.from.plain() <= b.to.plain())
        & (b.from.plain() <= a.to.plain())
}

// The record at a place is a band that overlaps this one.
fn overlaps(book: &[u8], band: Band, at: usize) -> bool
    requires { at < places book.now }
    ensures { result ≡ meets band (row_at book.now at) }
{
    let record = part(book, at);
    (record[Grid::KIND] == Kind::BAND) & overlap(band, Band::from_bytes(record))
}

// How many bands overlap the one at a place, itself among them.
pub fn overlapping(book: &[u8], dir: &[u16], i: usize) -> usize
    requires { Listed book.now dir.now × (i < places book.now) }
    ensures { result ≡ count (overlaps (row_at book.now i)) (rows book.now) }
{
    let n = book.len() / Grid::SIZE;
    let band = Band::from_bytes(part(book, i));
    let mut sum = 0;
    let bands = group::bands_of(band.trade_type, band.tier, band.exchange);
    let mut c = group::first(dir, bands);
    while c < n {
        sum += usize::from(overlaps(book, band, c));
        c = next(dir, c);
    }
    sum
}

// A sum of tax rates, which may be more than any rate is.
#[derive(Clone, Copy)]
pub struct RateSum(u64);

impl RateSum {
    fn plus(self, more: PerHundredThousand) -> RateSum
        requires { self.0 + more.0 < 2 ^ 64 }
        ensures { result.0 ≡ self.0 + more.0 }
    {
        RateSum(self.0 + u64::from(more.0))
    }

    // At most 100 percent.
    pub fn fit(self) -> bool
        ensures { result ≡ leb self.0 tax_part.high }
    {
        self.0 <= Ranges::RATE_MOST as u64
    }

    // The sum as a rate, where it is one.
    fn rate(self) -> PerHundredThousand
        requires { self.0 ≤ tax_part.high }
        ensures { result.0 ≡ self.0 }
    {
        PerHundredThousand(self.0 as u32)
    }
}

// What the record at a place adds to a customer's rates.
fn rate(book: &[u8], dir: &[u16], customer: CustomerNo, at: usize) -> PerHundredThousand
    requires { Listed book.now dir.now × (at < places book.now) }
    ensures { result.0 ≡ rate_of (rows book.now) customer.0 (row_at book.now at) }
{
    let record = part(book, at);
    let named = CustomerRate::from_bytes(record);
    if (record[Grid::KIND] == Kind::CUSTOMER_RATE) & (named.customer.0 == customer.0) {
        return typed_at::<TaxRate>(book, tax_rate(book, dir, named.rate)).rate;
    }
    PerHundredThousand(0)
}

// The sum of a customer's rates.
pub fn rates(book: &[u8], dir: &[u16], customer: CustomerNo) -> RateSum
    requires { Listed book.now dir.now }
    ensures { result.0 ≡ rates_of (rows book.now) customer.0 }
{
    let n = book.len() / Grid::SIZE;
    let mut sum = RateSum(0);
    let named = group::rates_of(customer);
    let mut c = group::first(dir, named);
    while c < n {
        sum = sum.plus(rate(book, dir, customer, c));
        c = next(dir, c);
    }
    sum
}

// The same as a rate, where it is one: at most 100 percent, as in a sound book.
pub fn tax_rates(book: &[u8], dir: &[u16], customer: CustomerNo) -> PerHundredThousand
    requires listed { Listed book.now dir.now }
    requires customer_bound { rates_of (rows book.now) customer.0 ≤ tax_part.high }
    ensures { result.0 ≡ rates_of (rows book.now) customer.0 }
{
    rates(book, dir, customer).rate()
}

// A holding: how many lots, and the shares held and owed.
#[derive(Clone, Copy)]
pub struct Held {
    pub lots: usize,
    pub long: Shares,
    pub owed: Shares,
}

// What the record at a place adds to a holding.
fn added(book: &[u8], account: AccountNo, symbol: Symbol, at: usize) -> Held
    requires { (at < places book.now) × (fits (row_at book.now at) ≡ true) }
    ensures lots_value { (result.lots ≡ bit (lot_of account.0 symbol (row_at book.now at))) × (result.lots ≤ 1) }
    ensures adds_side { AddsSide false account.0 symbol (row_at book.now at) result.long }
    ensures adds_side_2 { AddsSide true account.0 symbol (row_at book.now at) result.owed }
{
    let record = part(book, at);
    let lot = Lot::from_bytes(record);
    if (record[Grid::KIND] == Kind::LOT) & in_holding(account, symbol, lot) {
        let shares = lot.shares;
        if shares.0 < 0 {
            return Held {
                lots: 1,
                long: Shares(0),
                owed: shares.negated(),
            };
        }
        return Held {
            lots: 1,
            long: shares,
            owed: Shares(0),
        };
    }
    Held {
        lots: 0,
        long: Shares(0),
        owed: Shares(0),
    }
}

pub fn holding(book: &[u8], dir: &[u16], account: AccountNo, symbol: Symbol) -> Held
    requires listed { Listed book.now dir.now }
    requires book_value { s1 (rows book.now) ≡ true }
    ensures lots_value { result.lots ≡ count (lot_of account.0 symbol) (rows book.now) }
    ensures holds_side { HoldsSide false account.0 symbol (rows book.now) result.long }
    ensures holds_side_2 { HoldsSide true account.0 symbol (rows book.now) result.owed }
{
    let n = book.len() / Grid::SIZE;
    let mut many = 0;
    let mut long = Shares(0);
    let mut owed = Shares(0);
    let lots = group::lots_of(account, symbol);
    let mut at = group::first(dir, lots);
    while at < n {
        let more = added(book, account, symbol, at);
        many += more.lots;
        long = long.plus(more.long);
        owed = owed.plus(more.owed);
        at = next(dir, at);
    }
    Held {
        lots: many,
        long,
        owed,
    }
}
