// The search for the commission band of so many shares: a rate, a band with rate zero, or no band.
ghost use Rattle.std.specs.Prelude.{◌≡◌, ◌<◌};
ghost use Rattle.laws.specs.Search.{place};
ghost use Rattle.record.specs.Signed.{up};
ghost use Rattle.model.specs.Band.{band_answer, band_for, rated};
ghost use Rattle.model.specs.Names.{a_customer};
ghost use Rattle.model.specs.Rows.{found, places, rows};
ghost use Rattle.places.specs.Rows.{row_at};
ghost use Rattle.directory.specs.Listed.{Listed};

use chains::chain::next;
use chains::group;
use directory::build::places;
use directory::typed::customer;
use kinds::rows::{Band, Customer};
use kinds::typed::Typed;
use model::BandAnswer;
use places::place::{part, typed_at};
use record::codes::Kind;
use record::row::Grid;
use units::{Amount, CustomerNo, PerTenThousand, Shares};

// The tier of a customer, 0 where there is no such customer: a band is of a type, a tier and an exchange.
pub fn tier(book: &[u8], dir: &[u16], no: CustomerNo) -> u8
    requires { Listed book.now dir.now }
    ensures { result ≡ (found (a_customer no.0) (rows book.now)).form }
{
    typed_at::<Customer>(book, customer(book, dir, no)).tier
}

// The record at a place is the band that holds the shares.
fn holds(book: &[u8], form: u8, tier: u8, exchange: u8, shares: Shares, at: usize) -> bool
    requires { at < places book.now }
    ensures { result ≡ band_for form tier exchange (up shares.0) (row_at book.now at) }
{
    let record = part(book, at);
    let band = Band::from_bytes(record);
    let many = shares.plain();
    (record[Grid::KIND] == Kind::BAND)
        & (band.trade_type == form)
        & (band.tier == tier)
        & (band.exchange == exchange)
        & (band.from.plain() <= many)
        & (many <= band.to.plain())
}

// The place of the band that holds the shares, the number of places where there is none.
fn band(book: &[u8], dir: &[u16], form: u8, tier: u8, exchange: u8, shares: Shares) -> usize
    requires { Listed book.now dir.now }
    ensures { result ≡ place (band_for form tier exchange (up shares.0)) (rows book.now) }
{
    let n = book.len() / Grid::SIZE;
    let bands = group::bands_of(form, tier, exchange);
    let mut c = group::first(dir, bands);
    while c < n {
        if holds(book, form, tier, exchange, shares, c) {
            return c;
        }
        c = next(dir, c);
    }
    c
}

// What a band of this rate answers.
fn rated(rate: PerTenThousand) -> BandAnswer
    ensures { result ≡ rated rate.0 }
{
    if rate.0 == 0 {
        return BandAnswer::ZeroRate;
    }
    BandAnswer::Rate(rate)
}

// What the band that holds the shares answers, or that there is none.
pub fn search(
    book: &[u8],
    dir: &[u16],
    form: u8,
    tier: u8,
    exchange: u8,
    shares: Shares,
) -> BandAnswer
    requires { Listed book.now dir.now }
    ensures { result ≡ band_answer (rows book.now) form tier exchange (up shares.0) }
{
    let at = band(book, dir, form, tier, exchange, shares);
    if at < places(book) {
        return rated(typed_at::<Band>(book, at).rate);
    }
    BandAnswer::NoBand
}
