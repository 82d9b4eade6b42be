// The value of shares at a price, and what is paid on it: tax and commission, rounded to the nearest cent, halves up.
// Each lies within half a cent of the exact fraction, by `tax_near` and `commission_near` of the model.
ghost use Rattle.std.specs.Prelude.{◌≡◌, ◌*◌, ◌≤◌, pos};
ghost use Rattle.record.specs.Signed.{up};
ghost use Rattle.units.specs.Units.{cents};
ghost use Rattle.rules.specs.Ranges.{commission_part, fee, price_most, shares_most, tax_part};
ghost use Rattle.model.specs.Band.{commission_rate};
ghost use Rattle.model.specs.Money.{commission_of, tax_of, taxable, untaxed};
ghost use Rattle.money.specs.Amounts.{UpTo, value_most};

use crate::parts::{part, times};
use kinds::limits::Ranges;
use model::BandAnswer;
use units::{Amount, Cents, PerHundredThousand, PerTenThousand, Price, Shares};

pub fn value(shares: Shares, price: Price) -> Cents
    requires { (up shares.0 ≤ shares_most) × (price.0 ≤ price_most) }
    ensures value { result ≡ cents (pos (up shares.0 * price.0)) }
    ensures up_to { UpTo value_most result.0 }
{
    Cents::of(times(shares.plain(), u64::from(price.0)))
}

fn taxable(tax_status: u8, bought: Cents, sold: Cents) -> bool
    ensures { result ≡ taxable tax_status (up bought.0) (up sold.0) }
{
    (1 <= tax_status) & (bought.plain() < sold.plain())
}

// The tax on a gain, only for tax status 1 or 2.
pub fn tax(tax_status: u8, rates: PerHundredThousand, bought: Cents, sold: Cents) -> Cents
    requires { (rates.0 ≤ tax_part.high) × (up sold.0 ≤ value_most) }
    ensures value { result ≡ cents (pos (tax_of tax_status rates.0 (up bought.0) (up sold.0))) }
    ensures up_to { UpTo fee.high result.0 }
{
    if taxable(tax_status, bought, sold) {
        let gain = sold.plain() - bought.plain();
        return part(gain, u64::from(rates.0), u64::from(Ranges::RATE_MOST));
    }
    Cents(0)
}

// There is a gain that is to be taxed, yet the customer's rates sum to 0. A tax may well round to 0.
pub fn untaxed(tax_status: u8, rates: PerHundredThousand, bought: Cents, sold: Cents) -> bool
    ensures { result ≡ untaxed tax_status rates.0 (up bought.0) (up sold.0) }
{
    taxable(tax_status, bought, sold) & (rates.0 == 0)
}

// The rate that a commission goes by: a trade that has none is refused, so none is charged.
pub fn commission_rate(band: BandAnswer) -> PerTenThousand
    ensures { result.0 ≡ commission_rate band }
{
    match band {
        BandAnswer::Rate(rate) => rate,
        BandAnswer::ZeroRate => PerTenThousand(0),
        BandAnswer::NoBand => PerTenThousand(0),
    }
}

pub fn commission(rate: PerTenThousand, shares: Shares, price: Price) -> Cents
    requires { (rate.0 ≤ commission_part.high) × (up shares.0 ≤ shares_most) × (price.0 ≤ price_most) }
    ensures value { result ≡ cents (pos (commission_of rate.0 (up shares.0) price.0)) }
    ensures up_to { UpTo fee.high result.0 }
{
    let value = value(shares, price);
    part(
        value.plain(),
        u64::from(rate.0),
        u64::from(Ranges::COMMISSION_MOST),
    )
}
