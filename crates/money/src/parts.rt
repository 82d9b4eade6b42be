// The part of an amount that a rate gives, to the nearest cent, halves up: from whole part and remainder, so that every
// number on the way is below 2^62 and a debugger that takes it for a signed one shows it as it is. `plus` and `times` ask
// for that, and the fees have no other sum or product. `Steps` of the specs has the names and the bounds.
ghost use Rattle.std.specs.Prelude.{◌≡◌, ◌+◌, ◌*◌, ◌/◌, ◌^◌, ◌<◌, ◌≤◌, pos};
ghost use Rattle.units.specs.Units.{cents};
ghost use Rattle.rules.specs.Ranges.{fee, tax_whole};
ghost use Rattle.model.specs.Money.{rounded};
ghost use Rattle.money.specs.Amounts.{UpTo, value_most};

use units::{Amount, Cents};

pub fn plus(a: u64, b: u64) -> u64
    requires { a + b < 2 ^ 62 }
    ensures { result ≡ a + b }
{
    a + b
}

pub fn times(a: u64, b: u64) -> u64
    requires { a * b < 2 ^ 62 }
    ensures { result ≡ a * b }
{
    a * b
}

// So much of the amount as the rate is of its whole, an even number.
pub fn part(amount: u64, rate: u64, whole: u64) -> Cents
    requires amount_le_value_most { (amount ≤ value_most) × (rate ≤ whole) }
    requires whole_nonzero { (0 < whole) × (whole ≡ 2 * (whole / 2)) × (whole ≤ tax_whole) }
    ensures value { result ≡ cents (pos (rounded (amount * rate) whole)) }
    ensures up_to { UpTo fee.high result.0 }
{
    let quotient = amount / whole;
    let remainder = amount % whole;
    let from_quotient = times(quotient, rate);
    let product = times(remainder, rate);
    let raised = plus(product, whole / 2);
    let from_remainder = raised / whole;
    Cents::of(plus(from_quotient, from_remainder))
}
