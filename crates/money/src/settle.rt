// The settlement of a trade, negated for a buy, and the balance after it.
ghost use Rattle.std.specs.Prelude.{cond, ◌≡◌, ◌*◌, ◌≤◌, eqb, ◌+ℤ◌, nat_abs, pos};
ghost use Rattle.record.specs.Signed.{up};
ghost use Rattle.units.specs.Units.{cents};
ghost use Rattle.rules.specs.Ranges.{charged, fee, money_most};
ghost use Rattle.model.specs.Money.{settlement_of};
ghost use Rattle.money.specs.Amounts.{UpTo, value_most};

use crate::sides::buys;
use units::{Amount, Cents};

// The tax that is taken: tax status 2 only records it.
fn withheld(tax_status: u8, tax: Cents) -> Cents
    requires { UpTo fee.high tax.0 }
    ensures value { result ≡ cents (pos (cond (eqb tax_status 1) (up tax.0) 0)) }
    ensures up_to { UpTo fee.high result.0 }
{
    if tax_status == 1 { tax } else { Cents(0) }
}

pub fn settlement(
    trade_type: u8,
    tax_status: u8,
    value: Cents,
    charge: Cents,
    commission: Cents,
    tax: Cents,
) -> Cents
    requires up_to { UpTo value_most value.0 × UpTo charged.high charge.0 }
    requires up_to_2 { UpTo fee.high commission.0 × UpTo fee.high tax.0 }
    ensures value { result ≡ cents (settlement_of trade_type tax_status (up value.0) (up charge.0)
        (up commission.0) (up tax.0)) }
    ensures result_bound { nat_abs result.0 ≤ money_most }
{
    let kept = withheld(tax_status, tax);
    if buys(trade_type) {
        let with_charge = value.plus(charge);
        let paid = with_charge.plus(commission);
        return paid.negated().less(kept);
    }
    let without_charge = value.less(charge);
    let received = without_charge.less(commission);
    received.less(kept)
}

// A cash trade adds its settlement.
pub fn balance(cash: bool, old: Cents, settlement: Cents) -> Cents
    requires { (nat_abs old.0 ≤ money_most) × (nat_abs settlement.0 ≤ money_most) }
    ensures value { result ≡ cents (cond cash (old.0 +ℤ settlement.0) old.0) }
    ensures result_bound { nat_abs result.0 ≤ 2 * money_most }
{
    if cash { old.plus(settlement) } else { old }
}
