// Shares on a trade's side of zero: bought above it, sold below.
ghost use Rattle.std.specs.Prelude.{◌≡◌, ◌+◌, ◌≤◌, ◌+ℤ◌, nat_abs, neg_ℤ};
ghost use Rattle.record.specs.Signed.{up};
ghost use Rattle.units.specs.Units.{shares, signed_most};
ghost use Rattle.rules.specs.Ranges.{shares_most};
ghost use Rattle.model.specs.Money.{buys};
ghost use Rattle.model.specs.Result.{signed};
ghost use Rattle.money.specs.Amounts.{UpTo};

use record::codes::TradeType;
use units::{Amount, Shares};

pub fn buys(trade_type: u8) -> bool
    ensures { result ≡ buys trade_type }
{
    (trade_type == TradeType::TMB) | (trade_type == TradeType::TLB)
}

// So many shares as a trade of this type leaves them, below zero for a sell.
pub fn traded(trade_type: u8, n: Shares) -> Shares
    requires { UpTo shares_most n.0 }
    ensures value { result ≡ shares (signed trade_type (up n.0)) }
    ensures result_value { nat_abs result.0 ≡ up n.0 }
{
    if buys(trade_type) { n } else { n.negated() }
}

// So many shares of a lot that a trade of this type closes: they lie on the other side.
pub fn remaining(trade_type: u8, n: Shares) -> Shares
    requires { UpTo shares_most n.0 }
    ensures value { result ≡ shares (neg_ℤ (signed trade_type (up n.0))) }
    ensures result_value { nat_abs result.0 ≡ up n.0 }
{
    traded(trade_type, n).negated()
}

// The shares of a summary after a trade.
pub fn summed(trade_type: u8, old: Shares, n: Shares) -> Shares
    requires up_to { UpTo shares_most n.0 }
    requires n_bound { nat_abs old.0 + up n.0 ≤ signed_most }
    ensures value { result ≡ shares (old.0 +ℤ signed trade_type (up n.0)) }
    ensures result_bound { nat_abs result.0 ≤ nat_abs old.0 + up n.0 }
{
    old.plus(traded(trade_type, n))
}
