// The ranges of the fields of each kind that trade leaves: the constant of the kind, met with the table of the model.
// A function for each kind: an impl of a trait that names the kind's line of the table is longer.
#![tactic(auto)]

ghost use Rattle.std.specs.Prelude.{◌≡◌};
ghost use Rattle.rules.specs.Ranges.{ranges};
ghost use Rattle.rules.specs.Rules.{cash_limits, lot_history_limits, lot_limits, request_limits, settlement_limits};
ghost use Rattle.rules.specs.Rules.{summary_limits, trade_history_limits, trade_limits};

use kinds::limits::Limits;
use kinds::rows::{Cash, Lot, LotHistory, Request, Settlement, Summary, Trade, TradeHistory};

pub fn trade() -> Limits
    ensures { ranges result ≡ trade_limits }
{
    Trade::LIMITS
}

pub fn request() -> Limits
    ensures { ranges result ≡ request_limits }
{
    Request::LIMITS
}

pub fn trade_history() -> Limits
    ensures { ranges result ≡ trade_history_limits }
{
    TradeHistory::LIMITS
}

pub fn lot() -> Limits
    ensures { ranges result ≡ lot_limits }
{
    Lot::LIMITS
}

pub fn summary() -> Limits
    ensures { ranges result ≡ summary_limits }
{
    Summary::LIMITS
}

pub fn lot_history() -> Limits
    ensures { ranges result ≡ lot_history_limits }
{
    LotHistory::LIMITS
}

pub fn settlement() -> Limits
    ensures { ranges result ≡ settlement_limits }
{
    Settlement::LIMITS
}

pub fn cash() -> Limits
    ensures { ranges result ≡ cash_limits }
{
    Cash::LIMITS
}
