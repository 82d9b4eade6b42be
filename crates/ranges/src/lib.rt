// The ranges of the fields of each kind that stands whether or not there is trade: the constant of the kind, met with
// the table of the model. A function for each kind: an impl of a trait that names the kind's line of the table is longer.
#![tactic(auto)]

ghost use Rattle.std.specs.Prelude.{◌≡◌};
ghost use Rattle.rules.specs.Ranges.{ranges};
ghost use Rattle.rules.specs.Rules.{account_limits, band_limits, broker_limits, charge_limits, customer_limits};
ghost use Rattle.rules.specs.Rules.{customer_rate_limits, free_limits, permission_limits, security_limits, tax_rate_limits};

use kinds::limits::Limits;
use kinds::rows::{
    Account, Band, Broker, Charge, Customer, CustomerRate, Permission, Security, TaxRate,
};

pub fn free() -> Limits
    ensures { ranges result ≡ free_limits }
{
    Limits::NONE
}

pub fn broker() -> Limits
    ensures { ranges result ≡ broker_limits }
{
    Broker::LIMITS
}

pub fn customer() -> Limits
    ensures { ranges result ≡ customer_limits }
{
    Customer::LIMITS
}

pub fn tax_rate() -> Limits
    ensures { ranges result ≡ tax_rate_limits }
{
    TaxRate::LIMITS
}

pub fn customer_rate() -> Limits
    ensures { ranges result ≡ customer_rate_limits }
{
    CustomerRate::LIMITS
}

pub fn account() -> Limits
    ensures { ranges result ≡ account_limits }
{
    Account::LIMITS
}

pub fn security() -> Limits
    ensures { ranges result ≡ security_limits }
{
    Security::LIMITS
}

pub fn band() -> Limits
    ensures { ranges result ≡ band_limits }
{
    Band::LIMITS
}

pub fn charge() -> Limits
    ensures { ranges result ≡ charge_limits }
{
    Charge::LIMITS
}

pub fn permission() -> Limits
    ensures { ranges result ≡ permission_limits }
{
    Permission::LIMITS
}
