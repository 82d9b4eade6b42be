// S1: every record is free or fits the grid, decided on the record's own bytes.
#![tactic(auto)]

ghost use Rattle.std.specs.Prelude.{◌≡◌, true, length};
ghost use Rattle.record.specs.Grid.{decode};
ghost use Rattle.record.specs.Spelling.{symbol_ok};
ghost use Rattle.rules.specs.Ranges.{ranges};
ghost use Rattle.rules.specs.Rules.{fits, obeys, shaped};

use kinds::limits::{Beyond, Limits};
use kinds::rows::{
    Account, Band, Broker, Cash, Charge, Customer, CustomerRate, Lot, LotHistory, Permission,
    Request, Security, Settlement, Summary, TaxRate, Trade, TradeHistory,
};
use record::codes::Kind;
use record::row::{Grid, Row};
use record::symbol::Symbol;
use rules::limited::in_limits;
use rules::obey::{Spelt, beyond};

// A record by the entry of its kind. The entry is a constant, and what it does not ask for falls away.
#[inline(always)]
fn fits_as(part: &[u8], limits: Limits, more: Beyond, known: Symbol) -> bool
    requires { (length part.now ≡ 64) × (symbol_ok known ≡ true) }
    ensures { result ≡ obeys (shaped (ranges limits) more) (decode part.now) }
{
    let r = Row::read(part);
    beyond(in_limits(r, limits), r, more, known)
}

// A record, wherever in the book it begins, is free or fits the grid; a symbol is at hand that is spelled right, and
// may well be the record's own.
pub fn fits_beside(part: &[u8], known: Symbol) -> bool
    requires { (length part.now ≡ 64) × (symbol_ok known ≡ true) }
    ensures { result ≡ fits (decode part.now) }
{
    match part[Grid::KIND] {
        Kind::FREE => fits_as(part, ranges::free(), Beyond::NOTHING, known),
        Kind::BROKER => fits_as(part, ranges::broker(), Broker::BEYOND, known),
        Kind::CUSTOMER => fits_as(part, ranges::customer(), Customer::BEYOND, known),
        Kind::TAX_RATE => fits_as(part, ranges::tax_rate(), TaxRate::BEYOND, known),
        Kind::CUSTOMER_RATE => fits_as(part, ranges::customer_rate(), CustomerRate::BEYOND, known),
        Kind::ACCOUNT => fits_as(part, ranges::account(), Account::BEYOND, known),
        Kind::SECURITY => fits_as(part, ranges::security(), Security::BEYOND, known),
        Kind::BAND => fits_as(part, ranges::band(), Band::BEYOND, known),
        Kind::CHARGE => fits_as(part, ranges::charge(), Charge::BEYOND, known),
        Kind::TRADE => fits_as(part, trade_ranges::trade(), Trade::BEYOND, known),
        Kind::REQUEST => fits_as(part, trade_ranges::request(), Request::BEYOND, known),
        Kind::TRADE_HISTORY => fits_as(
            part,
            trade_ranges::trade_history(),
            TradeHistory::BEYOND,
            known,
        ),
        Kind::LOT => fits_as(part, trade_ranges::lot(), Lot::BEYOND, known),
        Kind::SUMMARY => fits_as(part, trade_ranges::summary(), Summary::BEYOND, known),
        Kind::LOT_HISTORY => fits_as(part, trade_ranges::lot_history(), LotHistory::BEYOND, known),
        Kind::SETTLEMENT => fits_as(part, trade_ranges::settlement(), Settlement::BEYOND, known),
        Kind::CASH => fits_as(part, trade_ranges::cash(), Cash::BEYOND, known),
        Kind::PERMISSION => fits_as(part, ranges::permission(), Permission::BEYOND, known),
        _ => false,
    }
}

// The same where there is no such symbol.
pub fn fits(part: &[u8]) -> bool
    requires { length part.now ≡ 64 }
    ensures { result ≡ fits (decode part.now) }
{
    fits_beside(part, Spelt::A)
}
