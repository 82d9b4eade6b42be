// What an order is refused for, in the order of checking.
ghost use Rattle.std.specs.Prelude.{◌≡◌};
ghost use Rattle.model.specs.Plan.{verdict};
ghost use Rattle.reply.specs.Ending.{Refuses, ended};
ghost use Rattle.estimate.specs.Judge.{judged, own_checks, rows_added};

use crate::figures::Estimate;
use crate::terms::Terms;
use directory::totals::Totals;
use kinds::inputs::OrderInput;
use kinds::limits::Ranges;
use model::Status;
use record::codes::TradeType;
use reply::{check, rated};
use units::Amount;

// The rows that an order adds: a trade and its history, and a request for types 3 to 5.
#[tactic(auto, using(crate::specs::Judge::two_added, crate::specs::Judge::three_added))]
fn rows_added(input: OrderInput) -> usize
    ensures { result ≡ rows_added input }
{
    if input.trade_type <= TradeType::TMS {
        2
    } else {
        3
    }
}

// The checks of an order alone.
#[tactic(auto, using(reply::specs::Ending::stays), unfolding(model::specs::Plan::verdict, laws::specs::Search::run))]
fn own_checks(terms: Terms, estimate: Estimate) -> Result<(), Status>
    ensures value { ended result ≡ verdict (own_checks terms estimate) }
    ensures refusal { Refuses result }
{
    check(terms.holder.known, Status::OrderNoAccount)?;
    check(terms.permitted, Status::OrderNotPermitted)?;
    check(terms.paper.known, Status::OrderNoSecurity)?;
    check(!estimate.untaxed, Status::OrderNoTax)?;
    rated(terms.band, Status::OrderNoRate, Status::OrderNoBand)?;
    check(1 <= terms.charge.plain(), Status::OrderNoCharge)
}

// The checks of the rules, one after the other.
#[tactic(auto, using(reply::specs::Ending::stays), unfolding(crate::specs::Judge::judged))]
pub fn judge(t: Totals, input: OrderInput, terms: Terms, estimate: Estimate) -> Result<(), Status>
    ensures value { ended result ≡ judged t.free input terms estimate }
    ensures refusal { Refuses result }
{
    own_checks(terms, estimate)?;
    check(terms.number.0 <= Ranges::TRADE_NO.1, Status::OverLimit)?;
    check(rows_added(input) <= t.free, Status::NoRoom)
}
