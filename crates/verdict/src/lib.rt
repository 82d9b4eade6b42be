// What a result is refused for, in the order of checking.
#![tactic(auto)]

ghost use Rattle.std.specs.Prelude.{◌≡◌, ◌≤◌, leb, nat_abs};
ghost use Rattle.record.specs.Signed.{up};
ghost use Rattle.rules.specs.Ranges.{fee, money_most};
ghost use Rattle.model.specs.Rows.{most_records};
ghost use Rattle.reply.specs.Ending.{Refuses, ended};
ghost use Rattle.verdict.specs.Judge.{in_range, judgment, own_rows, rows_added};

use figures::{Figures, is_cash};
use kinds::limits::Ranges;
use kinds::rows::Broker;
use model::Status;
use reading::terms::Terms;
use record::codes::TradeStatus;
use reply::{check, rated};
use units::{Amount, Cents, Shares};

// The most trades and the highest commission total of a broker.
#[derive(Clone, Copy)]
struct Most {}

impl Most {
    const TRADES: u32 = Broker::LIMITS.n1.1;

    const TOTAL: u64 = Broker::LIMITS.m1.1;
}

#[tactic(auto, using(crate::specs::Judge::near_is, record::specs::Signed::got64))]
fn near(balance: Cents) -> bool
    ensures { result ≡ leb (nat_abs balance.0) money_most }
{
    balance.size() <= Ranges::MONEY_MOST
}

// The balance, the broker's trades and its commission total stay in their ranges.
fn in_range(broker: Broker, balance: Cents, commission: Cents) -> bool
    requires { up commission.0 ≤ fee.high }
    ensures { result ≡ in_range broker balance commission }
{
    let total = broker.commission;
    let most = Most::TOTAL - commission.plain();
    near(balance) & (broker.trades < Most::TRADES) & (total.plain() <= most)
}

// The rows that a result adds beside those of its lots: two for shares left over, a new summary, the trade's history,
// its settlement, and cash for a cash trade.
fn own_rows(left: Shares, held: bool, flags: u8) -> usize
    ensures { (result ≡ own_rows left held flags) × (result ≤ 8) }
{
    let opened = if left.plain() == 0 { 0 } else { 2 };
    opened + usize::from(!held) + 2 + usize::from(is_cash(flags))
}

fn rows_added(terms: Terms, figures: Figures) -> usize
    requires { figures.walk.closed ≤ most_records }
    ensures { result ≡ rows_added terms figures }
{
    let walk = figures.walk;
    walk.closed + own_rows(walk.need, terms.held, terms.trade.flags)
}

// The checks of the rules, one after the other, in a book with so many free places.
#[tactic(auto, using(reply::specs::Ending::stays), unfolding(crate::specs::Judge::judgment))]
pub fn judge(free: usize, terms: Terms, figures: Figures) -> Result<(), Status>
    requires { (up figures.commission.0 ≤ fee.high) × (figures.walk.closed ≤ most_records) }
    ensures value { ended result ≡ judgment terms figures free }
    ensures refusal { Refuses result }
{
    check(terms.known, Status::ResultNoTrade)?;
    check(
        terms.trade.status == TradeStatus::SUBMITTED,
        Status::ResultNotSubmitted,
    )?;
    check(!figures.untaxed, Status::ResultNoTax)?;
    rated(terms.band, Status::ResultNoRate, Status::ResultNoBand)?;
    check(
        in_range(terms.broker, figures.balance, figures.commission),
        Status::OverLimit,
    )?;
    check(rows_added(terms, figures) <= free, Status::NoRoom)
}
