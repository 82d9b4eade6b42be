// How a call ends: the first check that fails, the number of its status, and the answer of a refusal.
#![tactic(auto)]

ghost use Rattle.std.specs.Prelude.{◌≡◌, true, false, not, ◌≤◌, length, MatchResult};
ghost use Rattle.model.specs.Band.{no_band as has_no_band, zero_rate};
ghost use Rattle.model.specs.Status.{is_done, number};
ghost use Rattle.model.specs.Call.{refusal_area};
ghost use Rattle.model.specs.Rows.{record_size};
ghost use Rattle.model.specs.Plan.{also};
ghost use Rattle.reply.specs.Ending.{Refuses, ended};
ghost use Rattle.reply.specs.Refusal.{refusal};

use model::{BandAnswer, Status};
use places::place::nothing;
use places::put::put;
use record::row::Row;

// The number of a status. `From` could be implemented only beside `Status`, in `model`, where nothing runs.
pub fn code(s: Status) -> i32
    ensures { result ≡ number s }
{
    match s {
        Status::Done => 0,
        Status::BadLength => -100,
        Status::BadBook => -101,
        Status::Unsound => -102,
        Status::BadInput => -103,
        Status::OverLimit => -104,
        Status::NoRoom => -105,
        Status::OrderNoAccount => -711,
        Status::OrderNotPermitted => -721,
        Status::OrderNoSecurity => -712,
        Status::OrderNoTax => -731,
        Status::OrderNoRate => -732,
        Status::OrderNoBand => -735,
        Status::OrderNoCharge => -733,
        Status::ResultNoTrade => -811,
        Status::ResultNotSubmitted => -812,
        Status::ResultNoTax => -831,
        Status::ResultNoRate => -841,
        Status::ResultNoBand => -842,
        Status::FeedNoSecurity => -311,
        Status::LookupNoTrade => -611,
    }
}

// The row that has the status and nothing else.
#[tactic(auto, using(facts::specs::Status::number_back), unfolding(crate::specs::Refusal::refusal))]
fn refusal(s: Status) -> Row
    ensures { result ≡ refusal s }
{
    let mut row = nothing();
    row.n5 = code(s).cast_unsigned();
    row
}

#[tactic(auto, using(crate::specs::Refusal::refusal_put))]
fn refuse(area: &mut [u8], s: Status)
    requires { record_size ≤ length area.old }
    ensures { area.new ≡ refusal_area (length area.old) s }
{
    area.fill(0);
    put(area, 0, refusal(s));
}

// One check of a call, which refuses it where it fails.
#[tactic(auto, unfolding(model::specs::Plan::also))]
pub fn check(passes: bool, otherwise: Status) -> Result<(), Status>
    ensures value { ended result ≡ also Status.Done passes otherwise }
    ensures refusal { is_done otherwise ≡ false → Refuses result }
    ensures cases { MatchResult result (λ _. passes ≡ true) (λ s. (passes ≡ false) × (s ≡ otherwise)) }
{
    if passes { Ok(()) } else { Err(otherwise) }
}

// What the search for a band answered: a rate of zero and no band each refuse with their own status.
#[tactic(auto, unfolding(model::specs::Plan::also))]
pub fn rated(band: BandAnswer, no_rate: Status, no_band: Status) -> Result<(), Status>
    ensures value { ended result
        ≡ also (also Status.Done (not (zero_rate band)) no_rate) (not (has_no_band band)) no_band }
    ensures refusal { (is_done no_rate ≡ false) × (is_done no_band ≡ false) → Refuses result }
{
    match band {
        BandAnswer::Rate(_) => Ok(()),
        BandAnswer::ZeroRate => Err(no_rate),
        BandAnswer::NoBand => Err(no_band),
    }
}

// The end of a call, and its number: a refusal writes its status and zeros over whatever the answer area holds.
pub fn finish<T: Copy>(area: &mut [u8], outcome: Result<T, Status>) -> i32
    requires { record_size ≤ length area.old }
    ensures value { result ≡ number (ended outcome) }
    ensures area_after { MatchResult outcome (λ _. area.new ≡ area.old)
        (λ s. area.new ≡ refusal_area (length area.old) s) }
{
    match outcome {
        Ok(_) => code(Status::Done),
        Err(s) => {
            refuse(area, s);
            code(s)
        }
    }
}
