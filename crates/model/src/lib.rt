// What the rules say, as definitions: specs/ is the one place that a reader must believe. Nothing runs here; the
// answers of the calls are declared.
#![tactic(auto)]

use units::PerTenThousand;

// What the search for a commission band answers: `band_answer` of specs/Band.antt says which of the three, and when. No
// Result: the definitions of the model and `band_answers` of demands speak of these three cases.
#[derive(Clone, Copy)]
pub enum BandAnswer {
    Rate(PerTenThousand),
    ZeroRate,
    NoBand,
}

// How a call ends. The number of each is `number` of specs/Status.antt. `Done` is among them, as the exported promises speak
// of one status; in the code a call's end is a Result.
#[derive(Clone, Copy)]
pub enum Status {
    Done,
    BadLength,
    BadBook,
    Unsound,
    BadInput,
    OverLimit,
    NoRoom,
    OrderNoAccount,
    OrderNotPermitted,
    OrderNoSecurity,
    OrderNoTax,
    OrderNoRate,
    OrderNoBand,
    OrderNoCharge,
    ResultNoTrade,
    ResultNotSubmitted,
    ResultNoTax,
    ResultNoRate,
    ResultNoBand,
    FeedNoSecurity,
    LookupNoTrade,
}
