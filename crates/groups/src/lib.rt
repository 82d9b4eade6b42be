// The rows of one group by a book's directory: counts and sums over them, the band that holds so many shares, and the
// lots of an account and symbol and the requests on a symbol, in turn. What each function answers is what a loop over
// the whole book would answer.
#![tactic(auto)]

pub mod band;
pub mod lots;
pub mod requests;
pub mod sums;
pub mod turn;
