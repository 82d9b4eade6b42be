// What a row asks of the rows that it names: that they are in the book (S3), and what its trade and settlement say of it
// (S6, S9, S10).
#![tactic(auto)]

pub mod names;
pub mod trade;
