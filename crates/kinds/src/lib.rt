// The seventeen kinds of row: where each has its fields and what their limits are, and a typed value made of a record's
// bytes. The limits of the four kinds of input.
#![tactic(auto)]

pub mod inputs;
pub mod limits;
pub mod rows;
pub mod typed;
