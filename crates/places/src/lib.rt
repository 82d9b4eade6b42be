// A book that is lent as bytes: the record at a place, as a row or as bytes, and a row put at a place. A place past the
// end holds nothing.
#![tactic(auto)]

pub mod count;
pub mod each;
pub mod place;
pub mod put;
