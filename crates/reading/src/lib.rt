// What a result reads of a book: the rows that its trade leads to, and the lots that it closes. Nothing is written
// here.
#![tactic(auto)]

pub mod lots;
pub mod terms;
