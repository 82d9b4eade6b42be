// The places of a book's rows in one directory, a lent area that goes by the book's size: the place of a key, the free
// places and the largest trade number. What each function answers is what a loop over the whole book would answer.
#![tactic(auto)]

pub mod build;
pub mod find;
pub mod totals;
pub mod typed;
