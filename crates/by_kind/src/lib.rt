// The rows of a book kind by kind: its places chained by their kind, and S1, S2 and a row's own rule for the rows that are
// searched by their key. What S1 to S10 ask of a book is told row by row in specs/.
#![tactic(auto)]

pub mod chain;
pub mod own;
