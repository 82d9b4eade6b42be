// Whether a row obeys a rule of the table of the kinds. The table is in specs/Rules.antt and, in code, the constants
// `LIMITS` and `BEYOND` of each kind of row and `RULE` of each kind of input.
#![tactic(auto)]

pub mod limited;
pub mod obey;
