// What is computed with money and shares, by typed values alone: tax and commission, the settlement and the balance
// after it, and shares on a trade's side.
#![tactic(auto)]

pub mod fees;
mod parts;
pub mod settle;
pub mod sides;
