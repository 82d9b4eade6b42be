// What an order reads, what it works out from that, and what it is refused for. Nothing is written here.
#![tactic(auto)]

pub mod figures;
pub mod judge;
pub mod terms;
