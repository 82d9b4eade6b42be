// Which requests the entries of a feed hit, and what a feed is refused for. Nothing is written here.
#![tactic(auto)]

pub mod gather;
pub mod judge;
