// The cells of a directory and the buckets of groups: chains in a lent area, whatever book they are of.
#![tactic(auto)]

pub mod chain;
pub mod group;
