// The grid: 64 bytes as a row of plain numbers and a symbol, and back. Nothing above reads or writes a byte of a record
// but through this crate.
#![tactic(auto)]

pub mod bytes;
pub mod codes;
pub mod row;
pub mod symbol;
