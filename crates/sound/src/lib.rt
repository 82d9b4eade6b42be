// Whether a book is sound, kind by kind: the rows that are searched by their key, the rows that hang on a trade marked at
// their trade, and then each trade by its marks; and the status of a book for any bytes.
#![tactic(auto)]

pub mod area;
pub mod whole;
