// What S3 to S10 ask of one row, by its kind: of a row that is searched by its own key, and of a row that hangs on a trade.
#![tactic(auto)]

pub mod hung;
pub mod own;
