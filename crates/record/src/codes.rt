// The numbers that stand for a kind of record, a trade type and a trade status. They are bytes and no enums: a row keeps
// whatever bytes a record has (`encode_decode`), and a typed value is read from any bytes (`Typed::from_bytes`).
#[derive(Clone, Copy)]
pub struct Kind {}

impl Kind {
    pub const FREE: u8 = 0;

    pub const BROKER: u8 = 1;

    pub const CUSTOMER: u8 = 2;

    pub const TAX_RATE: u8 = 3;

    pub const CUSTOMER_RATE: u8 = 4;

    pub const ACCOUNT: u8 = 5;

    pub const SECURITY: u8 = 6;

    pub const BAND: u8 = 7;

    pub const CHARGE: u8 = 8;

    pub const TRADE: u8 = 9;

    pub const REQUEST: u8 = 10;

    pub const TRADE_HISTORY: u8 = 11;

    pub const LOT: u8 = 12;

    pub const SUMMARY: u8 = 13;

    pub const LOT_HISTORY: u8 = 14;

    pub const SETTLEMENT: u8 = 15;

    pub const CASH: u8 = 16;

    pub const PERMISSION: u8 = 17;

    // The last kind of a row. Those behind are of inputs.
    pub const LAST: u8 = Kind::PERMISSION;

    pub const ORDER: u8 = 33;

    pub const RESULT: u8 = 34;

    pub const FEED: u8 = 35;

    pub const LOOKUP: u8 = 36;
}

// Market buy and sell, limit buy and sell, stop loss.
#[derive(Clone, Copy)]
pub struct TradeType {}

impl TradeType {
    pub const TMB: u8 = 1;

    pub const TMS: u8 = 2;

    pub const TLB: u8 = 3;

    pub const TLS: u8 = 4;

    pub const TSL: u8 = 5;
}

#[derive(Clone, Copy)]
pub struct TradeStatus {}

impl TradeStatus {
    pub const PENDING: u8 = 1;

    pub const SUBMITTED: u8 = 2;

    pub const COMPLETED: u8 = 3;
}
