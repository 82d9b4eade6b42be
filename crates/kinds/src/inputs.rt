// The four kinds of input record, in the form of the rows: the rule of each, and a typed value from its bytes.
ghost use Rattle.kinds.specs.Inputs.{feed_input_of, lookup_input_of, order_input_of, result_input_of};

use crate::limits::{Beyond, Clause, Limits, Ranges, Rule, Span};
use crate::typed::Typed;
use record::bytes;
use record::codes::Kind;
use record::row::Grid;
use record::symbol::Symbol;
use units::{AccountNo, Amount, ExecutorNo, Price, Shares, Time, TradeNo};

// What an order is given. Executor 0 is the owner of the account.
#[derive(Clone, Copy)]
pub struct OrderInput {
    pub trade_type: u8,
    pub flags: u8,
    pub account: AccountNo,
    pub symbol: Symbol,
    pub shares: Shares,
    pub bid: Price,
    pub executor: ExecutorNo,
    pub time: Time,
}

impl OrderInput {
    pub const RULE: Rule = Rule {
        limits: Limits {
            kind: Span(Kind::ORDER, Kind::ORDER),
            form: Ranges::TRADE_TYPE,
            flags: Span(0, 7),
            party: Ranges::NUMBER,
            symbol: Ranges::ANY64,
            n1: Ranges::SHARES,
            n2: Span(0, Ranges::PRICE_MOST),
            n3: Span(0, Ranges::NUMBER_MOST),
            time: Ranges::TIME,
            ..Limits::NONE
        },
        beyond: Beyond {
            symbol: true,
            clause: Clause::Market,
            ..Beyond::NOTHING
        },
    };
}

impl Typed for OrderInput {
    ghost of_row = { order_input_of };

    #[tactic(auto, unfolding(crate::specs::Inputs::order_input_of, record::specs::Grid::decode))]
    fn from_bytes(part: &[u8]) -> OrderInput {
        OrderInput {
            trade_type: part[Grid::FORM],
            flags: part[Grid::FLAGS],
            account: AccountNo(bytes::u32_at(part, Grid::PARTY)),
            symbol: Symbol::at(part, Grid::SYMBOL),
            shares: Shares::at_u32(part, Grid::N1),
            bid: Price(bytes::u32_at(part, Grid::N2)),
            executor: ExecutorNo(bytes::u32_at(part, Grid::N3)),
            time: Time(bytes::u32_at(part, Grid::TIME)),
        }
    }
}

// What a result is given.
#[derive(Clone, Copy)]
pub struct ResultInput {
    pub trade: TradeNo,
    pub price: Price,
    pub time: Time,
}

impl ResultInput {
    pub const RULE: Rule = Rule {
        limits: Limits {
            kind: Span(Kind::RESULT, Kind::RESULT),
            id: Ranges::TRADE_NO,
            n1: Ranges::PRICE,
            time: Ranges::TIME,
            ..Limits::NONE
        },
        beyond: Beyond::NOTHING,
    };
}

impl Typed for ResultInput {
    ghost of_row = { result_input_of };

    #[tactic(auto, unfolding(crate::specs::Inputs::result_input_of, record::specs::Grid::decode))]
    fn from_bytes(part: &[u8]) -> ResultInput {
        ResultInput {
            trade: TradeNo(bytes::u64_at(part, Grid::ID)),
            price: Price(bytes::u32_at(part, Grid::N1)),
            time: Time(bytes::u32_at(part, Grid::TIME)),
        }
    }
}

// An entry of a feed.
#[derive(Clone, Copy)]
pub struct FeedInput {
    pub symbol: Symbol,
    pub price: Price,
    pub shares: Shares,
    pub time: Time,
}

impl FeedInput {
    pub const RULE: Rule = Rule {
        limits: Limits {
            kind: Span(Kind::FEED, Kind::FEED),
            symbol: Ranges::ANY64,
            n1: Ranges::PRICE,
            n2: Ranges::SHARES,
            time: Ranges::TIME,
            ..Limits::NONE
        },
        beyond: Beyond {
            symbol: true,
            ..Beyond::NOTHING
        },
    };
}

impl Typed for FeedInput {
    ghost of_row = { feed_input_of };

    #[tactic(auto, unfolding(crate::specs::Inputs::feed_input_of, record::specs::Grid::decode))]
    fn from_bytes(part: &[u8]) -> FeedInput {
        FeedInput {
            symbol: Symbol::at(part, Grid::SYMBOL),
            price: Price(bytes::u32_at(part, Grid::N1)),
            shares: Shares::at_u32(part, Grid::N2),
            time: Time(bytes::u32_at(part, Grid::TIME)),
        }
    }
}

// A trade that is looked up.
#[derive(Clone, Copy)]
pub struct LookupInput {
    pub trade: TradeNo,
}

impl LookupInput {
    pub const RULE: Rule = Rule {
        limits: Limits {
            kind: Span(Kind::LOOKUP, Kind::LOOKUP),
            id: Ranges::TRADE_NO,
            ..Limits::NONE
        },
        beyond: Beyond::NOTHING,
    };
}

impl Typed for LookupInput {
    ghost of_row = { lookup_input_of };

    #[tactic(auto, unfolding(crate::specs::Inputs::lookup_input_of, record::specs::Grid::decode))]
    fn from_bytes(part: &[u8]) -> LookupInput {
        LookupInput {
            trade: TradeNo(bytes::u64_at(part, Grid::ID)),
        }
    }
}
