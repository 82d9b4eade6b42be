// The seventeen kinds of row: where each has its fields, their limits, what it asks beyond them, the fields of its key,
// a value of the kind from a record's bytes, and, of the kinds that the calls write, the row of a value.
ghost use Rattle.std.specs.Prelude.{◌≡◌};
ghost use Rattle.kinds.specs.Kinds.{broker_of, customer_of, tax_rate_of, customer_rate_of, account_of, security_of};
ghost use Rattle.kinds.specs.Kinds.{band_of, charge_of, trade_of, request_of, trade_history_of, lot_of, summary_of};
ghost use Rattle.kinds.specs.Kinds.{lot_history_of, settlement_of, cash_of, permission_of};
ghost use Rattle.kinds.specs.Written.{account_row, broker_row, cash_row, lot_history_row, lot_row, request_row};
ghost use Rattle.kinds.specs.Written.{security_row, settlement_row, summary_row, trade_history_row, trade_row};

use crate::limits::{Beyond, Clause, Limits, Marks, Ranges, Span};
use crate::typed::Typed;
use record::bytes;
use record::codes::Kind;
use record::row::{Grid, Row};
use record::symbol::Symbol;
use units::{
    AccountNo, Amount, BrokerNo, Cents, CustomerNo, ExecutorNo, PerHundredThousand, PerTenThousand,
    Price, RateNo, Shares, Time, TradeNo,
};

// The row of a free record.
#[derive(Clone, Copy)]
pub struct Blank {}

impl Blank {
    pub const ROW: Row = Row {
        kind: 0,
        form: 0,
        status: 0,
        flags: 0,
        party: 0,
        id: 0,
        symbol: Symbol::NONE,
        n1: 0,
        n2: 0,
        n3: 0,
        n4: 0,
        m1: 0,
        m2: 0,
        time: 0,
        n5: 0,
    };
}

// Kind 1, a broker: the number of trades completed and the commission earned.
#[derive(Clone, Copy)]
pub struct Broker {
    pub no: BrokerNo,
    pub trades: u32,
    pub commission: Cents,
}

impl Broker {
    pub const KIND: u8 = Kind::BROKER;

    pub const NO: usize = Grid::PARTY;

    pub const TRADES: usize = Grid::N1;

    pub const COMMISSION: usize = Grid::M1;

    pub const LIMITS: Limits = Limits {
        kind: Span(Broker::KIND, Broker::KIND),
        party: Ranges::NUMBER,
        n1: Span(0, 999_999_999),
        m1: Span(0, 999_999_999_999_999),
        ..Limits::NONE
    };

    pub const BEYOND: Beyond = Beyond::NOTHING;

    pub const KEY: Marks = Marks::PARTY;
}

impl Typed for Broker {
    ghost of_row = { broker_of };

    #[tactic(auto, unfolding(crate::specs::Kinds::broker_of, record::specs::Grid::decode))]
    fn from_bytes(part: &[u8]) -> Broker {
        Broker {
            no: BrokerNo(bytes::u32_at(part, Broker::NO)),
            trades: bytes::u32_at(part, Broker::TRADES),
            commission: Cents::at(part, Broker::COMMISSION),
        }
    }
}

impl From<Broker> for Row {
    ghost from_gives = { λ broker r. r ≡ broker_row broker };

    #[tactic(auto, unfolding(crate::specs::Written::broker_row))]
    fn from(broker: Broker) -> Row {
        Row {
            kind: Broker::KIND,
            party: broker.no.0,
            n1: broker.trades,
            m1: broker.commission.bits(),
            ..Blank::ROW
        }
    }
}

// Kind 2, a customer of tier 1 to 3.
#[derive(Clone, Copy)]
pub struct Customer {
    pub no: CustomerNo,
    pub tier: u8,
}

impl Customer {
    pub const KIND: u8 = Kind::CUSTOMER;

    pub const NO: usize = Grid::PARTY;

    pub const TIER: usize = Grid::FORM;

    pub const LIMITS: Limits = Limits {
        kind: Span(Customer::KIND, Customer::KIND),
        form: Ranges::TIER,
        party: Ranges::NUMBER,
        ..Limits::NONE
    };

    pub const BEYOND: Beyond = Beyond::NOTHING;

    pub const KEY: Marks = Marks::PARTY;
}

impl Typed for Customer {
    ghost of_row = { customer_of };

    #[tactic(auto, unfolding(crate::specs::Kinds::customer_of, record::specs::Grid::decode))]
    fn from_bytes(part: &[u8]) -> Customer {
        Customer {
            no: CustomerNo(bytes::u32_at(part, Customer::NO)),
            tier: part[Customer::TIER],
        }
    }
}

// Kind 3, a tax rate.
#[derive(Clone, Copy)]
pub struct TaxRate {
    pub no: RateNo,
    pub rate: PerHundredThousand,
}

impl TaxRate {
    pub const KIND: u8 = Kind::TAX_RATE;

    pub const NO: usize = Grid::PARTY;

    pub const RATE: usize = Grid::N1;

    pub const LIMITS: Limits = Limits {
        kind: Span(TaxRate::KIND, TaxRate::KIND),
        party: Ranges::NUMBER,
        n1: Span(0, Ranges::RATE_MOST),
        ..Limits::NONE
    };

    pub const BEYOND: Beyond = Beyond::NOTHING;

    pub const KEY: Marks = Marks::PARTY;
}

impl Typed for TaxRate {
    ghost of_row = { tax_rate_of };

    #[tactic(auto, unfolding(crate::specs::Kinds::tax_rate_of, record::specs::Grid::decode))]
    fn from_bytes(part: &[u8]) -> TaxRate {
        TaxRate {
            no: RateNo(bytes::u32_at(part, TaxRate::NO)),
            rate: PerHundredThousand(bytes::u32_at(part, TaxRate::RATE)),
        }
    }
}

// Kind 4, a tax rate that a customer is under.
#[derive(Clone, Copy)]
pub struct CustomerRate {
    pub customer: CustomerNo,
    pub rate: RateNo,
}

impl CustomerRate {
    pub const KIND: u8 = Kind::CUSTOMER_RATE;

    pub const CUSTOMER: usize = Grid::PARTY;

    pub const RATE: usize = Grid::N1;

    pub const LIMITS: Limits = Limits {
        kind: Span(CustomerRate::KIND, CustomerRate::KIND),
        party: Ranges::NUMBER,
        n1: Ranges::NUMBER,
        ..Limits::NONE
    };

    pub const BEYOND: Beyond = Beyond::NOTHING;

    pub const KEY: Marks = Marks {
        n1: true,
        ..Marks::PARTY
    };
}

impl Typed for CustomerRate {
    ghost of_row = { customer_rate_of };

    #[tactic(auto, unfolding(crate::specs::Kinds::customer_rate_of, record::specs::Grid::decode))]
    fn from_bytes(part: &[u8]) -> CustomerRate {
        CustomerRate {
            customer: CustomerNo(bytes::u32_at(part, CustomerRate::CUSTOMER)),
            rate: RateNo(bytes::u32_at(part, CustomerRate::RATE)),
        }
    }
}

// Kind 5, an account of a customer with a broker.
#[derive(Clone, Copy)]
pub struct Account {
    pub no: AccountNo,
    pub tax_status: u8,
    pub broker: BrokerNo,
    pub customer: CustomerNo,
    pub balance: Cents,
}

impl Account {
    pub const KIND: u8 = Kind::ACCOUNT;

    pub const NO: usize = Grid::PARTY;

    pub const TAX_STATUS: usize = Grid::FORM;

    pub const BROKER: usize = Grid::N1;

    pub const CUSTOMER: usize = Grid::N2;

    pub const BALANCE: usize = Grid::M1;

    pub const LIMITS: Limits = Limits {
        kind: Span(Account::KIND, Account::KIND),
        form: Span(0, 2),
        party: Ranges::NUMBER,
        n1: Ranges::NUMBER,
        n2: Ranges::NUMBER,
        m1: Ranges::ANY64,
        ..Limits::NONE
    };

    pub const BEYOND: Beyond = Beyond {
        m1: Ranges::MONEY_MOST,
        ..Beyond::NOTHING
    };

    pub const KEY: Marks = Marks::PARTY;
}

impl Typed for Account {
    ghost of_row = { account_of };

    #[tactic(auto, unfolding(crate::specs::Kinds::account_of, record::specs::Grid::decode))]
    fn from_bytes(part: &[u8]) -> Account {
        Account {
            no: AccountNo(bytes::u32_at(part, Account::NO)),
            tax_status: part[Account::TAX_STATUS],
            broker: BrokerNo(bytes::u32_at(part, Account::BROKER)),
            customer: CustomerNo(bytes::u32_at(part, Account::CUSTOMER)),
            balance: Cents::at(part, Account::BALANCE),
        }
    }
}

impl From<Account> for Row {
    ghost from_gives = { λ account r. r ≡ account_row account };

    #[tactic(auto, unfolding(crate::specs::Written::account_row))]
    fn from(account: Account) -> Row {
        Row {
            kind: Account::KIND,
            form: account.tax_status,
            party: account.no.0,
            n1: account.broker.0,
            n2: account.customer.0,
            m1: account.balance.bits(),
            ..Blank::ROW
        }
    }
}

// Kind 6, a security, its last price and the volume traded.
#[derive(Clone, Copy)]
pub struct Security {
    pub symbol: Symbol,
    pub exchange: u8,
    pub last_price: Price,
    pub volume: Shares,
    pub time: Time,
}

impl Security {
    pub const KIND: u8 = Kind::SECURITY;

    pub const SYMBOL: usize = Grid::SYMBOL;

    pub const EXCHANGE: usize = Grid::FORM;

    pub const LAST_PRICE: usize = Grid::N1;

    pub const VOLUME: usize = Grid::M1;

    pub const TIME: usize = Grid::TIME;

    pub const LIMITS: Limits = Limits {
        kind: Span(Security::KIND, Security::KIND),
        form: Ranges::EXCHANGE,
        symbol: Ranges::ANY64,
        n1: Ranges::PRICE,
        m1: Span(0, Ranges::VOLUME_MOST),
        time: Ranges::TIME,
        ..Limits::NONE
    };

    pub const BEYOND: Beyond = Beyond {
        symbol: true,
        ..Beyond::NOTHING
    };

    pub const KEY: Marks = Marks {
        symbol: true,
        ..Marks::NONE
    };
}

impl Typed for Security {
    ghost of_row = { security_of };

    #[tactic(auto, unfolding(crate::specs::Kinds::security_of, record::specs::Grid::decode))]
    fn from_bytes(part: &[u8]) -> Security {
        Security {
            symbol: Symbol::at(part, Security::SYMBOL),
            exchange: part[Security::EXCHANGE],
            last_price: Price(bytes::u32_at(part, Security::LAST_PRICE)),
            volume: Shares::at(part, Security::VOLUME),
            time: Time(bytes::u32_at(part, Security::TIME)),
        }
    }
}

impl From<Security> for Row {
    ghost from_gives = { λ security r. r ≡ security_row security };

    #[tactic(auto, unfolding(crate::specs::Written::security_row))]
    fn from(security: Security) -> Row {
        Row {
            kind: Security::KIND,
            form: security.exchange,
            symbol: security.symbol,
            n1: security.last_price.0,
            m1: security.volume.bits(),
            time: security.time.0,
            ..Blank::ROW
        }
    }
}

// Kind 7, the commission rate for a number of shares, from and to.
#[derive(Clone, Copy)]
pub struct Band {
    pub trade_type: u8,
    pub tier: u8,
    pub exchange: u8,
    pub from: Shares,
    pub to: Shares,
    pub rate: PerTenThousand,
}

impl Band {
    pub const KIND: u8 = Kind::BAND;

    pub const TRADE_TYPE: usize = Grid::FORM;

    pub const TIER: usize = Grid::STATUS;

    pub const EXCHANGE: usize = Grid::FLAGS;

    pub const FROM: usize = Grid::N1;

    pub const TO: usize = Grid::N2;

    pub const RATE: usize = Grid::N3;

    pub const LIMITS: Limits = Limits {
        kind: Span(Band::KIND, Band::KIND),
        form: Ranges::TRADE_TYPE,
        status: Ranges::TIER,
        flags: Ranges::EXCHANGE,
        n1: Ranges::SHARES,
        n2: Ranges::SHARES,
        n3: Span(0, Ranges::COMMISSION_MOST),
        ..Limits::NONE
    };

    pub const BEYOND: Beyond = Beyond {
        clause: Clause::FromTo,
        ..Beyond::NOTHING
    };

    pub const KEY: Marks = Marks {
        form: true,
        status: true,
        flags: true,
        n1: true,
        ..Marks::NONE
    };
}

impl Typed for Band {
    ghost of_row = { band_of };

    #[tactic(auto, unfolding(crate::specs::Kinds::band_of, record::specs::Grid::decode))]
    fn from_bytes(part: &[u8]) -> Band {
        Band {
            trade_type: part[Band::TRADE_TYPE],
            tier: part[Band::TIER],
            exchange: part[Band::EXCHANGE],
            from: Shares::at_u32(part, Band::FROM),
            to: Shares::at_u32(part, Band::TO),
            rate: PerTenThousand(bytes::u32_at(part, Band::RATE)),
        }
    }
}

// Kind 8, the charge for a trade.
#[derive(Clone, Copy)]
pub struct Charge {
    pub trade_type: u8,
    pub tier: u8,
    pub amount: Cents,
}

impl Charge {
    pub const KIND: u8 = Kind::CHARGE;

    pub const TRADE_TYPE: usize = Grid::FORM;

    pub const TIER: usize = Grid::STATUS;

    pub const AMOUNT: usize = Grid::N1;

    pub const LIMITS: Limits = Limits {
        kind: Span(Charge::KIND, Charge::KIND),
        form: Ranges::TRADE_TYPE,
        status: Ranges::TIER,
        n1: Ranges::CHARGE,
        ..Limits::NONE
    };

    pub const BEYOND: Beyond = Beyond::NOTHING;

    pub const KEY: Marks = Marks {
        form: true,
        status: true,
        ..Marks::NONE
    };
}

impl Typed for Charge {
    ghost of_row = { charge_of };

    #[tactic(auto, unfolding(crate::specs::Kinds::charge_of, record::specs::Grid::decode))]
    fn from_bytes(part: &[u8]) -> Charge {
        Charge {
            trade_type: part[Charge::TRADE_TYPE],
            tier: part[Charge::TIER],
            amount: Cents::at_u32(part, Charge::AMOUNT),
        }
    }
}

// Kind 9, a trade.
#[derive(Clone, Copy)]
pub struct Trade {
    pub no: TradeNo,
    pub trade_type: u8,
    pub status: u8,
    pub flags: u8,
    pub account: AccountNo,
    pub symbol: Symbol,
    pub shares: Shares,
    pub bid: Price,
    pub price: Price,
    pub charge: Cents,
    pub commission: Cents,
    pub tax: Cents,
    pub time: Time,
}

impl Trade {
    pub const KIND: u8 = Kind::TRADE;

    pub const NO: usize = Grid::ID;

    pub const TRADE_TYPE: usize = Grid::FORM;

    pub const STATUS: usize = Grid::STATUS;

    pub const FLAGS: usize = Grid::FLAGS;

    pub const ACCOUNT: usize = Grid::PARTY;

    pub const SYMBOL: usize = Grid::SYMBOL;

    pub const SHARES: usize = Grid::N1;

    pub const BID: usize = Grid::N2;

    pub const PRICE: usize = Grid::N3;

    pub const CHARGE: usize = Grid::N4;

    pub const COMMISSION: usize = Grid::M1;

    pub const TAX: usize = Grid::M2;

    pub const TIME: usize = Grid::TIME;

    pub const LIMITS: Limits = Limits {
        kind: Span(Trade::KIND, Trade::KIND),
        form: Ranges::TRADE_TYPE,
        status: Ranges::STATUS,
        flags: Span(0, 3),
        party: Ranges::NUMBER,
        id: Ranges::TRADE_NO,
        symbol: Ranges::ANY64,
        n1: Ranges::SHARES,
        n2: Ranges::PRICE,
        n3: Span(0, Ranges::PRICE_MOST),
        n4: Ranges::CHARGE,
        m1: Ranges::FEE,
        m2: Ranges::FEE,
        time: Ranges::TIME,
        ..Limits::NONE
    };

    pub const BEYOND: Beyond = Beyond {
        symbol: true,
        clause: Clause::Completed,
        ..Beyond::NOTHING
    };

    pub const KEY: Marks = Marks::ID;
}

impl Typed for Trade {
    ghost of_row = { trade_of };

    #[tactic(auto, unfolding(crate::specs::Kinds::trade_of, record::specs::Grid::decode))]
    fn from_bytes(part: &[u8]) -> Trade {
        Trade {
            no: TradeNo(bytes::u64_at(part, Trade::NO)),
            trade_type: part[Trade::TRADE_TYPE],
            status: part[Trade::STATUS],
            flags: part[Trade::FLAGS],
            account: AccountNo(bytes::u32_at(part, Trade::ACCOUNT)),
            symbol: Symbol::at(part, Trade::SYMBOL),
            shares: Shares::at_u32(part, Trade::SHARES),
            bid: Price(bytes::u32_at(part, Trade::BID)),
            price: Price(bytes::u32_at(part, Trade::PRICE)),
            charge: Cents::at_u32(part, Trade::CHARGE),
            commission: Cents::at(part, Trade::COMMISSION),
            tax: Cents::at(part, Trade::TAX),
            time: Time(bytes::u32_at(part, Trade::TIME)),
        }
    }
}

impl From<Trade> for Row {
    ghost from_gives = { λ trade r. r ≡ trade_row trade };

    #[tactic(auto, unfolding(crate::specs::Written::trade_row))]
    fn from(trade: Trade) -> Row {
        Row {
            kind: Trade::KIND,
            form: trade.trade_type,
            status: trade.status,
            flags: trade.flags,
            party: trade.account.0,
            id: trade.no.0,
            symbol: trade.symbol,
            n1: trade.shares.low(),
            n2: trade.bid.0,
            n3: trade.price.0,
            n4: trade.charge.low(),
            m1: trade.commission.bits(),
            m2: trade.tax.bits(),
            time: trade.time.0,
            ..Blank::ROW
        }
    }
}

// Kind 10, a trade that waits for its price.
#[derive(Clone, Copy)]
pub struct Request {
    pub no: TradeNo,
    pub trade_type: u8,
    pub broker: BrokerNo,
    pub symbol: Symbol,
    pub shares: Shares,
    pub bid: Price,
}

impl Request {
    pub const KIND: u8 = Kind::REQUEST;

    pub const NO: usize = Grid::ID;

    pub const TRADE_TYPE: usize = Grid::FORM;

    pub const BROKER: usize = Grid::PARTY;

    pub const SYMBOL: usize = Grid::SYMBOL;

    pub const SHARES: usize = Grid::N1;

    pub const BID: usize = Grid::N2;

    pub const LIMITS: Limits = Limits {
        kind: Span(Request::KIND, Request::KIND),
        form: Ranges::TRADE_TYPE,
        party: Ranges::NUMBER,
        id: Ranges::TRADE_NO,
        symbol: Ranges::ANY64,
        n1: Ranges::SHARES,
        n2: Ranges::PRICE,
        ..Limits::NONE
    };

    pub const BEYOND: Beyond = Beyond {
        symbol: true,
        ..Beyond::NOTHING
    };

    pub const KEY: Marks = Marks::ID;
}

impl Typed for Request {
    ghost of_row = { request_of };

    #[tactic(auto, unfolding(crate::specs::Kinds::request_of, record::specs::Grid::decode))]
    fn from_bytes(part: &[u8]) -> Request {
        Request {
            no: TradeNo(bytes::u64_at(part, Request::NO)),
            trade_type: part[Request::TRADE_TYPE],
            broker: BrokerNo(bytes::u32_at(part, Request::BROKER)),
            symbol: Symbol::at(part, Request::SYMBOL),
            shares: Shares::at_u32(part, Request::SHARES),
            bid: Price(bytes::u32_at(part, Request::BID)),
        }
    }
}

impl From<Request> for Row {
    ghost from_gives = { λ request r. r ≡ request_row request };

    #[tactic(auto, unfolding(crate::specs::Written::request_row))]
    fn from(request: Request) -> Row {
        Row {
            kind: Request::KIND,
            form: request.trade_type,
            party: request.broker.0,
            id: request.no.0,
            symbol: request.symbol,
            n1: request.shares.low(),
            n2: request.bid.0,
            ..Blank::ROW
        }
    }
}

// Kind 11, when a trade took a status.
#[derive(Clone, Copy)]
pub struct TradeHistory {
    pub no: TradeNo,
    pub status: u8,
    pub time: Time,
}

impl TradeHistory {
    pub const KIND: u8 = Kind::TRADE_HISTORY;

    pub const NO: usize = Grid::ID;

    pub const STATUS: usize = Grid::STATUS;

    pub const TIME: usize = Grid::TIME;

    pub const LIMITS: Limits = Limits {
        kind: Span(TradeHistory::KIND, TradeHistory::KIND),
        status: Ranges::STATUS,
        id: Ranges::TRADE_NO,
        time: Ranges::TIME,
        ..Limits::NONE
    };

    pub const BEYOND: Beyond = Beyond::NOTHING;

    pub const KEY: Marks = Marks {
        status: true,
        ..Marks::ID
    };
}

impl Typed for TradeHistory {
    ghost of_row = { trade_history_of };

    #[tactic(auto, unfolding(crate::specs::Kinds::trade_history_of, record::specs::Grid::decode))]
    fn from_bytes(part: &[u8]) -> TradeHistory {
        TradeHistory {
            no: TradeNo(bytes::u64_at(part, TradeHistory::NO)),
            status: part[TradeHistory::STATUS],
            time: Time(bytes::u32_at(part, TradeHistory::TIME)),
        }
    }
}

impl From<TradeHistory> for Row {
    ghost from_gives = { λ trade_history r. r ≡ trade_history_row trade_history };

    #[tactic(auto, unfolding(crate::specs::Written::trade_history_row))]
    fn from(trade_history: TradeHistory) -> Row {
        Row {
            kind: TradeHistory::KIND,
            status: trade_history.status,
            id: trade_history.no.0,
            time: trade_history.time.0,
            ..Blank::ROW
        }
    }
}

// Kind 12, the shares that are left of what a trade opened; below zero where it sold short.
#[derive(Clone, Copy)]
pub struct Lot {
    pub no: TradeNo,
    pub account: AccountNo,
    pub symbol: Symbol,
    pub price: Price,
    pub shares: Shares,
    pub time: Time,
}

impl Lot {
    pub const KIND: u8 = Kind::LOT;

    pub const NO: usize = Grid::ID;

    pub const ACCOUNT: usize = Grid::PARTY;

    pub const SYMBOL: usize = Grid::SYMBOL;

    pub const PRICE: usize = Grid::N1;

    pub const SHARES: usize = Grid::M1;

    pub const TIME: usize = Grid::TIME;

    pub const LIMITS: Limits = Limits {
        kind: Span(Lot::KIND, Lot::KIND),
        party: Ranges::NUMBER,
        id: Ranges::TRADE_NO,
        symbol: Ranges::ANY64,
        n1: Ranges::PRICE,
        m1: Ranges::ANY64,
        time: Ranges::TIME,
        ..Limits::NONE
    };

    pub const BEYOND: Beyond = Beyond {
        m1: Ranges::SHARES_MOST as u64,
        symbol: true,
        clause: Clause::NotZero,
        ..Beyond::NOTHING
    };

    pub const KEY: Marks = Marks::ID;
}

impl Typed for Lot {
    ghost of_row = { lot_of };

    #[tactic(auto, unfolding(crate::specs::Kinds::lot_of, record::specs::Grid::decode))]
    fn from_bytes(part: &[u8]) -> Lot {
        Lot {
            no: TradeNo(bytes::u64_at(part, Lot::NO)),
            account: AccountNo(bytes::u32_at(part, Lot::ACCOUNT)),
            symbol: Symbol::at(part, Lot::SYMBOL),
            price: Price(bytes::u32_at(part, Lot::PRICE)),
            shares: Shares::at(part, Lot::SHARES),
            time: Time(bytes::u32_at(part, Lot::TIME)),
        }
    }
}

impl From<Lot> for Row {
    ghost from_gives = { λ lot r. r ≡ lot_row lot };

    #[tactic(auto, unfolding(crate::specs::Written::lot_row))]
    fn from(lot: Lot) -> Row {
        Row {
            kind: Lot::KIND,
            party: lot.account.0,
            id: lot.no.0,
            symbol: lot.symbol,
            n1: lot.price.0,
            m1: lot.shares.bits(),
            time: lot.time.0,
            ..Blank::ROW
        }
    }
}

// Kind 13, an account's shares of a security.
#[derive(Clone, Copy)]
pub struct Summary {
    pub account: AccountNo,
    pub symbol: Symbol,
    pub shares: Shares,
}

impl Summary {
    pub const KIND: u8 = Kind::SUMMARY;

    pub const ACCOUNT: usize = Grid::PARTY;

    pub const SYMBOL: usize = Grid::SYMBOL;

    pub const SHARES: usize = Grid::M1;

    pub const LIMITS: Limits = Limits {
        kind: Span(Summary::KIND, Summary::KIND),
        party: Ranges::NUMBER,
        symbol: Ranges::ANY64,
        m1: Ranges::ANY64,
        ..Limits::NONE
    };

    pub const BEYOND: Beyond = Beyond {
        symbol: true,
        clause: Clause::NotZero,
        ..Beyond::NOTHING
    };

    pub const KEY: Marks = Marks {
        symbol: true,
        ..Marks::PARTY
    };
}

impl Typed for Summary {
    ghost of_row = { summary_of };

    #[tactic(auto, unfolding(crate::specs::Kinds::summary_of, record::specs::Grid::decode))]
    fn from_bytes(part: &[u8]) -> Summary {
        Summary {
            account: AccountNo(bytes::u32_at(part, Summary::ACCOUNT)),
            symbol: Symbol::at(part, Summary::SYMBOL),
            shares: Shares::at(part, Summary::SHARES),
        }
    }
}

impl From<Summary> for Row {
    ghost from_gives = { λ summary r. r ≡ summary_row summary };

    #[tactic(auto, unfolding(crate::specs::Written::summary_row))]
    fn from(summary: Summary) -> Row {
        Row {
            kind: Summary::KIND,
            party: summary.account.0,
            symbol: summary.symbol,
            m1: summary.shares.bits(),
            ..Blank::ROW
        }
    }
}

// Kind 14, how a trade changed a lot.
#[derive(Clone, Copy)]
pub struct LotHistory {
    pub lot: TradeNo,
    pub by: TradeNo,
    pub before: Shares,
    pub after: Shares,
}

impl LotHistory {
    pub const KIND: u8 = Kind::LOT_HISTORY;

    pub const LOT: usize = Grid::ID;

    pub const BY: usize = Grid::M2;

    pub const BEFORE: usize = Grid::N1;

    pub const AFTER: usize = Grid::N2;

    pub const LIMITS: Limits = Limits {
        kind: Span(LotHistory::KIND, LotHistory::KIND),
        id: Ranges::TRADE_NO,
        n1: Ranges::ANY32,
        n2: Ranges::ANY32,
        m2: Ranges::TRADE_NO,
        ..Limits::NONE
    };

    pub const BEYOND: Beyond = Beyond {
        n1n2: Ranges::SHARES_MOST,
        clause: Clause::Unequal,
        ..Beyond::NOTHING
    };

    pub const KEY: Marks = Marks {
        m2: true,
        ..Marks::ID
    };
}

impl Typed for LotHistory {
    ghost of_row = { lot_history_of };

    #[tactic(auto, unfolding(crate::specs::Kinds::lot_history_of, record::specs::Grid::decode))]
    fn from_bytes(part: &[u8]) -> LotHistory {
        LotHistory {
            lot: TradeNo(bytes::u64_at(part, LotHistory::LOT)),
            by: TradeNo(bytes::u64_at(part, LotHistory::BY)),
            before: Shares::at_i32(part, LotHistory::BEFORE),
            after: Shares::at_i32(part, LotHistory::AFTER),
        }
    }
}

impl From<LotHistory> for Row {
    ghost from_gives = { λ lot_history r. r ≡ lot_history_row lot_history };

    #[tactic(auto, unfolding(crate::specs::Written::lot_history_row))]
    fn from(lot_history: LotHistory) -> Row {
        Row {
            kind: LotHistory::KIND,
            id: lot_history.lot.0,
            n1: lot_history.before.low(),
            n2: lot_history.after.low(),
            m2: lot_history.by.0,
            ..Blank::ROW
        }
    }
}

// Kind 15, what a trade came to.
#[derive(Clone, Copy)]
pub struct Settlement {
    pub no: TradeNo,
    pub cash: u8,
    pub amount: Cents,
    pub due: Time,
}

impl Settlement {
    pub const KIND: u8 = Kind::SETTLEMENT;

    pub const NO: usize = Grid::ID;

    pub const CASH: usize = Grid::FLAGS;

    pub const AMOUNT: usize = Grid::M1;

    pub const DUE: usize = Grid::TIME;

    pub const LIMITS: Limits = Limits {
        kind: Span(Settlement::KIND, Settlement::KIND),
        flags: Span(0, 1),
        id: Ranges::TRADE_NO,
        m1: Ranges::ANY64,
        time: Span(0, Ranges::TIME_MOST + Ranges::SETTLEMENT_SECONDS),
        ..Limits::NONE
    };

    pub const BEYOND: Beyond = Beyond {
        m1: Ranges::MONEY_MOST,
        ..Beyond::NOTHING
    };

    pub const KEY: Marks = Marks::ID;
}

impl Typed for Settlement {
    ghost of_row = { settlement_of };

    #[tactic(auto, unfolding(crate::specs::Kinds::settlement_of, record::specs::Grid::decode))]
    fn from_bytes(part: &[u8]) -> Settlement {
        Settlement {
            no: TradeNo(bytes::u64_at(part, Settlement::NO)),
            cash: part[Settlement::CASH],
            amount: Cents::at(part, Settlement::AMOUNT),
            due: Time(bytes::u32_at(part, Settlement::DUE)),
        }
    }
}

impl From<Settlement> for Row {
    ghost from_gives = { λ settlement r. r ≡ settlement_row settlement };

    #[tactic(auto, unfolding(crate::specs::Written::settlement_row))]
    fn from(settlement: Settlement) -> Row {
        Row {
            kind: Settlement::KIND,
            flags: settlement.cash,
            id: settlement.no.0,
            m1: settlement.amount.bits(),
            time: settlement.due.0,
            ..Blank::ROW
        }
    }
}

// Kind 16, what a cash trade did to the account's balance.
#[derive(Clone, Copy)]
pub struct Cash {
    pub no: TradeNo,
    pub amount: Cents,
    pub time: Time,
}

impl Cash {
    pub const KIND: u8 = Kind::CASH;

    pub const NO: usize = Grid::ID;

    pub const AMOUNT: usize = Grid::M1;

    pub const TIME: usize = Grid::TIME;

    pub const LIMITS: Limits = Limits {
        kind: Span(Cash::KIND, Cash::KIND),
        id: Ranges::TRADE_NO,
        m1: Ranges::ANY64,
        time: Ranges::TIME,
        ..Limits::NONE
    };

    pub const BEYOND: Beyond = Beyond {
        m1: Ranges::MONEY_MOST,
        ..Beyond::NOTHING
    };

    pub const KEY: Marks = Marks::ID;
}

impl Typed for Cash {
    ghost of_row = { cash_of };

    #[tactic(auto, unfolding(crate::specs::Kinds::cash_of, record::specs::Grid::decode))]
    fn from_bytes(part: &[u8]) -> Cash {
        Cash {
            no: TradeNo(bytes::u64_at(part, Cash::NO)),
            amount: Cents::at(part, Cash::AMOUNT),
            time: Time(bytes::u32_at(part, Cash::TIME)),
        }
    }
}

impl From<Cash> for Row {
    ghost from_gives = { λ cash r. r ≡ cash_row cash };

    #[tactic(auto, unfolding(crate::specs::Written::cash_row))]
    fn from(cash: Cash) -> Row {
        Row {
            kind: Cash::KIND,
            id: cash.no.0,
            m1: cash.amount.bits(),
            time: cash.time.0,
            ..Blank::ROW
        }
    }
}

// Kind 17, who may order for an account beside its owner.
#[derive(Clone, Copy)]
pub struct Permission {
    pub account: AccountNo,
    pub executor: ExecutorNo,
}

impl Permission {
    pub const KIND: u8 = Kind::PERMISSION;

    pub const ACCOUNT: usize = Grid::PARTY;

    pub const EXECUTOR: usize = Grid::N1;

    pub const LIMITS: Limits = Limits {
        kind: Span(Permission::KIND, Permission::KIND),
        party: Ranges::NUMBER,
        n1: Ranges::NUMBER,
        ..Limits::NONE
    };

    pub const BEYOND: Beyond = Beyond::NOTHING;

    pub const KEY: Marks = Marks {
        n1: true,
        ..Marks::PARTY
    };
}

impl Typed for Permission {
    ghost of_row = { permission_of };

    #[tactic(auto, unfolding(crate::specs::Kinds::permission_of, record::specs::Grid::decode))]
    fn from_bytes(part: &[u8]) -> Permission {
        Permission {
            account: AccountNo(bytes::u32_at(part, Permission::ACCOUNT)),
            executor: ExecutorNo(bytes::u32_at(part, Permission::EXECUTOR)),
        }
    }
}
