// The rows that a result adds, those that it changes, and the one that it answers.
#![tactic(auto)]

ghost use Rattle.std.specs.Prelude.{◌≡◌, ◌+◌, ◌≤◌, nat_abs};
ghost use Rattle.record.specs.Codes.{completed};
ghost use Rattle.record.specs.Signed.{up};
ghost use Rattle.kinds.specs.Written.{account_row, broker_row, lot_row, summary_row, trade_row};
ghost use Rattle.rules.specs.Ranges.{broker_trades, commission_total, fee, shares_most};
ghost use Rattle.model.specs.History.{history_row};
ghost use Rattle.model.specs.Result.{answer_row, broker_after, cash_row, holding, lot_history, new_lot, new_summary};
ghost use Rattle.model.specs.Result.{settlement_row, trade_after};
ghost use Rattle.money.specs.Amounts.{UpTo};
ghost use Rattle.written.specs.Rows.{time_most};

use figures::Figures;
use kinds::inputs::ResultInput;
use kinds::limits::Ranges;
use kinds::rows::{
    Account, Broker, Cash, Lot, LotHistory, Settlement, Summary, Trade, TradeHistory,
};
use places::place::nothing;
use record::codes::{Kind, TradeStatus};
use record::row::Row;
use record::symbol::Symbol;
use units::{Amount, Cents, Price, Shares, Time, TradeNo};

pub fn lot_history(lot: TradeNo, by: TradeNo, before: Shares, after: Shares) -> Row
    requires { (nat_abs before.0 ≤ shares_most) × (nat_abs after.0 ≤ shares_most) }
    ensures { result ≡ lot_history lot.0 by.0 before.0 after.0 }
{
    Row::from(LotHistory {
        lot,
        by,
        before,
        after,
    })
}

pub fn new_lot(trade: Trade, price: Price, shares: Shares, time: Time) -> Row
    ensures { result ≡ new_lot (trade_row trade) price.0 shares.0 time.0 }
{
    Row::from(Lot {
        no: trade.no,
        account: trade.account,
        symbol: trade.symbol,
        price,
        shares,
        time,
    })
}

pub fn new_summary(trade: Trade, shares: Shares) -> Row
    ensures { result ≡ new_summary (trade_row trade) shares.0 }
{
    Row::from(Summary {
        account: trade.account,
        symbol: trade.symbol,
        shares,
    })
}

pub fn history_row(trade: Trade, time: Time) -> Row
    ensures { result ≡ history_row completed (trade_row trade).id time.0 }
{
    Row::from(TradeHistory {
        no: trade.no,
        status: TradeStatus::COMPLETED,
        time,
    })
}

// Of the trade's flags it keeps cash alone.
pub fn settlement_row(trade: Trade, amount: Cents, time: Time) -> Row
    requires { time.0 ≤ time_most }
    ensures { result ≡ settlement_row (trade_row trade) amount.0 time.0 }
{
    Row::from(Settlement {
        no: trade.no,
        cash: trade.flags % 2,
        amount,
        due: Time(time.0 + Ranges::SETTLEMENT_SECONDS),
    })
}

pub fn cash_row(trade: Trade, amount: Cents, time: Time) -> Row
    ensures { result ≡ cash_row (trade_row trade) amount.0 time.0 }
{
    Row::from(Cash {
        no: trade.no,
        amount,
        time,
    })
}

pub fn trade_after(trade: Trade, input: ResultInput, commission: Cents, tax: Cents) -> Row
    requires { UpTo fee.high commission.0 × UpTo fee.high tax.0 }
    ensures { result ≡ trade_after (trade_row trade) input.price.0 (up commission.0) (up tax.0)
        input.time.0 }
{
    Row::from(Trade {
        status: TradeStatus::COMPLETED,
        price: input.price,
        commission,
        tax,
        time: input.time,
        ..trade
    })
}

pub fn broker_after(broker: Broker, commission: Cents) -> Row
    requires up_to { UpTo commission_total.high broker.commission.0 × UpTo fee.high commission.0 }
    requires trades_bound { broker.trades + 1 ≤ broker_trades.high }
    ensures { result ≡ broker_after (broker_row broker) (up commission.0) }
{
    let after = Broker {
        trades: broker.trades + 1,
        commission: broker.commission.plus(commission),
        ..broker
    };
    Row::from(after)
}

// Three kinds of one form: a trait for the field that changes would be longer.
pub fn account_after(account: Account, balance: Cents) -> Row
    ensures { result ≡ holding (account_row account) balance.0 }
{
    Row::from(Account { balance, ..account })
}

pub fn summary_after(summary: Summary, shares: Shares) -> Row
    ensures { result ≡ holding (summary_row summary) shares.0 }
{
    Row::from(Summary { shares, ..summary })
}

pub fn lot_after(lot: Lot, shares: Shares) -> Row
    ensures { result ≡ holding (lot_row lot) shares.0 }
{
    Row::from(Lot { shares, ..lot })
}

pub fn answer_row(trade: Trade, figures: Figures) -> Row
    ensures { result ≡ answer_row (trade_row trade) (up figures.tax.0) figures.balance.0
        figures.settlement.0 }
{
    Row {
        kind: Kind::RESULT,
        party: trade.account.0,
        id: trade.no.0,
        symbol: Symbol::holding(figures.tax.plain()),
        m1: figures.balance.bits(),
        m2: figures.settlement.bits(),
        ..nothing()
    }
}
