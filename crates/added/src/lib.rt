// The rows that a result adds beside those of its lots, in the places that are free, lowest first.
#![tactic(auto)]

ghost use Rattle.std.specs.Prelude.{◌≤◌};
ghost use Rattle.record.specs.Signed.{up};
ghost use Rattle.kinds.specs.Written.{trade_row};
ghost use Rattle.rules.specs.Ranges.{shares_most};
ghost use Rattle.model.specs.Result.{final_rows, opening_rows};
ghost use Rattle.money.specs.Amounts.{UpTo};
ghost use Rattle.upkeep.specs.Added.{Added, Room};
ghost use Rattle.written.specs.Rows.{time_most};
ghost use Rattle.added.specs.Add.{new_holding, own_added};

use directory::totals::Totals;
use figures::{Figures, is_cash};
use kinds::inputs::ResultInput;
use kinds::rows::Trade;
use money::sides::traded;
use reading::terms::Terms;
use units::{Amount, Cents, Price, Shares, Time};
use upkeep::add;
use written::{cash_row, history_row, lot_history, new_lot, new_summary, settlement_row};

// Shares left over open a new lot.
fn add_opened(
    book: &mut [u8],
    dir: &mut [u16],
    t: Totals,
    trade: Trade,
    price: Price,
    left: Shares,
    time: Time,
) -> Totals
    requires room { Room (opening_rows (trade_row trade) price.0 (up left.0) time.0) book.old dir.old t }
    requires up_to { UpTo shares_most left.0 }
    ensures { Added (opening_rows (trade_row trade) price.0 (up left.0) time.0) book.old t
        book.new dir.new result }
{
    if left.plain() == 0 {
        return t;
    }
    let count = traded(trade.trade_type, left);
    let opened = lot_history(trade.no, trade.no, Shares(0), count);
    let next = add(book, dir, t, opened);
    add(book, dir, next, new_lot(trade, price, count, time))
}

// A summary where there was none.
fn add_summary(
    book: &mut [u8],
    dir: &mut [u16],
    t: Totals,
    trade: Trade,
    held: bool,
    shares: Shares,
) -> Totals
    requires { Room (new_holding trade held shares) book.old dir.old t }
    ensures { Added (new_holding trade held shares) book.old t
        book.new dir.new result }
{
    if held {
        return t;
    }
    add(book, dir, t, new_summary(trade, shares))
}

// The history of the trade, its settlement, and cash for a cash trade.
fn add_final(
    book: &mut [u8],
    dir: &mut [u16],
    t: Totals,
    trade: Trade,
    amount: Cents,
    time: Time,
) -> Totals
    requires room { Room (final_rows (trade_row trade) amount.0 time.0) book.old dir.old t }
    requires time_le_time_most { time.0 ≤ time_most }
    ensures { Added (final_rows (trade_row trade) amount.0 time.0) book.old t
        book.new dir.new result }
{
    let past = history_row(trade, time);
    let paid = settlement_row(trade, amount, time);
    let next = add(book, dir, t, past);
    let last = add(book, dir, next, paid);
    if is_cash(trade.flags) {
        return add(book, dir, last, cash_row(trade, amount, time));
    }
    last
}

// All of them.
pub fn add_own(
    book: &mut [u8],
    dir: &mut [u16],
    t: Totals,
    input: ResultInput,
    terms: Terms,
    figures: Figures,
) -> Totals
    requires room { Room (own_added input terms figures) book.old dir.old t }
    requires up_to { UpTo shares_most figures.walk.need.0 × (input.time.0 ≤ time_most) }
    ensures { Added (own_added input terms figures) book.old t
        book.new dir.new result }
{
    let trade = terms.trade;
    let time = input.time;
    let next = add_opened(book, dir, t, trade, input.price, figures.walk.need, time);
    let last = add_summary(book, dir, next, trade, terms.held, figures.shares);
    add_final(book, dir, last, trade, figures.settlement, time)
}
