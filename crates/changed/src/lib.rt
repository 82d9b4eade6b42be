// The rows that a result changes or frees, each at the place where it stood before anything was written.
#![tactic(auto)]

ghost use Rattle.money.specs.Amounts.{UpTo};
ghost use Rattle.std.specs.Prelude.{◌+◌, ◌≤◌};
ghost use Rattle.rules.specs.Ranges.{broker_trades, commission_total, fee};
ghost use Rattle.written.specs.Turned.{Ready, Turned};
ghost use Rattle.changed.specs.Change.{account_put, change_puts, summary_free, summary_put};

use directory::totals::Totals;
use figures::{Figures, is_cash};
use kinds::inputs::ResultInput;
use reading::terms::Terms;
use units::{Amount, Cents, Shares};
use upkeep::{change, free};
use written::{account_after, broker_after, summary_after, trade_after};

// A summary that does not come to zero follows in its place.
fn change_summary(book: &mut [u8], dir: &[u16], t: Totals, terms: Terms, shares: Shares)
    requires { Ready (summary_put terms shares) book.old dir.now t }
    ensures { Turned (summary_put terms shares) book.old book.new dir.now t }
{
    if terms.held & (shares.size() != 0) {
        change(
            book,
            dir,
            t,
            terms.at.summary,
            summary_after(terms.summary, shares),
        );
    }
}

// At zero it goes.
pub fn free_summary(
    book: &mut [u8],
    dir: &mut [u16],
    t: Totals,
    terms: Terms,
    shares: Shares,
) -> Totals
    requires { Ready (summary_free terms shares) book.old dir.old t }
    ensures { Turned (summary_free terms shares) book.old book.new dir.new result }
{
    if terms.held & (shares.size() == 0) {
        return free(book, dir, t, terms.at.summary);
    }
    t
}

// A cash trade changes the balance.
fn change_account(book: &mut [u8], dir: &[u16], t: Totals, terms: Terms, balance: Cents)
    requires { Ready (account_put terms balance) book.old dir.now t }
    ensures { Turned (account_put terms balance) book.old book.new dir.now t }
{
    if is_cash(terms.trade.flags) {
        change(
            book,
            dir,
            t,
            terms.at.account,
            account_after(terms.account, balance),
        );
    }
}

// Summary, account, trade and broker.
pub fn change_rows(
    book: &mut [u8],
    dir: &[u16],
    t: Totals,
    input: ResultInput,
    terms: Terms,
    figures: Figures,
)
    requires ready { Ready (change_puts input terms figures) book.old dir.now t }
    requires up_to { UpTo fee.high figures.commission.0 × UpTo fee.high figures.tax.0 }
    requires up_to_2 { UpTo commission_total.high terms.broker.commission.0
        × (terms.broker.trades + 1 ≤ broker_trades.high) }
    ensures { Turned (change_puts input terms figures) book.old book.new
        dir.now t }
{
    let fee = figures.commission;
    change_summary(book, dir, t, terms, figures.shares);
    change_account(book, dir, t, terms, figures.balance);
    let done = trade_after(terms.trade, input, fee, figures.tax);
    change(book, dir, t, terms.at.trade, done);
    change(
        book,
        dir,
        t,
        terms.at.broker,
        broker_after(terms.broker, fee),
    );
}
