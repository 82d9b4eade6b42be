// What a result works out from what it reads and from the walk over its lots: tax, commission, settlement, and the
// balance and the holding after it.
#![tactic(auto)]

ghost use Rattle.std.specs.Prelude.{true, ◌≡◌, ◌≤◌};
ghost use Rattle.rules.specs.Ranges.{fee};
ghost use Rattle.rules.specs.Rules.{result_input};
ghost use Rattle.model.specs.Flags.{cash};
ghost use Rattle.model.specs.Rows.{most_records, rows};
ghost use Rattle.model.specs.Sound.{sound};
ghost use Rattle.directory.specs.Listed.{places};
ghost use Rattle.money.specs.Amounts.{UpTo};
ghost use Rattle.reading.specs.Lots.{Held};
ghost use Rattle.reading.specs.Terms.{input_row, terms_of};
ghost use Rattle.figures.specs.Figures.{Ranged, figures_by};
ghost use Rattle.figures.specs.Reckoned.{Reckoned};

use closing::walked;
use kinds::inputs::ResultInput;
use money::fees::{commission, commission_rate, tax, untaxed, value};
use money::settle::{balance, settlement};
use money::sides::summed;
use reading::terms::Terms;
use sorted::Sorted;
use units::{Cents, Shares};
use walk::Walk;

#[derive(Clone, Copy)]
pub struct Figures {
    pub walk: Walk,
    pub tax: Cents,
    pub untaxed: bool,
    pub commission: Cents,
    pub settlement: Cents,
    pub balance: Cents,
    // What the summary comes to.
    pub shares: Shares,
}

pub fn is_cash(flags: u8) -> bool
    ensures { result ≡ cash flags }
{
    flags % 2 == 1
}

fn figured(input: ResultInput, terms: Terms, walk: Walk) -> Figures
    requires { Ranged input terms walk }
    ensures value { result ≡ figures_by input terms walk }
    ensures up_to { UpTo fee.high result.commission.0 × UpTo fee.high result.tax.0 }
{
    let trade = terms.trade;
    let taxed = terms.account.tax_status;
    let price = input.price;
    let levy = tax(taxed, terms.rates, walk.bought, walk.sold);
    let band = terms.band;
    let rate = commission_rate(band);
    let fee = commission(rate, trade.shares, price);
    let worth = value(trade.shares, price);
    let amount = settlement(trade.trade_type, taxed, worth, trade.charge, fee, levy);
    Figures {
        walk,
        tax: levy,
        untaxed: untaxed(taxed, terms.rates, walk.bought, walk.sold),
        commission: fee,
        settlement: amount,
        balance: balance(is_cash(trade.flags), terms.account.balance, amount),
        shares: summed(trade.trade_type, terms.summary.shares, trade.shares),
    }
}

// The figures of a result whose lots are gathered.
pub fn reckoned(
    book: &[u8],
    at: &[u16; Sorted::MOST],
    n: usize,
    input: ResultInput,
    terms: Terms,
) -> Figures
    requires book_value { (sound (rows book.now) ≡ true) × (result_input (input_row input) ≡ true) }
    requires terms_value { (terms ≡ terms_of (rows book.now) (input_row input)) × (places book.now ≤ most_records) }
    requires held { Held terms book.now at.now n }
    ensures { Reckoned (rows book.now) (input_row input) result }
{
    let trade = terms.trade;
    let start = Walk::start(trade.trade_type, input.price, trade.shares);
    figured(input, terms, walked(book, at, n, start))
}
