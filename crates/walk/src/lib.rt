// The walk over the lots that a trade closes: shares still needed, bought value and sold value, with the side and the
// price of the trade in it. The same steps give the figures, the number of lots that are closed, and what is left of
// each.
#![tactic(auto)]

ghost use Rattle.std.specs.Prelude.{cond, ◌≡◌, ◌+◌, ◌*◌, ◌<◌, ◌≤◌, eqb, nat_abs, pos};
ghost use Rattle.record.specs.Signed.{up};
ghost use Rattle.units.specs.Units.{cents, shares};
ghost use Rattle.rules.specs.Ranges.{price_most, shares_most};
ghost use Rattle.model.specs.Rows.{most_records};
ghost use Rattle.money.specs.Amounts.{UpTo, value_most};
ghost use Rattle.walk.specs.Walk.{Within, begun, rest_of, stepped, taken_of};

use kinds::rows::Lot;
use money::fees::value;
use money::sides::buys;
use units::{Amount, Cents, Price, Shares};

fn either(first: bool, a: Price, b: Price) -> Price
    ensures { result.0 ≡ cond first a.0 b.0 }
{
    if first { a } else { b }
}

// A value and that of so many shares at a price.
fn with(worth: Cents, part: Shares, price: Price) -> Cents
    requires { UpTo value_most worth.0 × (up part.0 ≤ shares_most) × (price.0 ≤ price_most) }
    ensures { result ≡ cents (pos (up worth.0 + up part.0 * price.0)) }
{
    worth.plus(value(part, price))
}

// One lot more is closed where there is a need.
fn counted(closed: usize, need: Shares) -> usize
    requires { closed < most_records }
    ensures { result ≡ closed + cond (eqb (up need.0) 0) 0 1 }
{
    if need.plain() == 0 {
        closed
    } else {
        closed + 1
    }
}

#[derive(Clone, Copy)]
pub struct Walk {
    // The trade buys, and closes lots that are owed.
    pub buying: bool,
    pub price: Price,
    pub need: Shares,
    pub bought: Cents,
    pub sold: Cents,
    // Lots closed so far, in whole or in part.
    pub closed: usize,
}

impl Walk {
    pub fn start(trade_type: u8, price: Price, shares: Shares) -> Walk
        requires { UpTo shares_most shares.0 × (price.0 ≤ price_most) }
        ensures value { result ≡ begun trade_type price shares }
        ensures within { Within (up shares.0 * price_most) result }
    {
        Walk {
            buying: buys(trade_type),
            price,
            need: shares,
            bought: Cents(0),
            sold: Cents(0),
            closed: 0,
        }
    }

    // As many of a lot's shares as are needed.
    pub fn taken(self, lot: Lot) -> Shares
        ensures value { result ≡ shares (pos (taken_of self lot)) }
        ensures up_to { UpTo (up self.need.0) result.0 }
    {
        let need = self.need.plain();
        let size = lot.shares.size();
        if need <= size {
            return Shares::of(need);
        }
        Shares::of(size)
    }

    // What is left of a lot, 0 where it goes.
    pub fn left(self, lot: Lot) -> Shares
        requires { nat_abs lot.shares.0 ≤ shares_most }
        ensures value { result ≡ shares (pos (rest_of self lot)) }
        ensures up_to { UpTo shares_most result.0 }
    {
        Shares::of(lot.shares.size() - self.taken(lot).plain())
    }

    // For a sell, closed shares add their lot price to bought and the trade price to sold; for a buy, the reverse.
    pub fn step(self, lot: Lot) -> Walk
        requires within { Within value_most self }
        requires price_le_price_most { (lot.price.0 ≤ price_most) × (self.closed < most_records) }
        ensures value { result ≡ stepped self lot }
        ensures within_2 { Within value_most result × (result.closed ≤ self.closed + 1) }
    {
        let part = self.taken(lot);
        let price = self.price;
        let own = lot.price;
        Walk {
            buying: self.buying,
            price,
            need: self.need.less(part),
            bought: with(self.bought, part, either(self.buying, price, own)),
            sold: with(self.sold, part, either(self.buying, own, price)),
            closed: counted(self.closed, self.need),
        }
    }
}
