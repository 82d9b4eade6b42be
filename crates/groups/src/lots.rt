// The lots of an account and symbol, in turn.
ghost use Rattle.std.specs.Prelude.{◌≡◌, ◌&&◌, true, ◌+◌, ◌<◌, eqb, drop};
ghost use Rattle.laws.specs.Search.{place, seek};
ghost use Rattle.record.specs.Symbol.{same_symbol};
ghost use Rattle.model.specs.Rows.{places, rows};
ghost use Rattle.model.specs.Sound.{lot_of};
ghost use Rattle.places.specs.Rows.{row_at};
ghost use Rattle.directory.specs.Listed.{Listed};

use crate::turn::{first_of, next_of};
use chains::group;
use kinds::rows::Lot;
use kinds::typed::Typed;
use places::place::part;
use record::codes::Kind;
use record::row::Grid;
use record::symbol::Symbol;
use units::AccountNo;

// A lot is of an account and symbol.
#[tactic(auto, unfolding(record::specs::Symbol::same_symbol))]
pub fn in_holding(account: AccountNo, symbol: Symbol, lot: Lot) -> bool
    ensures { result ≡ (eqb lot.account.0 account.0 && same_symbol lot.symbol symbol) }
{
    (lot.account == account) & (lot.symbol == symbol)
}

// The record at a place is a lot of an account and symbol.
pub fn held(book: &[u8], account: AccountNo, symbol: Symbol, at: usize) -> bool
    requires { at < places book.now }
    ensures { result ≡ lot_of account.0 symbol (row_at book.now at) }
{
    let record = part(book, at);
    (record[Grid::KIND] == Kind::LOT) & in_holding(account, symbol, Lot::from_bytes(record))
}

// The place of the first lot, the number of places where there is none.
pub fn first_lot(book: &[u8], dir: &[u16], account: AccountNo, symbol: Symbol) -> usize
    requires { Listed book.now dir.now }
    ensures { result ≡ place (lot_of account.0 symbol) (rows book.now) }
{
    first_of(book, dir, group::lots_of(account, symbol))
}

// The place of the next lot after one, the number of places where there is none.
pub fn next_lot(book: &[u8], dir: &[u16], account: AccountNo, symbol: Symbol, at: usize) -> usize
    requires listed { Listed book.now dir.now }
    requires at_bound { (at < places book.now) × (lot_of account.0 symbol (row_at book.now at) ≡ true) }
    ensures { result ≡ seek (lot_of account.0 symbol) (at + 1) (drop (at + 1) (rows book.now)) }
{
    next_of(book, dir, group::lots_of(account, symbol), at)
}
