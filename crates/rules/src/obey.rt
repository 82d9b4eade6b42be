// What the rule of a kind asks beyond its ranges: one function for every kind of row and of input. Where the kind's
// entry is a constant, what it does not ask for falls away.
ghost use Rattle.std.specs.Prelude.{◌≡◌, true};
ghost use Rattle.record.specs.Spelling.{symbol_ok};
ghost use Rattle.rules.specs.Beyond.{beyond};
ghost use Rattle.rules.specs.Rules.{all_of, compared, near32, near64, obeys, shape_of};

use crate::limited::in_limits;
use kinds::limits::{Beyond, Clause, Rule};
use record::codes::{TradeStatus, TradeType};
use record::row::Row;
use record::symbol::Symbol;

// What compares fields.
fn compared(t: bool, c: Clause, r: Row) -> bool
    ensures { result ≡ all_of t (compared c r) }
{
    match c {
        Clause::Nothing => t,
        Clause::FromTo => t & (r.n1 <= r.n2),
        Clause::Completed => {
            t & ((r.n3 != 0) == (r.status == TradeStatus::COMPLETED))
                & ((r.m2 == 0) | (r.status == TradeStatus::COMPLETED))
        }
        Clause::NotZero => t & (r.m1 != 0),
        Clause::Unequal => t & (r.n1 != r.n2),
        Clause::Market => t & ((r.n2 == 0) == (r.form <= TradeType::TMS)),
    }
}

// Each of the signed numbers is at most so far from zero, where that is asked.
#[tactic(auto, unfolding(crate::specs::Signed::near))]
fn bound64(t: bool, most: u64, x: u64) -> bool
    ensures { result ≡ all_of t (near64 most x) }
{
    if most == 0 {
        return t;
    }
    t & (x.cast_signed().unsigned_abs() <= most)
}

#[tactic(auto, unfolding(crate::specs::Signed::near))]
fn bound32(t: bool, most: u32, a: u32, b: u32) -> bool
    ensures { result ≡ all_of t (near32 most a b) }
{
    if most == 0 {
        return t;
    }
    t & (a.cast_signed().unsigned_abs() <= most) & (b.cast_signed().unsigned_abs() <= most)
}

// A symbol that is spelled right.
#[derive(Clone, Copy)]
pub struct Spelt {}

impl Spelt {
    pub const A: Symbol = Symbol(4_683_743_612_465_315_840);
}

// A symbol is spelled right: it is one that is known to be, or it is read letter by letter.
#[tactic(auto, unfolding(record::specs::Symbol::same_symbol))]
fn spelled(symbol: Symbol, known: Symbol) -> bool
    requires { symbol_ok known ≡ true }
    ensures { result ≡ symbol_ok symbol }
{
    if symbol == known {
        return true;
    }
    symbol.ok()
}

// What is no range, for a row of which it is told whether its fields are in range. A symbol is at hand that is spelled
// right, and may well be the row's own; the row's is read last, and only where all else is right.
pub fn beyond(t: bool, r: Row, u: Beyond, known: Symbol) -> bool
    requires { symbol_ok known ≡ true }
    ensures { result ≡ beyond t u r }
{
    let t1 = compared(t, u.clause, r);
    let t2 = bound64(t1, u.m1, r.m1);
    let t3 = bound32(t2, u.n1n2, r.n1, r.n2);
    if t3 & u.symbol {
        return spelled(r.symbol, known);
    }
    t3
}

// A symbol that is spelled right: this one, if it is asked for and is.
#[tactic(auto, unfolding(record::specs::Spelling::symbol_ok))]
fn right(asked: bool, symbol: Symbol) -> Symbol
    ensures { symbol_ok result ≡ true }
{
    if asked && symbol.ok() {
        return symbol;
    }
    Spelt::A
}

// The whole rule of an input. Its own symbol is asked for here, too: with two callers `ok` stays a function, and
// `beyond` is small enough for each kind of row to get its own part of it.
pub fn obeys(r: Row, u: Rule) -> bool
    ensures { result ≡ obeys (shape_of u) r }
{
    let more = u.beyond;
    beyond(
        in_limits(r, u.limits),
        r,
        more,
        right(more.symbol, r.symbol),
    )
}
