// The rows that are searched by their own key, kind by kind: S1, S2, and the row's rule, all but what a trade asks of
// the rows that hang on it.
ghost use Rattle.std.specs.Prelude.{◌≡◌, ◌&&◌, false, true, ◌<◌, ◌≤◌};
ghost use Rattle.record.specs.Codes.{kind_security, kind_summary, kind_trade, last_kind};
ghost use Rattle.rules.specs.Rules.{fits};
ghost use Rattle.keys.specs.Key.{among};
ghost use Rattle.model.specs.Rows.{places, rows};
ghost use Rattle.model.specs.Sound.{s1, sound};
ghost use Rattle.places.specs.Rows.{row_at};
ghost use Rattle.directory.specs.Listed.{Listed};
ghost use Rattle.clauses.specs.Hung.{hangs, hung_kinds};
ghost use Rattle.clauses.specs.Own.{own_well};
ghost use Rattle.by_kind.specs.Chains.{ByKind};
ghost use Rattle.by_kind.specs.Kinds.{KindFits, KindWell, WellTo};
ghost use Rattle.by_kind.specs.Distinct.{last_at};
ghost use Rattle.by_kind.specs.Says.{Says};

use crate::chain::every;
use chains::chain;
use clauses::own::{kept, right};
use directory::find::again;
use directory::typed::{account, security};
use fields::{fits, fits_beside};
use kinds::rows::Trade;
use kinds::typed::Typed;
use places::place::{part, row_at};
use record::codes::Kind;
use record::row::Grid;

// S1 of the record at a place, by its own bytes.
fn fit_at(book: &[u8], i: usize) -> bool
    requires { i < places book.now }
    ensures { result ≡ fits (row_at book.now i) }
{
    fits(part(book, i))
}

// The key of the row at i stands nowhere after it: the chain of its group ends there, or has no such row.
fn last(book: &[u8], dir: &[u16], i: usize) -> bool
    requires listed { Listed book.now dir.now }
    requires i_bound { (i < places book.now) × (hangs (row_at book.now i) ≡ false) }
    ensures { result ≡ last_at book.now i }
{
    let n = book.len() / Grid::SIZE;
    if n <= chain::next(dir, i) {
        return true;
    }
    let row = row_at(book, i);
    if row.kind == Kind::FREE {
        return true;
    }
    n <= again(book, dir, i, row)
}

// S1 and the own rule of a trade. Its symbol is that of a security, so that it is spelled right.
fn trade_right(book: &[u8], dir: &[u16], i: usize) -> bool
    requires listed { Listed book.now dir.now }
    requires i_bound { (i < places book.now) × ((row_at book.now i).kind ≡ kind_trade) }
    requires kind_fits { KindFits book.now kind_security }
    ensures { let b = book.now in
        result ≡ (fits (row_at b i) && own_well (rows b) (row_at b i)) }
{
    let n = book.len() / Grid::SIZE;
    let t = Trade::from_bytes(part(book, i));
    let symbol = t.symbol;
    if n <= security(book, dir, symbol) {
        return false;
    }
    fits_beside(part(book, i), symbol) & (account(book, dir, t.account) < n)
}

// S1 and the own rule of a row. That the summaries fit is known before their rule is asked for.
fn told(book: &[u8], dir: &[u16], kind: u8, i: usize) -> bool
    requires listed { Listed book.now dir.now }
    requires i_bound { (i < places book.now) × ((row_at book.now i).kind ≡ kind) }
    requires book_value { kind ≡ kind_summary → s1 (rows book.now) ≡ true }
    requires kind_fits { kind ≡ kind_trade → KindFits book.now kind_security }
    ensures { let b = book.now in
        result ≡ (fits (row_at b i) && own_well (rows b) (row_at b i)) }
{
    if kind == Kind::TRADE {
        return trade_right(book, dir, i);
    }
    if kind == Kind::SUMMARY {
        return kept(book, dir, i);
    }
    fit_at(book, i) & right(book, dir, kind, i)
}

fn own_at(book: &[u8], dir: &[u16], kind: u8, i: usize) -> bool
    requires listed { Listed book.now dir.now }
    requires i_bound { (i < places book.now) × ((row_at book.now i).kind ≡ kind) × (among kind hung_kinds ≡ false) }
    requires book_value { kind ≡ kind_summary → s1 (rows book.now) ≡ true }
    requires kind_fits { kind ≡ kind_trade → KindFits book.now kind_security }
    ensures { let b = book.now in
        result ≡ (fits (row_at b i) && last_at b i && own_well (rows b) (row_at b i)) }
{
    last(book, dir, i) & told(book, dir, kind, i)
}

// S1, S2 and its own rule, for every row of a kind.
pub fn own(book: &[u8], dir: &[u16], links: &[u16], kind: u8) -> bool
    requires listed { Listed book.now dir.now }
    requires by_kind { ByKind book.now links.now 0 }
    requires kind_le_last_kind { (kind ≤ last_kind) × (among kind hung_kinds ≡ false) }
    requires book_value { kind ≡ kind_summary → s1 (rows book.now) ≡ true }
    requires kind_fits { kind ≡ kind_trade → KindFits book.now kind_security }
    ensures { Says result (KindWell book.now kind) (sound (rows book.now)) }
{
    every(book, links, kind, |i| own_at(book, dir, kind, i))
}

// The same for the kinds up to the trades.
pub fn standing(book: &[u8], dir: &[u16], links: &[u16]) -> bool
    requires listed { Listed book.now dir.now }
    requires by_kind { ByKind book.now links.now 0 }
    ensures { Says result (WellTo book.now 10) (sound (rows book.now)) }
{
    for kind in 0..Kind::REQUEST {
        if !own(book, dir, links, kind) {
            return false;
        }
    }
    true
}

// S1 of every row of a kind.
pub fn fit(book: &[u8], links: &[u16], kind: u8) -> bool
    requires by_kind { ByKind book.now links.now 0 }
    requires kind_le_last_kind { kind ≤ last_kind }
    ensures { Says result (KindFits book.now kind) (sound (rows book.now)) }
{
    every(book, links, kind, |i| fit_at(book, i))
}
