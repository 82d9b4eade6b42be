// The own rule of a row, by its kind.
ghost use Rattle.std.specs.Prelude.{◌≡◌, ◌&&◌, true, ◌<◌};
ghost use Rattle.record.specs.Codes.{kind_summary, kind_trade};
ghost use Rattle.model.specs.Names.{a_security, an_account};
ghost use Rattle.model.specs.Rows.{places, rows, there};
ghost use Rattle.model.specs.Sound.{s1};
ghost use Rattle.places.specs.Rows.{row_at};
ghost use Rattle.directory.specs.Listed.{Listed};
ghost use Rattle.by_group.specs.Kept.{summary_kept};
ghost use Rattle.clauses.specs.Own.{own_well};

use by_group::{apart, rates_fit, summed};
use by_name::names::{granted, rated, served, traded};
use by_name::trade::done;
use kinds::rows::Summary;
use kinds::typed::Typed;
use places::place::part;
use record::codes::Kind;

// A summary's own rule.
pub fn kept(book: &[u8], dir: &[u16], i: usize) -> bool
    requires { Listed book.now dir.now × (i < places book.now) × (s1 (rows book.now) ≡ true) }
    ensures { let rs = rows book.now in
        let r = row_at book.now i in
        result ≡ (there (an_account r.party) rs && there (a_security r.symbol) rs && summary_kept rs r) }
{
    let s = Summary::from_bytes(part(book, i));
    traded(book, dir, s.account, s.symbol) & summed(book, dir, s)
}

// The own rule of a row that is neither a trade nor a summary. What it tells is not looked for again: the trades of a
// lot history are completed, so they are in the book.
pub fn right(book: &[u8], dir: &[u16], kind: u8, i: usize) -> bool
    requires listed { Listed book.now dir.now }
    requires i_bound { (i < places book.now) × ((row_at book.now i).kind ≡ kind) }
    requires fact { (kind ≡ kind_trade → ⊥) × (kind ≡ kind_summary → ⊥) }
    ensures { result ≡ own_well (rows book.now) (row_at book.now i) }
{
    match kind {
        Kind::CUSTOMER => rates_fit(book, dir, i),
        Kind::CUSTOMER_RATE => rated(book, dir, i),
        Kind::ACCOUNT => served(book, dir, i),
        Kind::BAND => apart(book, dir, i),
        Kind::LOT_HISTORY => done(book, dir, i),
        Kind::PERMISSION => granted(book, dir, i),
        _ => true,
    }
}
