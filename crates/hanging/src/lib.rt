// The rows that hang on a trade: request, trade history, lot, settlement and cash. Each is decided by its trade and
// marked there; two rows of one key would have one mark. The marks then decide each trade.
#![tactic(auto)]

ghost use Rattle.std.specs.Prelude.{◌≡◌, true, ◌+◌, ◌*◌, ◌<◌};
ghost use Rattle.record.specs.Codes.{kind_trade};
ghost use Rattle.keys.specs.Key.{among};
ghost use Rattle.model.specs.Rows.{places, rows};
ghost use Rattle.model.specs.Sound.{s1, s2, sound};
ghost use Rattle.places.specs.Rows.{row_at};
ghost use Rattle.directory.specs.Listed.{Listed};
ghost use Rattle.clauses.specs.Hung.{hangs, hung_kinds};
ghost use Rattle.by_kind.specs.Chains.{ByKind};
ghost use Rattle.by_kind.specs.Kinds.{KindFits, KindWell, TradesHung};
ghost use Rattle.by_kind.specs.Hung.{hung};
ghost use Rattle.by_kind.specs.Says.{Says};
ghost use Rattle.hanging.specs.Slots.{MarkedTo, all_past};
ghost use Rattle.hanging.specs.Turn.{SlotAt};

use by_kind::chain::{every, first, next};
use clauses::hung::{fits_trade, offset};
use directory::typed::trade;
use fields::fits_beside;
use kinds::rows::Trade;
use kinds::typed::Typed;
use places::place::{part, row_at};
use record::codes::{Kind, TradeStatus, TradeType};
use record::row::Grid;
use units::TradeNo;

// Eight marks for each place: a trade's are those of its request (0), its histories (their status), its lot (5), its
// settlement (6) and its cash (7).
#[derive(Clone, Copy)]
pub struct Marks {}

impl Marks {
    pub const EACH: usize = 8;
}

// The slot of the row at i where that is well and no row before it has the slot. Its symbol is mostly that of its
// trade, which fits, so that it is spelled right.
fn slot_at(book: &[u8], dir: &[u16], marks: &[u8], kind: u8, i: usize) -> Option<usize>
    requires listed { Listed book.now dir.now }
    requires i_bound { (i < places book.now) × (hangs (row_at book.now i) ≡ true) × ((row_at book.now i).kind ≡ kind) }
    requires marked_to { MarkedTo book.now ((row_at book.now i).kind * 4096 + i) marks.now }
    requires kind_fits { KindFits book.now kind_trade }
    ensures { SlotAt book.now marks.now i result }
{
    let p = trade(book, dir, TradeNo(row_at(book, i).id));
    if book.len() / Grid::SIZE <= p {
        return None;
    }
    let t = Trade::from_bytes(part(book, p));
    if !fits_beside(part(book, i), t.symbol) {
        return None;
    }
    if !fits_trade(book, dir, kind, p, i) {
        return None;
    }
    let s = p * Marks::EACH + offset(book, kind, i);
    if marks[s] != 0 {
        return None;
    }
    Some(s)
}

// S1, S2 and the rule of a row by its trade, for every row of a kind that hangs on a trade; and they are marked. The
// walk is written out: of marks that a test would write nothing would be known behind it.
pub fn hang(book: &[u8], dir: &[u16], links: &[u16], marks: &mut [u8], kind: u8) -> bool
    requires listed { Listed book.now dir.now }
    requires by_kind { ByKind book.now links.now 0 }
    requires hung_kinds_value { among kind hung_kinds ≡ true }
    requires marked_to { MarkedTo book.now (kind * 4096) marks.old }
    requires kind_fits { KindFits book.now kind_trade }
    ensures { let b = book.now in
        Says result (KindWell b kind × MarkedTo b ((kind + 1) * 4096) marks.new) (sound (rows b)) }
{
    let n = book.len() / Grid::SIZE;
    let mut c = first(links, kind);
    while c < n {
        let Some(s) = slot_at(book, dir, marks, kind, c) else {
            return false;
        };
        marks[s] = 1;
        c = next(links, c);
    }
    true
}

// What a trade asks of the rows that hang on it, by its marks.
fn hung_at(book: &[u8], marks: &[u8], i: usize) -> bool
    requires book_value { (s1 (rows book.now) ≡ true) × (s2 (rows book.now) ≡ true) }
    requires i_bound { (i < places book.now) × ((row_at book.now i).kind ≡ kind_trade) }
    requires marked_to { MarkedTo book.now all_past marks.now }
    ensures { result ≡ hung (rows book.now) (row_at book.now i) }
{
    let t = Trade::from_bytes(part(book, i));
    let m = i * Marks::EACH;
    let request = marks[m];
    let history = marks[m + usize::from(t.status)];
    let settlement = marks[m + 6];
    let cash = marks[m + 7];
    let pending = t.status == TradeStatus::PENDING;
    let done = t.status == TradeStatus::COMPLETED;
    (request == u8::from(pending))
        & (!pending | (TradeType::TLB <= t.trade_type))
        & (history == 1)
        & (settlement == u8::from(done))
        & (cash == u8::from(done & (t.flags % 2 == 1)))
}

// The same for each trade.
pub fn hung(book: &[u8], links: &[u16], marks: &[u8]) -> bool
    requires book_value { (s1 (rows book.now) ≡ true) × (s2 (rows book.now) ≡ true) }
    requires by_kind { ByKind book.now links.now 0 }
    requires marked_to { MarkedTo book.now all_past marks.now }
    ensures { Says result (TradesHung book.now) (sound (rows book.now)) }
{
    every(book, links, Kind::TRADE, |i| hung_at(book, marks, i))
}
