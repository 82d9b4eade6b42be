// The whole of a book, kind by kind; and its status.
ghost use Rattle.std.specs.Prelude.{◌≡◌, ◌+◌, ◌*◌, ◌/◌, ◌≤◌, ◌<◌};
ghost use Rattle.record.specs.Codes.{kind_lot_history, kind_permission, kind_summary};
ghost use Rattle.model.specs.Rows.{most_records, places, rows, whole_records};
ghost use Rattle.model.specs.Sound.{sound};
ghost use Rattle.model.specs.Tally.{book_status};
ghost use Rattle.directory.specs.Listed.{Listed};
ghost use Rattle.by_kind.specs.Chains.{ByKind, NoChains, kind_heads};
ghost use Rattle.by_kind.specs.Kinds.{KindWell, WellBut, WellTo};
ghost use Rattle.by_kind.specs.Says.{Says};
ghost use Rattle.hanging.specs.Slots.{MarkedTo, all_past};

use crate::area::{Large, Middle, Size, Small};
use by_kind::chain::chain;
use by_kind::own::{fit, own, standing};
use directory::build::build;
use hanging::{hang, hung};
use model::Status;
use record::codes::Kind;
use record::row::Grid;

// The kinds behind the trades that do not hang on one, but for the summaries: lot histories and permissions.
fn beside(book: &[u8], dir: &[u16], links: &[u16]) -> bool
    requires listed { Listed book.now dir.now }
    requires by_kind { ByKind book.now links.now 0 }
    ensures { let b = book.now in
        Says result (KindWell b kind_lot_history × KindWell b kind_permission) (sound (rows b)) }
{
    if !own(book, dir, links, Kind::LOT_HISTORY) {
        return false;
    }
    own(book, dir, links, Kind::PERMISSION)
}

// The kinds that hang on a trade, and between them those that do not.
fn hanging(book: &[u8], dir: &[u16], links: &[u16], marks: &mut [u8]) -> bool
    requires listed { Listed book.now dir.now }
    requires by_kind { ByKind book.now links.now 0 }
    requires well_to { WellTo book.now 10 }
    requires marked_to { MarkedTo book.now (10 * 4096) marks.old }
    ensures { let b = book.now in
        Says result (WellBut b kind_summary × MarkedTo b all_past marks.new) (sound (rows b)) }
{
    if !hang(book, dir, links, marks, Kind::REQUEST) {
        return false;
    }
    if !hang(book, dir, links, marks, Kind::TRADE_HISTORY) {
        return false;
    }
    if !hang(book, dir, links, marks, Kind::LOT) {
        return false;
    }
    if !beside(book, dir, links) {
        return false;
    }
    if !hang(book, dir, links, marks, Kind::SETTLEMENT) {
        return false;
    }
    hang(book, dir, links, marks, Kind::CASH)
}

// The summaries, whose sums go by S1 of all rows, and then each trade by its marks.
fn closing(book: &[u8], dir: &[u16], links: &[u16], marks: &[u8]) -> bool
    requires listed { Listed book.now dir.now }
    requires by_kind { ByKind book.now links.now 0 }
    requires well_but { WellBut book.now kind_summary × MarkedTo book.now all_past marks.now }
    ensures { result ≡ sound (rows book.now) }
{
    if !fit(book, links, Kind::SUMMARY) {
        return false;
    }
    if !own(book, dir, links, Kind::SUMMARY) {
        return false;
    }
    hung(book, links, marks)
}

// The book is sound, by its directory and in areas that are lent.
fn judged(book: &[u8], dir: &[u16], links: &mut [u16], marks: &mut [u8]) -> bool
    requires listed { Listed book.now dir.now }
    requires no_chains { NoChains book.now links.old }
    requires marked_to { MarkedTo book.now (10 * 4096) marks.old }
    ensures { result ≡ sound (rows book.now) }
{
    if !chain(book, links) {
        return false;
    }
    if !standing(book, dir, links) {
        return false;
    }
    if !hanging(book, dir, links, marks) {
        return false;
    }
    closing(book, dir, links, marks)
}

// The same in areas of their own, of so many links and marks. Inlined, a call for a small book would pay for the
// largest.
#[inline(never)]
fn judged_in<const LINKS: usize, const MARKS: usize>(book: &[u8], dir: &[u16]) -> bool
    requires listed { Listed book.now dir.now }
    requires links_bound { (kind_heads + places book.now ≤ LINKS) × (LINKS ≤ 32768) }
    requires marks_bound { (8 * places book.now ≤ MARKS) × (MARKS ≤ 32768) }
    ensures { result ≡ sound (rows book.now) }
{
    let none = (book.len() / Grid::SIZE) as u16;
    let mut links = [none; LINKS];
    let mut marks = [0; MARKS];
    judged(book, dir, &mut links, &mut marks)
}

// The book is sound, by its directory.
pub fn sound_by(book: &[u8], dir: &[u16]) -> bool
    requires { Listed book.now dir.now }
    ensures { result ≡ sound (rows book.now) }
{
    match Size::of(book.len() / Grid::SIZE) {
        Size::Small => judged_in::<{ Small::LINKS }, { Small::MARKS }>(book, dir),
        Size::Middle => judged_in::<{ Middle::LINKS }, { Middle::MARKS }>(book, dir),
        Size::Large => judged_in::<{ Large::LINKS }, { Large::MARKS }>(book, dir),
    }
}

// The same by a directory of its own, of so many cells.
#[inline(never)]
fn sound_in<const CELLS: usize>(book: &[u8]) -> bool
    requires book_bound { places book.now ≤ most_records }
    requires cells_bound { (places book.now < CELLS / 2) × (CELLS ≤ 32768) }
    ensures { result ≡ sound (rows book.now) }
{
    let mut dir = [(book.len() / Grid::SIZE) as u16; CELLS];
    build(book, &mut dir);
    sound_by(book, &dir)
}

// The book is sound.
fn sound(book: &[u8]) -> bool
    requires { places book.now ≤ most_records }
    ensures { result ≡ sound (rows book.now) }
{
    match Size::of(book.len() / Grid::SIZE) {
        Size::Small => sound_in::<{ Small::CELLS }>(book),
        Size::Middle => sound_in::<{ Middle::CELLS }>(book),
        Size::Large => sound_in::<{ Large::CELLS }>(book),
    }
}

pub fn whole(n: usize, most: usize) -> bool
    requires { most ≤ most_records }
    ensures { result ≡ whole_records most n }
{
    (Grid::SIZE <= n) & (n % Grid::SIZE == 0) & (n <= most * Grid::SIZE)
}

// The status of any bytes as a book of at most so many records.
pub fn status(book: &[u8], most: usize) -> Status
    requires { most ≤ most_records }
    ensures { result ≡ book_status most book.now }
{
    if !whole(book.len(), most) {
        return Status::BadBook;
    }
    if sound(book) {
        return Status::Done;
    }
    Status::Unsound
}
