// What a feed is refused for, told from the book at entry, and which entry is the first to hit a request.
ghost use Rattle.std.specs.Prelude.{◌≡◌, true, ℕ, ◌<◌, ◌≤◌, leb, length, take};
ghost use Rattle.laws.specs.Search.{count, every, total};
ghost use Rattle.record.specs.Signed.{up};
ghost use Rattle.record.specs.declared.row.Row.{Row};
ghost use Rattle.units.specs.declared.Shares.{Shares};
ghost use Rattle.rules.specs.Ranges.{volume};
ghost use Rattle.model.specs.Call.{most_inputs};
ghost use Rattle.model.specs.Rows.{found, rows, there, whole_records};
ghost use Rattle.model.specs.Names.{a_security};
ghost use Rattle.model.specs.Plan.{verdict};
ghost use Rattle.model.specs.Feed.{checks};
ghost use Rattle.model.specs.Sound.{sound};
ghost use Rattle.facts.specs.Feed.{shares_for};
ghost use Rattle.places.specs.Rows.{row_at};
ghost use Rattle.reply.specs.Ending.{Refuses, ended};
ghost use Rattle.directory.specs.Directory.{Directory};
ghost use Rattle.directory.specs.Listed.{Listed, places};
ghost use Rattle.hits.specs.Hits.{any_reaches, due, first_hit, reaches};
ghost use Rattle.hits.specs.Judge.{Counts, Many, entries_most, entry_most, shares_in, shares_on};
ghost use Rattle.hits.specs.Judge.{all_known, volume_fits};

use directory::build::places;
use directory::totals::Totals;
use directory::typed::security;
use kinds::inputs::FeedInput;
use kinds::limits::Ranges;
use kinds::rows::{Request, Security};
use model::Status;
use places::each::every;
use places::place::typed_at;
use record::codes::TradeType;
use record::symbol::Symbol;
use reply::check;
use units::{Amount, Shares};

// The entry is on the request's symbol and reaches its bid.
pub fn hits(entry: FeedInput, request: Request) -> bool
    ensures { result ≡ reaches entry request }
{
    let form = request.trade_type;
    let price = entry.price.0;
    let bid = request.bid.0;
    let below = ((form == TradeType::TLB) | (form == TradeType::TSL)) & (price <= bid);
    let above = (form == TradeType::TLS) & (bid <= price);
    (request.symbol == entry.symbol) & (below | above)
}

// One of the first k entries hits the request.
fn hit_before(input: &[u8], k: usize, request: Request) -> bool
    requires { k ≤ places input.now }
    ensures { result ≡ any_reaches (take k (rows input.now)) request }
{
    for i in 0..k {
        if hits(typed_at::<FeedInput>(input, i), request) {
            return true;
        }
    }
    false
}

// The entry numbered i is the first that hits the request at a place.
pub fn first_hit(book: &[u8], input: &[u8], i: usize, place: usize) -> bool
    requires { i < places input.now }
    ensures { result ≡ first_hit (rows input.now) i (row_at book.now place) }
{
    let request = typed_at::<Request>(book, place);
    if hits(typed_at::<FeedInput>(input, i), request) {
        return !hit_before(input, i, request);
    }
    false
}

// The security of the entry at a place is there.
fn known(book: &[u8], dir: &[u16], input: &[u8], i: usize) -> bool
    requires { Listed book.now dir.now }
    ensures { result ≡ there (a_security (row_at input.now i).symbol) (rows book.now) }
{
    security(book, dir, typed_at::<FeedInput>(input, i).symbol) < places(book)
}

// Every entry's security is there.
fn all_known(book: &[u8], dir: &[u16], input: &[u8]) -> bool
    requires { Listed book.now dir.now }
    ensures { result ≡ all_known (rows book.now) (rows input.now) }
{
    every(input, |i| known(book, dir, input, i))
}

// The shares of the entry at a place.
fn shares_of(input: &[u8], i: usize) -> Shares
    ensures { Many entry_most (row_at input.now i).n2 result }
{
    typed_at::<FeedInput>(input, i).shares
}

// The same, if the entry is on the symbol.
fn shares_at(input: &[u8], symbol: Symbol, i: usize) -> Shares
    ensures { Many entry_most (shares_on symbol (row_at input.now i)) result }
{
    let entry = typed_at::<FeedInput>(input, i);
    if entry.symbol == symbol {
        entry.shares
    } else {
        Shares(0)
    }
}

// The sum of the shares that are told of each entry, by its place.
fn sum<F: Fn(usize) -> Shares>(input: &[u8], shares: F) -> Shares
    requires callable { F.IsAlwaysCallable shares }
    requires input_value { whole_records most_inputs (length input.now) ≡ true }
    requires small { (i : ℕ) (x : Shares) → F.post shares i x → Many entry_most (up x.0) x }
    ensures { (f : Row → ℕ) → Counts (F.post shares) input.now f →
        Many entries_most (total f (rows input.now)) result }
{
    let mut sum = Shares(0);
    for i in 0..places(input) {
        sum = sum.plus(shares(i));
    }
    sum
}

// The shares of the entries on a symbol.
fn shares_for(input: &[u8], symbol: Symbol) -> Shares
    requires { whole_records most_inputs (length input.now) ≡ true }
    ensures { Many entries_most (shares_for symbol (rows input.now)) result }
{
    sum(input, |i| shares_at(input, symbol, i))
}

// The shares of all entries.
fn shares_in(input: &[u8]) -> Shares
    requires { whole_records most_inputs (length input.now) ≡ true }
    ensures { Many entries_most (shares_in (rows input.now)) result }
{
    sum(input, |i| shares_of(input, i))
}

// The volume of a security, 0 where it is not there.
fn volume_of(book: &[u8], dir: &[u16], symbol: Symbol) -> Shares
    requires { Listed book.now dir.now × (sound (rows book.now) ≡ true) }
    ensures { Many volume.high (found (a_security symbol) (rows book.now)).m1 result }
{
    typed_at::<Security>(book, security(book, dir, symbol)).volume
}

// A volume is in its range.
fn in_range(after: Shares) -> bool
    ensures { result ≡ leb (up after.0) volume.high }
{
    after.plain() <= Ranges::VOLUME_MOST
}

// The volume of the security of the entry at a place stays in its range. The shares on its symbol are summed only
// where those of all entries might be too many.
fn volume_fits(book: &[u8], dir: &[u16], input: &[u8], all: Shares, i: usize) -> bool
    requires listed { Listed book.now dir.now × (sound (rows book.now) ≡ true) }
    requires input_value { whole_records most_inputs (length input.now) ≡ true }
    requires many { Many entries_most (shares_in (rows input.now)) all }
    ensures { let entries = input.now in
        result ≡ volume_fits (rows book.now) (rows entries) (row_at entries i) }
{
    let symbol = typed_at::<FeedInput>(input, i).symbol;
    let before = volume_of(book, dir, symbol);
    if in_range(before.plus(all)) {
        return true;
    }
    in_range(before.plus(shares_for(input, symbol)))
}

fn volumes_fit(book: &[u8], dir: &[u16], input: &[u8]) -> bool
    requires listed { Listed book.now dir.now × (sound (rows book.now) ≡ true) }
    requires input_value { whole_records most_inputs (length input.now) ≡ true }
    ensures { let entries = rows input.now in
        result ≡ every (volume_fits (rows book.now) entries) entries }
{
    let all = shares_in(input);
    every(input, |i| volume_fits(book, dir, input, all, i))
}

// The checks of the rules, one after the other, of a feed that submits so many trades.
pub fn judge(book: &[u8], dir: &[u16], t: Totals, input: &[u8], trades: usize) -> Result<(), Status>
    requires directory { Directory book.now dir.now t }
    requires input_value { whole_records most_inputs (length input.now) ≡ true }
    requires book_value { sound (rows book.now) ≡ true }
    requires trades_value { trades ≡ count (due (rows input.now)) (rows book.now) }
    ensures value { ended result ≡ verdict (checks (rows book.now) (rows input.now)) }
    ensures refusal { Refuses result }
{
    check(all_known(book, dir, input), Status::FeedNoSecurity)?;
    check(volumes_fit(book, dir, input), Status::OverLimit)?;
    check(trades <= t.free, Status::NoRoom)
}
