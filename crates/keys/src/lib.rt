// A row's key: its kind and the fields that name it, all other fields zero. Keys are ordered by kind and then by their
// fields in the order of their bytes.
#![tactic(auto)]

ghost use Rattle.std.specs.Prelude.{◌≡◌, cond, ltb};
ghost use Rattle.keys.specs.Key.{key_number, key_of, same_key};
ghost use Rattle.keys.specs.Marks.{all_keys, marked_by, marks_of, trading_keys};

use kinds::limits::Marks;
use kinds::rows::{
    Account, Band, Broker, Cash, Charge, Customer, CustomerRate, Lot, LotHistory, Permission,
    Request, Security, Settlement, Summary, TaxRate, Trade, TradeHistory,
};
use record::codes::Kind;
use record::row::Row;
use record::symbol::Symbol;

#[derive(Clone, Copy, PartialEq, Eq, PartialOrd, Ord)]
pub struct Key {
    pub kind: u8,
    pub form: u8,
    pub status: u8,
    pub flags: u8,
    pub party: u32,
    pub id: u64,
    pub symbol: Symbol,
    pub n1: u32,
    pub m2: u64,
}

// A field where the key has it, else what stands for none.
pub fn kept<T: Copy>(named: bool, x: T, none: T) -> T
    ensures { result ≡ cond named x none }
{
    if named { x } else { none }
}

// The marks of a kind where it is this one, or those before.
fn or(is: bool, marks: Marks, before: Marks) -> Marks
    ensures { result ≡ marked_by is marks before }
{
    Marks {
        form: (marks.form & is) | before.form,
        status: (marks.status & is) | before.status,
        flags: (marks.flags & is) | before.flags,
        party: (marks.party & is) | before.party,
        id: (marks.id & is) | before.id,
        symbol: (marks.symbol & is) | before.symbol,
        n1: (marks.n1 & is) | before.n1,
        m2: (marks.m2 & is) | before.m2,
    }
}

// The marks of what trade leaves, and of the kinds behind that in the table.
fn trading(k: u8) -> Marks
    ensures { result ≡ marks_of k trading_keys }
{
    let m = or(k == Kind::PERMISSION, Permission::KEY, Marks::NONE);
    let m = or(k == Kind::CASH, Cash::KEY, m);
    let m = or(k == Kind::SETTLEMENT, Settlement::KEY, m);
    let m = or(k == Kind::LOT_HISTORY, LotHistory::KEY, m);
    let m = or(k == Kind::SUMMARY, Summary::KEY, m);
    let m = or(k == Kind::LOT, Lot::KEY, m);
    let m = or(k == Kind::TRADE_HISTORY, TradeHistory::KEY, m);
    let m = or(k == Kind::REQUEST, Request::KEY, m);
    or(k == Kind::TRADE, Trade::KEY, m)
}

// The fields of a kind's key: a test for each kind and no branch.
pub fn marks(k: u8) -> Marks
    ensures { result ≡ marks_of k all_keys }
{
    let m = trading(k);
    let m = or(k == Kind::CHARGE, Charge::KEY, m);
    let m = or(k == Kind::BAND, Band::KEY, m);
    let m = or(k == Kind::SECURITY, Security::KEY, m);
    let m = or(k == Kind::ACCOUNT, Account::KEY, m);
    let m = or(k == Kind::CUSTOMER_RATE, CustomerRate::KEY, m);
    let m = or(k == Kind::TAX_RATE, TaxRate::KEY, m);
    let m = or(k == Kind::CUSTOMER, Customer::KEY, m);
    or(k == Kind::BROKER, Broker::KEY, m)
}

impl Key {
    pub fn of(row: Row) -> Key
        ensures { result ≡ key_of row }
    {
        let k = row.kind;
        let m = marks(k);
        Key {
            kind: k,
            form: kept(m.form, row.form, 0),
            status: kept(m.status, row.status, 0),
            flags: kept(m.flags, row.flags, 0),
            party: kept(m.party, row.party, 0),
            id: kept(m.id, row.id, 0),
            symbol: kept(m.symbol, row.symbol, Symbol::NONE),
            n1: kept(m.n1, row.n1, 0),
            m2: kept(m.m2, row.m2, 0),
        }
    }

    #[tactic(auto, unfolding(crate::specs::Key::same_key, record::specs::Symbol::same_symbol))]
    pub fn same(self, other: Key) -> bool
        ensures { result ≡ same_key self other }
    {
        self == other
    }

    // The fields stand in the order that keys go by.
    pub fn less(self, other: Key) -> bool
        ensures { result ≡ ltb (key_number self) (key_number other) }
    {
        self < other
    }
}
