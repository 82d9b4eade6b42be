// The group of a row, and its bucket in a directory of so many heads. Rows of one group share a chain: it leaves out
// what the rates of a customer, the permissions of an account, the bands of a type, tier and exchange and the histories
// of a trade differ in. A lot is grouped by its account and symbol, a request by its symbol. Which bucket it is matters
// for speed alone.
ghost use Rattle.std.specs.Prelude.{◌≡◌, ◌||◌, false, ◌<◌, ◌≤◌, eqb, get_or};
ghost use Rattle.record.specs.Codes.{kind_band, kind_charge, kind_customer_rate};
ghost use Rattle.record.specs.Symbol.{no_symbol};
ghost use Rattle.chains.specs.Chains.{half};
ghost use Rattle.chains.specs.Group.{a_group, bucket_of, group_of, hash_of, key_group, letters, lot_group, most_heads};
ghost use Rattle.chains.specs.Group.{request_group, spread};

use crate::chain;
use keys::{Key, kept, marks};
use record::codes::Kind;
use record::row::Row;
use record::symbol::Symbol;
use units::{AccountNo, CustomerNo};

// Both halves of a number tell: trades may be numbered in either.
fn spread(id: u64) -> u64
    ensures { (result ≡ spread id) × (result < 4611686018427387904) }
{
    id % 4_294_967_296 * 511_659_861 + id / 4_294_967_296 * 496_329_549
}

fn letters(symbol: Symbol) -> u64
    ensures { (result ≡ letters symbol) × (result < 4611686018427387904) }
{
    let x = symbol.0;
    x / 4_294_967_296 * 530_544_139 + x % 4_294_967_296 * 335_384_881
}

fn hash(group: Key) -> u64
    ensures { (result ≡ hash_of group) × (result < 4294967296) }
{
    let name = u64::from(group.kind)
        + u64::from(group.form) * 256
        + u64::from(group.status) * 65_536
        + u64::from(group.flags) * 16_777_216;
    let mixed = name * 331_315_835
        + u64::from(group.party) * 428_851_817
        + spread(group.id)
        + letters(group.symbol);
    mixed % 4_294_967_296
}

// The free rows have the last bucket to themselves.
pub fn bucket(heads: usize, group: Key) -> usize
    requires { (1 ≤ heads) × (heads ≤ most_heads) }
    ensures { (result ≡ bucket_of heads group) × (result < heads) }
{
    if group.kind == Kind::FREE {
        return heads - 1;
    }
    let others = (heads - 1) as u64;
    (hash(group) * others / 4_294_967_296) as usize
}

// The first place of a group's bucket.
pub fn first(dir: &[u16], group: Key) -> usize
    requires { (1 ≤ half dir.now) × (half dir.now ≤ most_heads) }
    ensures { result ≡ get_or dir.now (bucket_of (half dir.now) group) 0 }
{
    chain::first(dir, bucket(dir.len() / 2, group))
}

// The group that these fields name; those that it has not are 0.
pub fn of_fields(
    kind: u8,
    form: u8,
    status: u8,
    flags: u8,
    party: u32,
    id: u64,
    symbol: Symbol,
) -> Key
    ensures { result ≡ a_group kind form status flags party id symbol }
{
    Key {
        kind,
        form,
        status,
        flags,
        party,
        id,
        symbol,
        n1: 0,
        m2: 0,
    }
}

// The lots of a holding.
pub fn lots_of(account: AccountNo, symbol: Symbol) -> Key
    ensures { result ≡ lot_group account.0 symbol }
{
    of_fields(Kind::LOT, 0, 0, 0, account.0, 0, symbol)
}

// The requests for a security.
pub fn requests_of(symbol: Symbol) -> Key
    ensures { result ≡ request_group symbol }
{
    of_fields(Kind::REQUEST, 0, 0, 0, 0, 0, symbol)
}

// The rates of a customer.
pub fn rates_of(customer: CustomerNo) -> Key
    ensures { result ≡ a_group kind_customer_rate 0 0 0 customer.0 0 no_symbol }
{
    of_fields(Kind::CUSTOMER_RATE, 0, 0, 0, customer.0, 0, Symbol::NONE)
}

// The bands of a type, tier and exchange.
pub fn bands_of(form: u8, tier: u8, exchange: u8) -> Key
    ensures { result ≡ a_group kind_band form tier exchange 0 0 no_symbol }
{
    of_fields(Kind::BAND, form, tier, exchange, 0, 0, Symbol::NONE)
}

// The group of the rows of a key that is no lot's and no request's.
fn of_key(key: Key) -> Key
    ensures { result ≡ key_group key }
{
    if key.kind == Kind::TRADE_HISTORY {
        return of_fields(
            key.kind, key.form, 0, key.flags, key.party, key.id, key.symbol,
        );
    }
    of_fields(
        key.kind, key.form, key.status, key.flags, key.party, key.id, key.symbol,
    )
}

// The group of a row that is neither a band nor a charge, without a branch: the fields of its key, but for a lot
// and a request.
fn common(row: Row) -> Key
    requires { (eqb row.kind kind_band || eqb row.kind kind_charge) ≡ false }
    ensures { result ≡ group_of row }
{
    let kind = row.kind;
    let m = marks(kind);
    let lot = kind == Kind::LOT;
    let apart = lot | (kind == Kind::REQUEST);
    let party = kept(m.party | lot, row.party, 0);
    let id = kept(m.id & !apart, row.id, 0);
    let symbol = kept(m.symbol | apart, row.symbol, Symbol::NONE);
    of_fields(kind, 0, 0, 0, party, id, symbol)
}

pub fn of(row: Row) -> Key
    ensures { result ≡ group_of row }
{
    if (row.kind == Kind::BAND) | (row.kind == Kind::CHARGE) {
        return of_key(Key::of(row));
    }
    common(row)
}
