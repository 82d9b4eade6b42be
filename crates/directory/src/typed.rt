// The place of a row by what names it, the number of places where there is none. A line for each kind on `named`, which takes
// the kind's names by their types: an impl of a trait for each would be longer.
ghost use Rattle.std.specs.Prelude.{◌≡◌, false, eqb};
ghost use Rattle.laws.specs.Search.{place};
ghost use Rattle.record.specs.Codes.{kind_trade_history};
ghost use Rattle.model.specs.Names.{a_broker, a_cash, a_charge, a_customer, a_permission, a_security, a_settlement};
ghost use Rattle.model.specs.Names.{a_summary, a_tax_rate, a_trade, an_account, key};
ghost use Rattle.model.specs.Rows.{has_key, rows};
ghost use Rattle.chains.specs.Group.{apart};
ghost use Rattle.directory.specs.Listed.{Listed};
ghost use Rattle.directory.specs.Marked.{trimmed};

use crate::find::walk;
use chains::group;
use keys::{Key, marks};
use record::codes::Kind;
use record::symbol::Symbol;
use units::{AccountNo, BrokerNo, CustomerNo, ExecutorNo, RateNo, TradeNo};

// Each search makes a key of what it is asked for, and walks the chain of its group.
fn named(
    book: &[u8],
    dir: &[u16],
    kind: u8,
    form: u8,
    status: u8,
    party: u32,
    id: u64,
    symbol: Symbol,
    n1: u32,
) -> usize
    requires listed { Listed book.now dir.now }
    requires kind_value { (apart kind ≡ false) × (eqb kind kind_trade_history ≡ false) }
    requires n1_value { trimmed (key kind form status party id symbol n1) ≡ key kind form status party id symbol n1 }
    ensures { result ≡ place (has_key (key kind form status party id symbol n1)) (rows book.now) }
{
    let key = Key {
        kind,
        form,
        status,
        flags: 0,
        party,
        id,
        symbol,
        n1,
        m2: 0,
    };
    let from = group::first(
        dir,
        group::of_fields(kind, form, status, 0, party, id, symbol),
    );
    walk(book, dir, marks(kind), key, from)
}

pub fn broker(book: &[u8], dir: &[u16], no: BrokerNo) -> usize
    requires { Listed book.now dir.now }
    ensures { result ≡ place (has_key (a_broker no.0)) (rows book.now) }
{
    named(book, dir, Kind::BROKER, 0, 0, no.0, 0, Symbol::NONE, 0)
}

pub fn customer(book: &[u8], dir: &[u16], no: CustomerNo) -> usize
    requires { Listed book.now dir.now }
    ensures { result ≡ place (has_key (a_customer no.0)) (rows book.now) }
{
    named(book, dir, Kind::CUSTOMER, 0, 0, no.0, 0, Symbol::NONE, 0)
}

pub fn tax_rate(book: &[u8], dir: &[u16], no: RateNo) -> usize
    requires { Listed book.now dir.now }
    ensures { result ≡ place (has_key (a_tax_rate no.0)) (rows book.now) }
{
    named(book, dir, Kind::TAX_RATE, 0, 0, no.0, 0, Symbol::NONE, 0)
}

pub fn account(book: &[u8], dir: &[u16], no: AccountNo) -> usize
    requires { Listed book.now dir.now }
    ensures { result ≡ place (has_key (an_account no.0)) (rows book.now) }
{
    named(book, dir, Kind::ACCOUNT, 0, 0, no.0, 0, Symbol::NONE, 0)
}

pub fn security(book: &[u8], dir: &[u16], symbol: Symbol) -> usize
    requires { Listed book.now dir.now }
    ensures { result ≡ place (has_key (a_security symbol)) (rows book.now) }
{
    named(book, dir, Kind::SECURITY, 0, 0, 0, 0, symbol, 0)
}

pub fn charge(book: &[u8], dir: &[u16], form: u8, tier: u8) -> usize
    requires { Listed book.now dir.now }
    ensures { result ≡ place (has_key (a_charge form tier)) (rows book.now) }
{
    named(book, dir, Kind::CHARGE, form, tier, 0, 0, Symbol::NONE, 0)
}

pub fn trade(book: &[u8], dir: &[u16], no: TradeNo) -> usize
    requires { Listed book.now dir.now }
    ensures { result ≡ place (has_key (a_trade no.0)) (rows book.now) }
{
    named(book, dir, Kind::TRADE, 0, 0, 0, no.0, Symbol::NONE, 0)
}

pub fn settlement(book: &[u8], dir: &[u16], no: TradeNo) -> usize
    requires { Listed book.now dir.now }
    ensures { result ≡ place (has_key (a_settlement no.0)) (rows book.now) }
{
    named(book, dir, Kind::SETTLEMENT, 0, 0, 0, no.0, Symbol::NONE, 0)
}

pub fn cash(book: &[u8], dir: &[u16], no: TradeNo) -> usize
    requires { Listed book.now dir.now }
    ensures { result ≡ place (has_key (a_cash no.0)) (rows book.now) }
{
    named(book, dir, Kind::CASH, 0, 0, 0, no.0, Symbol::NONE, 0)
}

pub fn summary(book: &[u8], dir: &[u16], account: AccountNo, symbol: Symbol) -> usize
    requires { Listed book.now dir.now }
    ensures { result ≡ place (has_key (a_summary account.0 symbol)) (rows book.now) }
{
    named(book, dir, Kind::SUMMARY, 0, 0, account.0, 0, symbol, 0)
}

pub fn permission(book: &[u8], dir: &[u16], account: AccountNo, executor: ExecutorNo) -> usize
    requires { Listed book.now dir.now }
    ensures { result ≡ place (has_key (a_permission account.0 executor.0)) (rows book.now) }
{
    named(
        book,
        dir,
        Kind::PERMISSION,
        0,
        0,
        account.0,
        0,
        Symbol::NONE,
        executor.0,
    )
}
