// S3: what a row names is in the book.
ghost use Rattle.std.specs.Prelude.{◌≡◌, ◌&&◌, ◌<◌};
ghost use Rattle.model.specs.Names.{a_broker, a_customer, a_security, a_tax_rate, an_account};
ghost use Rattle.model.specs.Rows.{places, rows, there};
ghost use Rattle.places.specs.Rows.{row_at};
ghost use Rattle.directory.specs.Listed.{Listed};

use directory::typed;
use kinds::rows::{Account, CustomerRate, Permission};
use kinds::typed::Typed;
use places::place::part;
use record::row::Grid;
use record::symbol::Symbol;
use units::AccountNo;

// What the customer's rate at a place names.
pub fn rated(book: &[u8], dir: &[u16], i: usize) -> bool
    requires { Listed book.now dir.now × (i < places book.now) }
    ensures { let rs = rows book.now in
        let row = row_at book.now i in
        result ≡ (there (a_customer row.party) rs && there (a_tax_rate row.n1) rs) }
{
    let n = book.len() / Grid::SIZE;
    let row = CustomerRate::from_bytes(part(book, i));
    (typed::customer(book, dir, row.customer) < n) & (typed::tax_rate(book, dir, row.rate) < n)
}

// What the account at a place names.
pub fn served(book: &[u8], dir: &[u16], i: usize) -> bool
    requires { Listed book.now dir.now × (i < places book.now) }
    ensures { let rs = rows book.now in
        let row = row_at book.now i in
        result ≡ (there (a_broker row.n1) rs && there (a_customer row.n2) rs) }
{
    let n = book.len() / Grid::SIZE;
    let row = Account::from_bytes(part(book, i));
    (typed::broker(book, dir, row.broker) < n) & (typed::customer(book, dir, row.customer) < n)
}

// What the permission at a place names.
pub fn granted(book: &[u8], dir: &[u16], i: usize) -> bool
    requires { Listed book.now dir.now × (i < places book.now) }
    ensures { let rs = rows book.now in
        result ≡ there (an_account (row_at book.now i).party) rs }
{
    let row = Permission::from_bytes(part(book, i));
    typed::account(book, dir, row.account) < book.len() / Grid::SIZE
}

// What a summary names.
pub fn traded(book: &[u8], dir: &[u16], account: AccountNo, symbol: Symbol) -> bool
    requires { Listed book.now dir.now }
    ensures { let rs = rows book.now in
        result ≡ (there (an_account account.0) rs && there (a_security symbol) rs) }
{
    let n = book.len() / Grid::SIZE;
    (typed::account(book, dir, account) < n) & (typed::security(book, dir, symbol) < n)
}
