// The requests on a symbol, in turn.
ghost use Rattle.std.specs.Prelude.{◌≡◌, true, ◌+◌, ◌<◌, drop};
ghost use Rattle.laws.specs.Search.{place, seek};
ghost use Rattle.model.specs.Rows.{places, rows};
ghost use Rattle.places.specs.Rows.{row_at};
ghost use Rattle.directory.specs.Listed.{Listed};
ghost use Rattle.groups.specs.Sums.{request_on};

use crate::turn::{first_of, next_of};
use chains::group;
use kinds::rows::Request;
use kinds::typed::Typed;
use places::place::part;
use record::codes::Kind;
use record::row::Grid;
use record::symbol::Symbol;

// The record at a place is a request on a symbol.
pub fn asked(book: &[u8], symbol: Symbol, at: usize) -> bool
    requires { at < places book.now }
    ensures { result ≡ request_on symbol (row_at book.now at) }
{
    let record = part(book, at);
    let request = Request::from_bytes(record);
    (record[Grid::KIND] == Kind::REQUEST) & (request.symbol == symbol)
}

// The place of the first request, the number of places where there is none.
pub fn first_request(book: &[u8], dir: &[u16], symbol: Symbol) -> usize
    requires { Listed book.now dir.now }
    ensures { result ≡ place (request_on symbol) (rows book.now) }
{
    first_of(book, dir, group::requests_of(symbol))
}

// The place of the next request after one, the number of places where there is none.
pub fn next_request(book: &[u8], dir: &[u16], symbol: Symbol, at: usize) -> usize
    requires listed { Listed book.now dir.now }
    requires at_bound { (at < places book.now) × (request_on symbol (row_at book.now at) ≡ true) }
    ensures { result ≡ seek (request_on symbol) (at + 1) (drop (at + 1) (rows book.now)) }
{
    next_of(book, dir, group::requests_of(symbol), at)
}
