// A row added at the lowest free place, changed in its place, or freed: book and directory together.
#![tactic(auto)]

ghost use Rattle.std.specs.Prelude.{◌≡◌, false, true, ◌+◌, ◌-◌, ◌<◌, ◌≤◌, max, set};
ghost use Rattle.record.specs.Codes.{kind_free};
ghost use Rattle.model.specs.Order.{trade_id};
ghost use Rattle.model.specs.Rows.{is, nothing, rows};
ghost use Rattle.places.specs.Rows.{free_from, put_at, row_at};
ghost use Rattle.chains.specs.Chains.{half};
ghost use Rattle.directory.specs.Directory.{Directory};
ghost use Rattle.chains.specs.Group.{group_of};
ghost use Rattle.directory.specs.Listed.{Listed, places};
ghost use Rattle.upkeep.specs.Moves.{Leads, Without};

use chains::chain::{before, first, link, unlink};
use chains::group;
use directory::totals::{Totals, raised};
use places::place::{nothing, row_at};
use places::put::put;
use record::codes::Kind;
use record::row::Row;

// The lowest free place, the number of places where there is none.
pub fn lowest(book: &[u8], dir: &[u16]) -> usize
    requires { Listed book.now dir.now }
    ensures { result ≡ free_from (rows book.now) 0 }
{
    first(dir, dir.len() / 2 - 1)
}

// Takes the lowest free place, of which there is one, out of its chain: it is the first there.
fn take(book: &[u8], dir: &mut [u16]) -> usize
    requires listed { Listed book.now dir.old }
    requires book_bound { free_from (rows book.now) 0 < places book.now }
    ensures { (result ≡ free_from (rows book.now) 0) × Without book.now dir.new result }
{
    let last = dir.len() / 2 - 1;
    let at = first(dir, last);
    unlink(dir, last, at);
    at
}

// Takes a place out of its chain.
fn leave(book: &[u8], dir: &mut [u16], at: usize)
    requires listed { Listed book.now dir.old }
    requires at_bound { at < places book.now }
    ensures { Without book.now dir.new at }
{
    let bucket = group::bucket(dir.len() / 2, group::of(row_at(book, at)));
    let x = before(dir, bucket, at);
    unlink(dir, x, at);
}

// Puts a place that is in no chain into that of its row. It differs from `leave` in the step itself.
fn enter(book: &[u8], dir: &mut [u16], at: usize)
    requires { Without book.now dir.old at }
    ensures { Listed book.now dir.new }
{
    let bucket = group::bucket(dir.len() / 2, group::of(row_at(book, at)));
    let x = before(dir, bucket, at);
    link(dir, x, at);
}

// The link of the nearest free place below `at`, the head of the free places where there is none.
fn below(book: &[u8], dir: &[u16], at: usize) -> usize
    requires { Without book.now dir.now at }
    ensures { let d = dir.now in
        Leads book.now d (half d - 1) at result }
{
    let heads = dir.len() / 2;
    for q in (0..at).rev() {
        if row_at(book, q).kind == Kind::FREE {
            return heads + q;
        }
    }
    heads - 1
}

// Puts a free place that is in no chain into that of the free places. Where it is the lowest no row is looked at.
fn enter_free(book: &[u8], dir: &mut [u16], at: usize)
    requires without { Without book.now dir.old at }
    requires at_value { is kind_free (row_at book.now at) ≡ true }
    ensures { Listed book.now dir.new }
{
    let last = dir.len() / 2 - 1;
    if at <= first(dir, last) {
        link(dir, last, at);
        return;
    }
    let cell = below(book, dir, at);
    link(dir, cell, at);
}

// Adds a row at the lowest free place.
pub fn add(book: &mut [u8], dir: &mut [u16], t: Totals, row: Row) -> Totals
    requires directory { Directory book.old dir.old t }
    requires le_free { (1 ≤ t.free) × (is kind_free row ≡ false) }
    ensures fact { let b = book.old in
        let p = free_from (rows b) 0 in
        (book.new ≡ put_at b p row) × (rows book.new ≡ set (rows b) p row) }
    ensures directory_2 { Directory book.new dir.new result }
    ensures free_value { (result.free + 1 ≡ t.free) × (result.largest.0 ≡ max t.largest.0 (trade_id row)) }
{
    let at = take(book, dir);
    put(book, at, row);
    enter(book, dir, at);
    Totals {
        free: t.free - 1,
        largest: raised(t.largest, row),
    }
}

// Changes a row in its place; it stays in its group. The directory stays as it is.
pub fn change(book: &mut [u8], dir: &[u16], t: Totals, at: usize, row: Row)
    requires directory { Directory book.old dir.now t }
    requires row_value { group_of row ≡ group_of (row_at book.old at) }
    ensures book_after { (book.new ≡ put_at book.old at row)
        × (rows book.new ≡ set (rows book.old) at row) }
    ensures directory_2 { Directory book.new dir.now t }
{
    put(book, at, row);
}

// Frees a place whose row is not the trade of the largest number.
pub fn free(book: &mut [u8], dir: &mut [u16], t: Totals, at: usize) -> Totals
    requires directory { Directory book.old dir.old t }
    requires at_value { is kind_free (row_at book.old at) ≡ false }
    requires at_bound { trade_id (row_at book.old at) ≤ t.largest.0 - 1 }
    ensures book_after { (book.new ≡ put_at book.old at nothing)
        × (rows book.new ≡ set (rows book.old) at nothing) }
    ensures directory_2 { Directory book.new dir.new result }
    ensures free_value { (result.free ≡ t.free + 1) × (result.largest ≡ t.largest) }
{
    leave(book, dir, at);
    put(book, at, nothing());
    enter_free(book, dir, at);
    let largest = t.largest;
    Totals {
        free: t.free + 1,
        largest,
    }
}
