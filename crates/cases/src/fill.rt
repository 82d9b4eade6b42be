// The bytes of a record from a text of its fields.
ghost use Rattle.std.specs.Prelude.{◌+◌, ◌<◌, ◌≤◌, length};

use crate::text::{find, number};
use record::row::put;

#[derive(Clone, Copy)]
struct Place(usize, usize);

// The first byte of a field and how many it has, by the field's name. The symbol is none of these: it is no number.
fn place_of(rt: &impl Print, name: &[u8]) -> Place
    ensures { result.0 + result.1 ≤ 64 }
{
    match name {
        b"kind" => Place(0, 1),
        b"type" => Place(1, 1),
        b"status" => Place(2, 1),
        b"flags" => Place(3, 1),
        b"party" => Place(4, 4),
        b"id" => Place(8, 8),
        b"n1" => Place(24, 4),
        b"n2" => Place(28, 4),
        b"n3" => Place(32, 4),
        b"n4" => Place(36, 4),
        b"m1" => Place(40, 8),
        b"m2" => Place(48, 8),
        b"time" => Place(56, 4),
        b"n5" => Place(60, 4),
        _ => {
            let _ = print!(rt; "no field of this name: ");
            Place(0, 0)
        }
    }
}

// A byte of a symbol; a zero is written as a low line.
fn letter(b: u8) -> u8 {
    if b == b'_' { 0 } else { b }
}

// The eight bytes of a symbol, zeros after those in the text.
fn put_symbol(bytes: &mut [u8; 64], text: &[u8]) {
    for i in 0..8 {
        bytes[16 + i] = if i < text.len() { letter(text[i]) } else { 0 };
    }
}

fn set(rt: &impl Print, bytes: &mut [u8; 64], name: &[u8], value: &[u8]) {
    match name {
        b"symbol" => put_symbol(bytes, value),
        _ => {
            let p = place_of(rt, name);
            put(bytes, p.0, p.1, number(value, 0, value.len()));
        }
    }
}

// `FIELD=VALUE`, up to a space or the end; the answer is where the next begins.
fn set_one(rt: &impl Print, bytes: &mut [u8; 64], text: &[u8], from: usize, end: usize) -> usize
    requires { (from < end) × (end ≤ length text.now) }
    ensures { from < result }
{
    let sign = find(text, from, end, b'=');
    let stop = find(text, sign, end, b' ');
    if sign < stop {
        let a = sign + 1;
        set(rt, bytes, &text[from..sign], &text[a..stop]);
    }
    stop + 1
}

// The fields that the text names.
pub fn set_all(rt: &impl Print, bytes: &mut [u8; 64], text: &[u8], from: usize, end: usize)
    requires { end ≤ length text.now }
{
    let mut i = from;
    while i < end {
        i = set_one(rt, bytes, text, i, end);
    }
}
