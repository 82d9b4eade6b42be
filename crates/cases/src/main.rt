// Records, good and bad, put to the field checkers. Standard input has a record to a line, and a line of output says
// of each whether it fits.
#![tactic(auto)]

ghost use Rattle.std.specs.Prelude.{◌≤◌, length};

mod checked;
mod fill;
mod text;

use checked::accepted;
use fill::set_all;
use std::io::Read;
use text::find;

// A good record, and where its name stands in the text.
#[derive(Clone, Copy)]
struct Good {
    bytes: [u8; 64],
    from: usize,
    end: usize,
}

// Output that is not taken changes nothing else: what follows is written, too.
fn show(rt: &impl Print, text: &[u8], from: usize, end: usize)
    requires { (from ≤ end) × (end ≤ length text.now) }
{
    let _ = rt.write_all(&text[from..end]);
}

fn say(rt: &impl Print, fits: bool) {
    let word = if fits { "fits" } else { "refused" };
    let _ = println!(rt; ": {word}");
}

// `NAME: FIELD=VALUE FIELD=VALUE ..`, all other fields zero.
fn whole(rt: &impl Print, text: &[u8], from: usize, colon: usize, end: usize) -> Good
    requires { (from ≤ colon) × ((colon ≤ end) × (end ≤ length text.now)) }
    ensures { (result.from ≤ result.end) × (result.end ≤ length text.now) }
{
    let mut bytes = [0u8; 64];
    set_all(rt, &mut bytes, text, colon + 2, end);
    show(rt, text, from, colon);
    say(rt, accepted(bytes[0], &bytes, from));
    Good {
        bytes,
        from,
        end: colon,
    }
}

// `FIELD=VALUE ..`, all other fields as in the good record.
fn changed(rt: &impl Print, text: &[u8], from: usize, end: usize, g: Good)
    requires from_le_end { (from ≤ end) × (end ≤ length text.now) }
    requires from_le_end_2 { (g.from ≤ g.end) × (g.end ≤ length text.now) }
{
    let mut bytes = g.bytes;
    let kind = bytes[0];
    set_all(rt, &mut bytes, text, from, end);
    show(rt, text, g.from, g.end);
    let _ = print!(rt; ", ");
    show(rt, text, from, end);
    say(rt, accepted(kind, &bytes, from));
}

fn line(rt: &impl Print, text: &[u8], from: usize, end: usize, g: Good) -> Good
    requires from_le_end { (from ≤ end) × (end ≤ length text.now) }
    requires from_le_end_2 { (g.from ≤ g.end) × (g.end ≤ length text.now) }
    ensures { (result.from ≤ result.end) × (result.end ≤ length text.now) }
{
    if from == end {
        return g;
    }
    if text[from] == b'#' {
        return g;
    }
    let sign = find(text, from, end, b'=');
    let colon = find(text, from, sign, b':');
    if colon < sign {
        return whole(rt, text, from, colon, end);
    }
    changed(rt, text, from, end, g);
    g
}

fn run(rt: &impl Print, text: &[u8]) {
    let mut g = Good {
        bytes: [0; 64],
        from: 0,
        end: 0,
    };
    let mut from = 0;
    while from < text.len() {
        let end = find(text, from, text.len(), b'\n');
        g = line(rt, text, from, end, g);
        from = end + 1;
    }
}

// Longer input is cut off here.
const MOST_TEXT: usize = 65_536;

// Reads until the area is full or the input ends, and answers how many bytes it put there. A read that fails ends the
// input: `read_exact` would try again where it was interrupted, and fails where the input is shorter.
fn read_full<R: Read>(input: &mut R, area: &mut [u8]) -> usize
    ensures { result ≤ length area.new }
{
    let mut done = 0;
    while done < area.len() {
        match input.read(&mut area[done..]) {
            Ok(0) => break,
            Ok(n) => done += n,
            Err(_) => break,
        }
    }
    done
}

fn main(rt: HostRuntime) {
    let mut text = [0u8; MOST_TEXT];
    let n = read_full(&mut rt.stdin(), &mut text);
    run(&rt, &text[..n]);
}
