// A record handed to its checker, not at the front of its area and with other bytes around it.
ghost use Rattle.std.specs.Prelude.{◌≡◌, ◌+◌, ◌≤◌, length};

use record::codes::Kind;

// The checker of the inputs of a kind, or of rows.
fn judged(kind: u8, part: &[u8]) -> bool
    requires { length part.now ≡ 64 }
{
    match kind {
        Kind::ORDER => inputs::is_order(part),
        Kind::RESULT => inputs::is_result(part),
        Kind::FEED => inputs::all_feed(part),
        Kind::LOOKUP => inputs::all_lookup(part),
        _ => fields::fits(part),
    }
}

fn copy_in(area: &mut [u8], at: usize, bytes: &[u8; 64])
    requires { at + 64 ≤ length area.old }
{
    area[at..at + 64].copy_from_slice(bytes);
}

fn judged_at(kind: u8, area: &mut [u8], at: usize, bytes: &[u8; 64]) -> bool
    requires { at + 64 ≤ length area.old }
{
    copy_in(area, at, bytes);
    let end = at + 64;
    judged(kind, &area[at..end])
}

// The place in the area goes by `turn`.
pub fn accepted(kind: u8, bytes: &[u8; 64], turn: usize) -> bool {
    let mut area = [165u8; 192];
    judged_at(kind, &mut area, 1 + turn % 127, bytes)
}
