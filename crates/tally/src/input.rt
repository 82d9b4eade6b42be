// The bytes of an input, as many as an area has room for.
ghost use Rattle.std.specs.Prelude.{◌≤◌, length, take};
ghost use Rattle.std.specs.Io.KnownBytes.{Consumes};

use std::io::Read;

// Reads until the area is full or the input ends, and answers how many bytes it put at the area's front: the input's
// next ones, none left out. A read that fails ends the input: `read_exact` would try again where it was interrupted,
// and fails where the input is shorter.
pub fn read_full<R: Read>(input: &mut R, area: &mut [u8]) -> usize
    ensures fits { result ≤ length area.new }
    ensures taken { Consumes (R.remaining input.old) (R.remaining input.new) (take result area.new) }
{
    let mut done = 0;
    while done < area.len() {
        match input.read(&mut area[done..]) {
            Ok(0) => break,
            Ok(n) => done += n,
            Err(_) => break,
        }
    }
    done
}
