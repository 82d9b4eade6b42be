// What no clause says: when reading stops.
use crate::input::read_full;
use std::io::{Error, Read, Result};

// Gives a byte at each read, its number, and fails at one of them.
#[derive(Drop)]
struct Faulty {
    reads: u8,
    fault: u8,
}

impl Read for Faulty {
    fn read(&mut self, buf: &mut [u8]) -> Result<usize> {
        self.reads = self.reads.wrapping_add(1);
        if self.reads == self.fault {
            return Err(Error::other("no more"));
        }
        if buf.is_empty() {
            return Ok(0);
        }
        buf[0] = self.reads;
        Ok(1)
    }
}

#[test]
fn a_full_area_or_the_end_stops(rt: HostRuntime) {
    let mut input = (&b"abc"[..]).chain(&b"def"[..]);
    let mut area = [0u8; 4];
    assert_eq!(rt; read_full(&mut input, &mut area), 4);
    assert_eq!(rt; &area, b"abcd");
    assert_eq!(rt; read_full(&mut input, &mut area), 2);
    assert_eq!(rt; &area, b"efcd");
    assert_eq!(rt; read_full(&mut input, &mut area), 0);
}

#[test]
fn a_failed_read_ends_the_input(rt: HostRuntime) {
    let mut input = Faulty { reads: 0, fault: 3 };
    let mut area = [9u8; 4];
    assert_eq!(rt; read_full(&mut input, &mut area), 2);
    assert_eq!(rt; area, [1, 2, 9, 9]);
}
