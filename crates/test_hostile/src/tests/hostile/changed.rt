//! A job file of which one byte is another.

use crate::tests::hostile::{Around, Text, Tried, check_tried, four};
use test_texts::CHAIN;

/// The bytes that stand in the place of each, and what they are called.
const BYTES: [(&str, &[u8]); 3] = [("byte 0", b"\0"), ("byte 255", b"\xff"), ("a quote", b"\"")];

/// The chain with this byte at a place.
pub fn around_at(place: usize, byte: &'static [u8]) -> Around<'static> {
    let chain = CHAIN.as_bytes();
    Around {
        job: Text {
            head: chain.get(..place).unwrap_or(chain),
            piece: byte,
            times: 1,
            rest: chain.get(place.saturating_add(1)..).unwrap_or(&[]),
        },
        ..four()
    }
}

/// The status if this byte stands at a place: 0 if it stood there before, and else 2.
pub fn status_at(place: usize, byte: &[u8]) -> u8 {
    if CHAIN.as_bytes().get(place) == byte.first() {
        0
    } else {
        2
    }
}

#[test]
fn each_byte_of_a_job_file_is_changed(rt: HostRuntime) {
    for (what, byte) in BYTES {
        check_tried(&rt, what, Tried::Changed(byte));
    }
}
