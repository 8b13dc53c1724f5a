// Reads from an input that gives messages: what a read has no room for is lost.
use crate::{MOST, read_front};
use inspect::block::BLOCK;
use std::io;
use std::io::Read;

// The lengths of the messages that are still to come; after the last the input is at its end.
#[derive(Drop)]
struct Messages<'a> {
    lengths: &'a [usize],
}

// What a message has at this place. Its blocks are all alike, so whole blocks that are joined are a message too.
fn byte_at(place: usize) -> u8 {
    (place % 256) as u8
}

impl Read for Messages<'_> {
    fn read(&mut self, buf: &mut [u8]) -> io::Result<usize> {
        let Some((length, later)) = self.lengths.split_first() else {
            return Ok(0);
        };
        self.lengths = later;
        for (place, byte) in buf.iter_mut().take(*length).enumerate() {
            *byte = byte_at(place);
        }
        Ok(buf.len().min(*length))
    }
}

fn is_message(bytes: &[u8]) -> bool {
    bytes
        .iter()
        .enumerate()
        .all(|(place, byte)| *byte == byte_at(place))
}

#[test]
fn a_message_is_read_whole(rt: HostRuntime) {
    let input = Messages {
        lengths: &[21 * BLOCK],
    };
    let bytes = read_front(rt.alloc(), input).expect(&rt, "no memory");
    assert_eq!(rt; bytes.len(), 21 * BLOCK);
    assert!(rt; is_message(&bytes));
}

#[test]
fn messages_are_joined(rt: HostRuntime) {
    let input = Messages {
        lengths: &[BLOCK, 2 * BLOCK, 300],
    };
    let bytes = read_front(rt.alloc(), input).expect(&rt, "no memory");
    assert_eq!(rt; bytes.len(), 3 * BLOCK + 300);
    assert!(rt; is_message(&bytes));
}

#[test]
fn each_read_asks_for_all_that_is_left(rt: HostRuntime) {
    // Longer than any sheet, after no message, one or two.
    let inputs = [
        [40_000, 0, 0],
        [BLOCK, 40_000, 0],
        [BLOCK, 20 * BLOCK, 40_000],
    ];
    for lengths in &inputs {
        let bytes = read_front(rt.alloc(), Messages { lengths }).expect(&rt, "no memory");
        assert_eq!(rt; bytes.len(), MOST);
        assert!(rt; is_message(&bytes));
    }
}
