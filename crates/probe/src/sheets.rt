// Small sheets: a head block and a block of entries, sealed.
use inspect::block::{BLOCK, CHECK, check_sum};
use inspect::head::{Head, Sort};

// A head whose initial location is 0.
fn heading(sort: Sort, locations: u8, letters: u8, accepting: u32) -> Head {
    Head {
        sort,
        locations,
        letters,
        initial: 0,
        accepting,
    }
}

pub fn rule(locations: u8, letters: u8, accepting: u32) -> Head {
    heading(Sort::Rule, locations, letters, accepting)
}

pub fn model(locations: u8, letters: u8, accepting: u32) -> Head {
    heading(Sort::Model, locations, letters, accepting)
}

fn seal(block: &mut [u8; BLOCK]) {
    let sum = check_sum(block.as_slice());
    block[CHECK..BLOCK].copy_from_slice(&sum.to_le_bytes());
}

fn head_block(head: Head) -> [u8; BLOCK] {
    let mut block = [0; BLOCK];
    block[0] = 1;
    block[2] = u8::from(head.sort);
    block[3] = head.locations;
    block[4] = head.letters;
    block[5] = head.initial;
    block[6..10].copy_from_slice(&head.accepting.to_le_bytes());
    seal(&mut block);
    block
}

fn entry_block(entries: &[u8]) -> [u8; BLOCK] {
    let mut block = [0; BLOCK];
    block[0..2].copy_from_slice(&[2, 1]);
    let end = 2 + entries.len().min(495);
    block[2..end].copy_from_slice(&entries[0..end - 2]);
    block[end] = 0xff;
    seal(&mut block);
    block
}

pub fn sheet(head: Head, entries: &[u8]) -> [u8; 2 * BLOCK] {
    let mut bytes = [0; 2 * BLOCK];
    bytes[0..BLOCK].copy_from_slice(&head_block(head));
    bytes[BLOCK..2 * BLOCK].copy_from_slice(&entry_block(entries));
    bytes
}
