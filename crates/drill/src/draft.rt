// Sheets made byte by byte, so that each can have just the fault that is wanted.
use inspect::block::{BLOCK, CHECK, Kind, block_at, check_sum};
use inspect::fault::Place;
use inspect::head::Head;
use std::alloc::{AllocError, Global};

#[derive(Drop)]
pub struct Draft {
    pub(crate) bytes: Vec<u8>,
}

pub(crate) fn at(block: u8, byte: u16) -> Place {
    Place { block, byte }
}

// Writes over the bytes from `start` on, and leaves out what would go past the last: `copy_from_slice` asks for a slice of
// just as many bytes.
pub(crate) fn put_bytes(bytes: &mut [u8], start: usize, new: &[u8]) {
    for (to, from) in bytes.iter_mut().skip(start).zip(new) {
        *to = *from;
    }
}

impl Draft {
    // A head alone.
    pub(crate) fn begin(heap: Global, head: Head) -> Result<Draft, AllocError> {
        let bytes = vec![in heap; 0u8; BLOCK]?;
        let mut draft = Draft { bytes };
        let fields = [head.sort.into(), head.locations, head.letters, head.initial];
        draft.put(at(0, 0), &[Kind::Head.into(), 0]);
        draft.put(at(0, 2), &fields);
        draft.put(at(0, 6), &head.accepting.to_le_bytes());
        draft.seal(0);
        Ok(draft)
    }

    // Adds a block of entries: FF and zeros follow the body where there is room.
    pub(crate) fn add(&mut self, body: &[u8]) -> Result<(), AllocError> {
        let block = (self.bytes.len() / BLOCK % 256) as u8;
        self.bytes.extend_from_slice(&[0; BLOCK])?;
        self.put(at(block, 0), &[Kind::Entries.into(), block]);
        self.put(at(block, 2), body);
        if body.len() < CHECK - 2 {
            self.put(at(block, 2 + body.len() as u16), &[0xff]);
        }
        self.seal(block);
        Ok(())
    }

    // Writes over the bytes from a place on, and leaves the check as it is.
    pub(crate) fn put(&mut self, place: Place, new: &[u8]) {
        let start = usize::from(place.block) * BLOCK + usize::from(place.byte);
        put_bytes(&mut self.bytes, start, new);
    }

    // States the check that the block has.
    pub(crate) fn seal(&mut self, block: u8) {
        let sum = check_sum(block_at(self.bytes.as_slice(), block));
        self.put(at(block, 510), &sum.to_le_bytes());
    }

    // Writes over the bytes from a place on, and seals their block again.
    pub(crate) fn change(&mut self, place: Place, new: &[u8]) {
        self.put(place, new);
        self.seal(place.block);
    }
}
