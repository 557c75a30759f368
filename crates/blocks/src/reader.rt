// The payload of a file, byte by byte.
ghost use Rattle.std.specs.Prelude.{◌≡◌, true, [], take, drop, is_some};
ghost use Rattle.blocks.specs.Bytes.{next_number, next_three_of, head};
ghost use Rattle.blocks.specs.Layout.{payload};
ghost use Rattle.blocks.specs.Laws.{Counted};
ghost use Rattle.blocks.specs.Reading.{rest, Stands, payload_len_of};

use crate::check::{read_u16, read_used};
use crate::{BLOCK_LEN, PAYLOAD_LEN};

// How many bytes the payload of a file has: the number of blocks and the last used count tell it.
// A file with no fault has exactly that many.
pub fn payload_len(file: &[u8]) -> usize
    ensures value { result ≡ payload_len_of file.now }
    ensures len { Counted file.now result }
{
    let (blocks, _) = file.as_chunks::<BLOCK_LEN>();
    match blocks.split_last() {
        None => 0,
        Some((last, before)) => PAYLOAD_LEN * before.len() + usize::from(read_used(last)),
    }
}

// Walks the payload of the lent file without a copy.
// What it handed out and what it has still to hand out are the file's payload, in order.
#[derive(Drop)]
pub struct Reader<'a> {
    file: &'a [u8],
    // Where the first block that was not yet entered begins.
    block: usize,
    // Where the next payload byte stands.
    place: usize,
    // Where the bytes in use of the block that was entered last end.
    end: usize,
}

impl<'a> Reader<'a> {
    // A reader with the whole payload to come.
    pub fn new(file: &'a [u8]) -> Reader<'a>
        ensures value { rest result ≡ payload file.now }
        ensures same { result.file.now ≡ file.now }
    {
        Reader {
            file,
            block: 0,
            place: 0,
            end: 0,
        }
    }

    // The next byte of the payload, or none at its end.
    pub fn next(&mut self) -> Option<u8>
        ensures value { result ≡ head (rest self.old) }
        ensures after { rest self.new ≡ drop 1 (rest self.old) }
        ensures same { self.new.file.now ≡ self.old.file.now }
    {
        let end = self.end.min(self.file.len());
        if self.place >= end && !self.enter_block() {
            return None;
        }
        let byte = self.file[self.place];
        self.place += 1;
        Some(byte)
    }

    // The number in the next two bytes, or none if there are fewer; these are then passed over.
    pub fn next_u16(&mut self) -> Option<u16>
        ensures value { result ≡ next_number 2 (rest self.old) }
        ensures after { rest self.new ≡ drop 2 (rest self.old) }
        ensures same { self.new.file.now ≡ self.old.file.now }
    {
        let end = self.end.min(self.file.len());
        if end.saturating_sub(self.place) < 2 {
            return self.next_two();
        }
        let number = read_u16(self.file, self.place);
        self.place += 2;
        Some(number)
    }

    // The same byte by byte, for two bytes that may stand in two blocks.
    fn next_two(&mut self) -> Option<u16>
        ensures value { result ≡ next_number 2 (rest self.old) }
        ensures after { rest self.new ≡ drop 2 (rest self.old) }
        ensures same { self.new.file.now ≡ self.old.file.now }
    {
        let low = self.next()?;
        let high = self.next()?;
        Some(u16::from_le_bytes([low, high]))
    }

    // The three numbers in the next six bytes, or none if there are fewer; these are then passed over.
    pub fn next_three_u16(&mut self) -> Option<(u16, u16, u16)>
        ensures value { result ≡ next_three_of (rest self.old) }
        ensures after { rest self.new ≡ drop 6 (rest self.old) }
        ensures same { self.new.file.now ≡ self.old.file.now }
    {
        let end = self.end.min(self.file.len());
        if end.saturating_sub(self.place) < 6 {
            return self.next_three();
        }
        let first = read_u16(self.file, self.place);
        let second = read_u16(self.file, self.place + 2);
        let third = read_u16(self.file, self.place + 4);
        self.place += 6;
        Some((first, second, third))
    }

    // The same number by number, for six bytes that may stand in two blocks.
    fn next_three(&mut self) -> Option<(u16, u16, u16)>
        ensures value { result ≡ next_three_of (rest self.old) }
        ensures after { rest self.new ≡ drop 6 (rest self.old) }
        ensures same { self.new.file.now ≡ self.old.file.now }
    {
        let first = self.next_u16()?;
        let second = self.next_u16()?;
        let third = self.next_u16()?;
        Some((first, second, third))
    }

    // The number in the next eight bytes, or none if there are fewer; these are then passed over.
    pub fn next_u64(&mut self) -> Option<u64>
        ensures value { result ≡ next_number 8 (rest self.old) }
        ensures after { rest self.new ≡ drop 8 (rest self.old) }
        ensures same { self.new.file.now ≡ self.old.file.now }
    {
        let low = self.next_u32()?;
        let high = self.next_u32()?;
        Some(u64::from(low) + 4_294_967_296 * u64::from(high))
    }

    fn next_u32(&mut self) -> Option<u32>
        ensures value { result ≡ next_number 4 (rest self.old) }
        ensures after { rest self.new ≡ drop 4 (rest self.old) }
        ensures same { self.new.file.now ≡ self.old.file.now }
    {
        let low = self.next_u16()?;
        let high = self.next_u16()?;
        Some(u32::from(low) + 65_536 * u32::from(high))
    }

    // Goes on to the next block with bytes in use, and says whether there is one.
    fn enter_block(&mut self) -> bool
        requires { drop self.old.place (take self.old.end self.old.file.now) ≡ [] }
        ensures value { result ≡ is_some (head (rest self.old)) }
        ensures after { rest self.new ≡ rest self.old }
        ensures same { self.new.file.now ≡ self.old.file.now }
        ensures test { result ≡ true → Stands self.new }
    {
        // Stays: the place to go on from is the reader's own, and a `for` over the blocks behind it would keep a second.
        while self.file.len().saturating_sub(self.block) >= BLOCK_LEN {
            let start = self.block;
            let used = usize::from(read_u16(self.file, start + 2)).min(PAYLOAD_LEN);
            self.block = start + BLOCK_LEN;
            self.place = start + 4;
            self.end = start + 4 + used;
            if used > 0 {
                return true;
            }
        }
        false
    }
}
