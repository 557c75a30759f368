// What can be wrong with the blocks of a file.
ghost use Rattle.std.specs.Prelude.{◌≡◌};
ghost use Rattle.blocks.specs.Faults.{refusal};

// Which question about the blocks was answered no, with the number under which that is refused.
#[derive(Clone, Copy, PartialEq, Eq, Debug)]
pub enum BlockCause {
    // The file's length is below 512, above the limit or no multiple of 512.
    Length = 20,
    // A block's check is not the weighted sum of the bytes before it.
    Check = 21,
    // A block's number is not its place in the file.
    Number = 22,
    // A block other than the last does not use 504 bytes, or the last one not 1 to 504.
    Used = 23,
    // A payload byte behind those in use is not zero.
    Unused = 24,
}

// A cause with its place: the file's length under `Length`, otherwise the block's place from 0.
#[derive(Clone, Copy, PartialEq, Eq, Debug)]
pub struct BlockFault {
    pub cause: BlockCause,
    pub place: usize,
}

impl BlockFault {
    // The number of the refusal.
    pub fn number(self) -> u8
        ensures { result ≡ (refusal self).0 }
    {
        self.cause as u8
    }

    // The place that the refusal names.
    pub fn place(self) -> usize
        ensures { result ≡ (refusal self).1 }
    {
        self.place
    }
}
