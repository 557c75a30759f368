// Whether a file's blocks are right.
ghost use Rattle.std.specs.Prelude.{◌≡◌, ◌+◌, ◌≤◌, false, length, take, drop, is_some, Some, MatchResult, OnOk};
ghost use Rattle.blocks.specs.Bytes.{number};
ghost use Rattle.blocks.specs.Layout.{check_in, sum_of, used_in};
ghost use Rattle.blocks.specs.Laws.{Rewritten};
ghost use Rattle.blocks.specs.Faults.{length_fits, fills, zeros, block_fault, file_fault};

use crate::fault::{BlockCause, BlockFault};
use crate::{BLOCK_LEN, PAYLOAD_LEN};

// The bytes that the check covers, and where it stands.
pub(crate) const CHECKED_LEN: usize = 508;

// What is wrong with the blocks of a file of at most `limit` bytes, if anything is.
// A file with no fault is the only one with its payload.
pub fn check_file(file: &[u8], limit: usize) -> Result<(), BlockFault>
    ensures cases { MatchResult result
        (λ _. is_some (file_fault file.now limit) ≡ false)
        (λ f. file_fault file.now limit ≡ Some f) }
    ensures items { OnOk result (Rewritten file.now) }
{
    let len = file.len();
    if !may_have(len, limit) {
        return Err(BlockFault {
            cause: BlockCause::Length,
            place: len,
        });
    }
    let (blocks, _) = file.as_chunks::<BLOCK_LEN>();
    for (place, block) in blocks.iter().enumerate() {
        check_block(block, place, place + 1 == blocks.len())?;
    }
    Ok(())
}

// Whether a file may have that many bytes.
fn may_have(len: usize, limit: usize) -> bool
    ensures { result ≡ length_fits len limit }
{
    len >= BLOCK_LEN && len <= limit && len % BLOCK_LEN == 0
}

// The questions about one block, at place `place` of its file.
fn check_block(block: &[u8; BLOCK_LEN], place: usize, last: bool) -> Result<(), BlockFault>
    ensures { MatchResult result
        (λ _. is_some (block_fault place last block.now) ≡ false)
        (λ f. block_fault place last block.now ≡ Some f) }
{
    if read_check(block) != weigh(block) {
        return Err(BlockFault {
            cause: BlockCause::Check,
            place,
        });
    }
    if usize::from(read_u16(block, 0)) != place {
        return Err(BlockFault {
            cause: BlockCause::Number,
            place,
        });
    }
    let used = usize::from(read_used(block));
    if !may_use(used, last) {
        return Err(BlockFault {
            cause: BlockCause::Used,
            place,
        });
    }
    if !all_zero(&block[4 + used..CHECKED_LEN]) {
        return Err(BlockFault {
            cause: BlockCause::Unused,
            place,
        });
    }
    Ok(())
}

// Whether a block may use that many payload bytes.
fn may_use(used: usize, last: bool) -> bool
    ensures { result ≡ fills used last }
{
    if last {
        used >= 1 && used <= PAYLOAD_LEN
    } else {
        used == PAYLOAD_LEN
    }
}

// The sum of (i + 1) times byte i, for the 508 bytes before the check.
pub(crate) fn weigh(block: &[u8; BLOCK_LEN]) -> u32
    ensures { result ≡ sum_of block.now }
{
    let mut sum = 0;
    for (i, byte) in block[..CHECKED_LEN].iter().enumerate() {
        sum += (i as u32 + 1) * u32::from(*byte);
    }
    sum
}

// The check that a block ends with.
fn read_check(block: &[u8; BLOCK_LEN]) -> u32
    ensures { result ≡ check_in block.now }
{
    let [.., first, second, third, fourth] = *block;
    u32::from_le_bytes([first, second, third, fourth])
}

// How many payload bytes a block says that it uses.
pub(crate) fn read_used(block: &[u8; BLOCK_LEN]) -> u16
    ensures { result ≡ used_in block.now }
{
    read_u16(block, 2)
}

fn all_zero(bytes: &[u8]) -> bool
    ensures { result ≡ zeros bytes.now }
{
    bytes.iter().all(|byte| *byte == 0)
}

// The number in the two bytes from `at` on.
pub(crate) fn read_u16(bytes: &[u8], at: usize) -> u16
    requires { at + 2 ≤ length bytes.now }
    ensures { result ≡ number (take 2 (drop at bytes.now)) }
{
    u16::from_le_bytes([bytes[at], bytes[at + 1]])
}
