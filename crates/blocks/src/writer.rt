// A payload laid into blocks.
ghost use Rattle.std.specs.Prelude.{◌≡◌, ◌+◌, ◌*◌, ◌≤◌, cond, ◌++◌, length, take, drop, is_ok, IfOk};
ghost use Rattle.blocks.specs.Layout.{block_count, block_of, blocks_of};
ghost use Rattle.blocks.specs.Laws.{Readable};
ghost use Rattle.blocks.specs.Writing.{file_len_of, writes};

use crate::check::{CHECKED_LEN, weigh};
use crate::{BLOCK_LEN, MAX_BLOCKS, PAYLOAD_LEN};

// Why a payload was not written.
#[derive(Clone, Copy, PartialEq, Eq, Debug)]
pub enum WriteRefusal {
    // The payload is empty or takes more than 65,536 blocks: no file has it.
    Payload,
    // The buffer is shorter than the file.
    Buffer,
}

// The length of the file of a payload of `payload_len` bytes, if there is such a file.
pub fn file_len(payload_len: usize) -> Option<usize>
    ensures { result ≡ file_len_of payload_len }
{
    if payload_len == 0 {
        return None;
    }
    let count = (payload_len - 1) / PAYLOAD_LEN + 1;
    if count > MAX_BLOCKS {
        return None;
    }
    Some(BLOCK_LEN * count)
}

// Lays the payload into blocks at the front of the buffer, and says how many bytes these take.
// What stands there then has no fault and that payload; what is behind stays, and a refusal changes nothing.
pub fn write_file(payload: &[u8], buffer: &mut [u8]) -> Result<usize, WriteRefusal>
    ensures value { result ≡ writes (length payload.now) (length buffer.old) }
    ensures after { buffer.new ≡ cond (is_ok result)
        (blocks_of payload.now ++ drop (length (blocks_of payload.now)) buffer.old)
        buffer.old }
    ensures items { IfOk result (λ n. Readable (take n buffer.new) payload.now) }
{
    let Some(needed) = file_len(payload.len()) else {
        return Err(WriteRefusal::Payload);
    };
    if buffer.len() < needed {
        return Err(WriteRefusal::Buffer);
    }
    write_blocks(payload, buffer);
    Ok(needed)
}

fn write_blocks(payload: &[u8], buffer: &mut [u8])
    requires few { block_count (length payload.now) ≤ 65536 }
    requires room { 512 * block_count (length payload.now) ≤ length buffer.old }
    ensures { buffer.new
        ≡ blocks_of payload.now ++ drop (512 * block_count (length payload.now)) buffer.old }
{
    for (b, part) in payload.chunks(PAYLOAD_LEN).enumerate() {
        let start = BLOCK_LEN * b;
        buffer[start..start + BLOCK_LEN].copy_from_slice(&make_block(b as u16, part));
    }
}

// Block `number` with these bytes in use.
fn make_block(number: u16, part: &[u8]) -> [u8; BLOCK_LEN]
    requires { length part.now ≤ 504 }
    ensures { result ≡ block_of number part.now }
{
    let used = part.len();
    let mut block = [0; BLOCK_LEN];
    block[..2].copy_from_slice(&number.to_le_bytes());
    block[2..4].copy_from_slice(&(used as u16).to_le_bytes());
    block[4..4 + used].copy_from_slice(part);
    let sum = weigh(&block);
    block[CHECKED_LEN..].copy_from_slice(&sum.to_le_bytes());
    block
}
