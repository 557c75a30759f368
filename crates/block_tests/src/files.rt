// What the tests share: files to break, and what the check answers of them.
use blocks::BLOCK_LEN;
use blocks::check::check_file;

// The longest file of the tests: 13 blocks.
pub(crate) const LIMIT: usize = 6_656;

// A payload of 38 bytes.
pub(crate) const EXAMPLE: [u8; 38] = [
    1, 2, 1, 0, 3, 0, 0, 0, 0, 0, 0, 0, 0, 0, 0, 0, 2, 0, 0, 0, 3, 0, 0, 0, 0, 0, 2, 0, 1, 0, 0, 0,
    4, 0, 0, 0, 1, 0,
];

// Number and place of the refusal, or twice 0 for a file with no fault.
pub(crate) fn answer(file: &[u8], limit: usize) -> (u8, usize) {
    match check_file(file, limit) {
        Ok(()) => (0, 0),
        Err(fault) => (fault.number(), fault.place()),
    }
}

// Bytes that differ from their neighbours, none of them 0.
pub(crate) fn fill(bytes: &mut [u8]) {
    let mut next = 1;
    for byte in bytes.iter_mut() {
        *byte = next;
        next = if next < 251 { next + 1 } else { 1 };
    }
}

// The bytes from place `from` up to `to`, or all of them if there are no such places.
pub(crate) fn part(bytes: &[u8], from: usize, to: usize) -> &[u8] {
    bytes.get(from..to).unwrap_or(bytes)
}

// Puts a byte into a block, unless there is no such place.
pub(crate) fn put(file: &mut [u8], block: usize, at: usize, byte: u8) {
    let whole = file.len() / BLOCK_LEN;
    if block < whole && at < BLOCK_LEN {
        file[BLOCK_LEN * block + at] = byte;
    }
}

// Makes a block's check right again, by a sum of its own.
pub(crate) fn seal(file: &mut [u8], block: usize) {
    let whole = file.len() / BLOCK_LEN;
    if block >= whole {
        return;
    }
    let start = BLOCK_LEN * block;
    let mut weight: u32 = 0;
    let mut sum: u32 = 0;
    for byte in &file[start..start + 508] {
        weight = weight.wrapping_add(1);
        sum = sum.wrapping_add(weight.wrapping_mul(u32::from(*byte)));
    }
    file[start + 508..start + 512].copy_from_slice(&sum.to_le_bytes());
}
