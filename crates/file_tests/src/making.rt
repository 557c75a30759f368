// Files made by hand, byte by byte, and what reading them gives.
use files::fault::TableFault;
use files::reading::read_pattern;
use patterns::row::Row;
use std::process::Abort;
use std::test::Fail;

// LATCH's payload.
pub(crate) const LATCH: [u8; 38] = [
    1, 2, 1, 0, 3, 0, 0, 0, 0, 0, 0, 0, 0, 0, 0, 0, 2, 0, 0, 0, 3, 0, 0, 0, 0, 0, 2, 0, 1, 0, 0, 0,
    4, 0, 0, 0, 1, 0,
];

// Puts the check of a block's first 508 bytes behind them.
pub(crate) fn seal(block: &mut [u8; 512]) {
    let mut sum: u32 = 0;
    for (i, byte) in block[..508].iter().enumerate() {
        sum = sum.wrapping_add((i as u32 + 1) * u32::from(*byte));
    }
    block[508..].copy_from_slice(&sum.to_le_bytes());
}

// The one block of a payload of at most 504 bytes.
pub(crate) fn one_block(payload: &[u8]) -> [u8; 512] {
    let mut block = [0; 512];
    let used = payload.len().min(504);
    block[2..4].copy_from_slice(&(used as u16).to_le_bytes());
    block[4..4 + used].copy_from_slice(&payload[..used]);
    seal(&mut block);
    block
}

// LATCH's file with another byte at a place of the payload, the check put right.
pub(crate) fn latch_with(place: usize, byte: u8) -> [u8; 512] {
    let mut payload = LATCH;
    if place < payload.len() {
        payload[place] = byte;
    }
    one_block(&payload)
}

pub(crate) fn is(rt: &impl Abort, fault: TableFault, number: u8, place: usize) -> Result<(), Fail> {
    assert_eq!(rt; fault.number(), number);
    assert_eq!(rt; fault.place(), place);
    Ok(())
}

// Reading into tables of 64 roots and 1,024 rows is refused so.
pub(crate) fn refused(rt: &impl Abort, file: &[u8], number: u8, place: usize) -> Result<(), Fail> {
    let mut roots = [7; 64];
    let mut rows = [Row::default(); 1024];
    match read_pattern(file, &mut roots, &mut rows) {
        Ok(_) => Err(Fail::new("the file was read")),
        Err(fault) => is(rt, fault, number, place),
    }
}
