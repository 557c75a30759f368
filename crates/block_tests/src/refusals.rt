// Every refusal of the check, at its first and last place, and two faults at once.
use crate::files::{LIMIT, answer, fill, part, put, seal};
use blocks::BLOCK_LEN;
use blocks::writer::write_file;
use std::test::Fail;

// A change of one byte, after which the block's check is made right again or not.
#[derive(Clone, Copy)]
struct Change {
    block: usize,
    at: usize,
    byte: u8,
    sealed: bool,
}

fn wrong(block: usize, at: usize, byte: u8) -> Change {
    Change {
        block,
        at,
        byte,
        sealed: false,
    }
}

fn right(block: usize, at: usize, byte: u8) -> Change {
    Change {
        block,
        at,
        byte,
        sealed: true,
    }
}

fn apply(file: &mut [u8], change: Change) {
    put(file, change.block, change.at, change.byte);
    if change.sealed {
        seal(file, change.block);
    }
}

// The answer to a file of three blocks, the last with 3 bytes in use, after two changes.
fn changed(first: Change, second: Change) -> (u8, usize) {
    let mut payload = [0; 1_011];
    fill(&mut payload);
    let mut file = [0; 1_536];
    let Ok(1_536) = write_file(&payload, &mut file) else {
        return (99, 99);
    };
    apply(&mut file, first);
    apply(&mut file, second);
    answer(&file, LIMIT)
}

#[test]
fn lengths(rt: HostRuntime) {
    let mut payload = [0; 2_520];
    fill(&mut payload);
    let mut file = [0; 2_560];
    assert_eq!(rt; write_file(&payload, &mut file).ok(), Some(2_560));
    let limit = 2_048;
    let cases = [
        (0, 20, 0),
        (1, 20, 1),
        (511, 20, 511),
        (512, 0, 0),
        (513, 20, 513),
        (1_024, 0, 0),
        (2_047, 20, 2_047),
    ];
    for (len, number, place) in cases {
        assert_eq!(rt; answer(part(&file, 0, len), limit), (number, place));
    }
    assert_eq!(rt; answer(part(&file, 0, limit), limit), (0, 0));
    assert_eq!(rt; answer(part(&file, 0, limit + 1), limit), (20, limit + 1));
    assert_eq!(rt;
        answer(part(&file, 0, limit + 512), limit),
        (20, limit + 512)
    );
    // A limit between two lengths admits the shorter, and no limit below 512 admits a file.
    assert_eq!(rt; answer(part(&file, 0, 1_024), 1_535), (0, 0));
    assert_eq!(rt; answer(part(&file, 0, 1_536), 1_535), (20, 1_536));
    assert_eq!(rt; answer(part(&file, 0, 512), 511), (20, 512));
    assert_eq!(rt; answer(part(&file, 0, 512), 0), (20, 512));
    assert_eq!(rt; answer(&file, usize::MAX), (0, 0));
}

#[test]
fn one_fault(rt: HostRuntime) {
    let none = right(9, 0, 0);
    let cases = [
        // no change, and one that the sum of the same block makes right
        (none, 0, 0),
        (right(0, 4, 99), 0, 0),
        // the check, by a covered byte, the first and the last, and by its own bytes
        (wrong(0, 0, 1), 21, 0),
        (wrong(0, 507, 0), 21, 0),
        (wrong(0, 511, 9), 21, 0),
        (wrong(1, 4, 0), 21, 1),
        (wrong(2, 508, 0), 21, 2),
        (wrong(2, 511, 255), 21, 2),
        // the number, by its low and its high byte
        (right(0, 0, 1), 22, 0),
        (right(0, 1, 1), 22, 0),
        (right(1, 0, 2), 22, 1),
        (right(2, 0, 1), 22, 2),
        (right(2, 1, 255), 22, 2),
        // the used count: 503, 505 and 248 in a block before the last, 0 and 515 in the last
        (right(0, 2, 247), 23, 0),
        (right(0, 2, 249), 23, 0),
        (right(0, 3, 0), 23, 0),
        (right(1, 2, 247), 23, 1),
        (right(2, 2, 0), 23, 2),
        (right(2, 3, 2), 23, 2),
        // an unused byte, the first and the last; 4 bytes in use leave no byte that is not zero
        (right(2, 7, 1), 24, 2),
        (right(2, 507, 1), 24, 2),
        (right(2, 2, 2), 24, 2),
        (right(2, 2, 4), 0, 0),
    ];
    for (change, number, place) in cases {
        assert_eq!(rt; changed(change, none), (number, place));
    }
}

#[test]
fn two_faults(rt: HostRuntime) {
    let cases = [
        // in one block the earlier question counts
        (wrong(2, 0, 9), wrong(2, 2, 0), 21, 2),
        (wrong(2, 508, 0), wrong(2, 507, 1), 21, 2),
        (wrong(0, 511, 9), wrong(0, 2, 0), 21, 0),
        (right(2, 0, 9), right(2, 2, 0), 22, 2),
        (right(0, 1, 9), right(0, 2, 0), 22, 0),
        (right(2, 0, 9), right(2, 507, 1), 22, 2),
        (right(2, 2, 0), right(2, 507, 1), 23, 2),
        // of two blocks the earlier counts, whatever is asked there
        (wrong(0, 4, 0), wrong(2, 4, 0), 21, 0),
        (right(0, 0, 9), wrong(1, 4, 0), 22, 0),
        (right(1, 2, 0), wrong(2, 4, 0), 23, 1),
        (right(1, 0, 0), right(2, 0, 0), 22, 1),
        (right(2, 507, 1), right(1, 2, 0), 23, 1),
        (right(2, 507, 1), wrong(0, 4, 0), 21, 0),
    ];
    for (first, second, number, place) in cases {
        assert_eq!(rt; changed(first, second), (number, place));
        assert_eq!(rt; changed(second, first), (number, place));
    }
}

// The answer to the file of one block with that payload.
fn one_block(payload: &[u8]) -> (u8, usize) {
    let mut file = [0; 512];
    match write_file(payload, &mut file) {
        Ok(512) => answer(&file, LIMIT),
        _ => (99, 99),
    }
}

#[test]
fn last_used_counts(rt: HostRuntime) {
    let mut payload = [0; 504];
    fill(&mut payload);
    for used in [1, 2, 38, 503, 504] {
        assert_eq!(rt; one_block(part(&payload, 0, used)), (0, 0));
    }
    // 505 is 249 and 1
    let mut file = [0; 512];
    assert_eq!(rt; write_file(&payload, &mut file).ok(), Some(512));
    put(&mut file, 0, 2, 249);
    seal(&mut file, 0);
    assert_eq!(rt; answer(&file, LIMIT), (23, 0));
    // 512 zero bytes have a right check and number, and use no byte
    let mut empty = [0; 512];
    assert_eq!(rt; answer(&empty, LIMIT), (23, 0));
    put(&mut empty, 0, 2, 1);
    seal(&mut empty, 0);
    assert_eq!(rt; answer(&empty, LIMIT), (0, 0));
}

// The block at place 65,536 has a number of two bytes, and so never its own.
#[test]
fn too_many_blocks(rt: HostRuntime) -> Result<(), Fail> {
    let count = 65_537;
    let mut file = vec![in rt.alloc(); 0; 33_554_944]?;
    for block in 0..count {
        let number = (block % 65_536) as u16;
        let [low, high] = number.to_le_bytes();
        put(&mut file, block, 0, low);
        put(&mut file, block, 1, high);
        put(&mut file, block, 2, 248);
        put(&mut file, block, 3, 1);
        seal(&mut file, block);
    }
    assert_eq!(rt; answer(&file, usize::MAX), (22, 65_536));
    let whole = BLOCK_LEN * 65_536;
    assert!(rt; whole <= file.len());
    assert_eq!(rt; answer(part(&file, 0, whole), usize::MAX), (0, 0));
    Ok(())
}
