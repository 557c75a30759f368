// The reader: what it hands out, of files with no fault and of any bytes.
use crate::files::{EXAMPLE, LIMIT, answer, fill, part, put};
use blocks::reader::{Reader, payload_len};
use blocks::writer::write_file;
use std::process::Abort;

// How many bytes the reader of `file` hands out, if they are those of `payload`.
fn walked(file: &[u8], payload: &[u8]) -> Option<usize> {
    let mut reader = Reader::new(file);
    for byte in payload {
        if reader.next() != Some(*byte) {
            return None;
        }
    }
    // at the end it stays at the end
    for _ in 0..3 {
        if reader.next() != None {
            return None;
        }
    }
    Some(payload.len())
}

#[test]
fn worked_example(rt: HostRuntime) {
    let mut file = [7; 512];
    assert_eq!(rt; write_file(&EXAMPLE, &mut file).ok(), Some(512));
    assert_eq!(rt; &file[0..4], [0, 0, 38, 0].as_slice());
    assert_eq!(rt; &file[4..42], EXAMPLE.as_slice());
    assert_eq!(rt; &file[42..508], [0; 466].as_slice());
    // 566 is 2 × 256 + 54
    assert_eq!(rt; &file[508..512], [54, 2, 0, 0].as_slice());
    assert_eq!(rt; answer(&file, LIMIT), (0, 0));
    assert_eq!(rt; payload_len(&file), 38);
    assert_eq!(rt; walked(&file, &EXAMPLE), Some(38));
    let mut reader = Reader::new(&file);
    assert_eq!(rt; reader.next(), Some(1));
    assert_eq!(rt; reader.next(), Some(2));
    assert_eq!(rt; reader.next_u16(), Some(1));
    assert_eq!(rt; reader.next_u16(), Some(3));
    assert_eq!(rt; reader.next_u64(), Some(0));
    assert_eq!(rt; reader.next_u16(), Some(0));
    assert_eq!(rt; reader.next_u16(), Some(2));
}

// Hands the payload of `file` to `target`, and says how many bytes that were.
fn copied(file: &[u8], target: &mut [u8]) -> usize {
    let mut reader = Reader::new(file);
    for (count, byte) in target.iter_mut().enumerate() {
        let Some(next) = reader.next() else {
            return count;
        };
        *byte = next;
    }
    target.len()
}

// Writes a payload and reads it, then writes what was read.
fn round_trip(rt: &impl Abort, payload: &[u8], expected: usize) {
    let mut file = [9; 6_656];
    assert_eq!(rt; write_file(payload, &mut file).ok(), Some(expected));
    let front = part(&file, 0, expected);
    assert_eq!(rt; answer(front, LIMIT), (0, 0));
    assert_eq!(rt; payload_len(front), payload.len());
    assert_eq!(rt; walked(front, payload), Some(payload.len()));
    let mut read = [0; 6_552];
    assert_eq!(rt; copied(front, &mut read), payload.len());
    let mut again = [9; 6_656];
    assert_eq!(rt;
        write_file(part(&read, 0, payload.len()), &mut again).ok(),
        Some(expected)
    );
    assert_eq!(rt; &again, &file);
}

// Payloads around each number of blocks up to 13.
#[test]
fn round_trips(rt: HostRuntime) {
    let mut payload = [0; 6_552];
    fill(&mut payload);
    let cases = [
        (1, 512),
        (2, 512),
        (503, 512),
        (504, 512),
        (505, 1_024),
        (1_007, 1_024),
        (1_008, 1_024),
        (1_009, 1_536),
        (6_047, 6_144),
        (6_048, 6_144),
        (6_049, 6_656),
        (6_551, 6_656),
        (6_552, 6_656),
    ];
    for (len, expected) in cases {
        round_trip(&rt, part(&payload, 0, len), expected);
    }
}

// Numbers across the border of two blocks, and where the payload ends inside one.
#[test]
fn numbers(rt: HostRuntime) {
    let mut payload = [0; 509];
    payload[502] = 1;
    payload[503] = 2;
    payload[504] = 3;
    payload[505] = 4;
    payload[506] = 5;
    payload[507] = 6;
    payload[508] = 7;
    let mut file = [0; 1_024];
    assert_eq!(rt; write_file(&payload, &mut file).ok(), Some(1_024));
    let mut reader = Reader::new(&file);
    for _ in 0..62 {
        assert_eq!(rt; reader.next_u64(), Some(0));
    }
    assert_eq!(rt; reader.next_u16(), Some(0));
    assert_eq!(rt; reader.next_u16(), Some(0));
    assert_eq!(rt; reader.next_u16(), Some(0));
    assert_eq!(rt; reader.next(), Some(1));
    assert_eq!(rt; reader.next_u16(), Some(770));
    assert_eq!(rt; reader.next_u16(), Some(1_284));
    assert_eq!(rt; reader.next_u16(), Some(1_798));
    assert_eq!(rt; reader.next_u16(), None);
    let mut wide = Reader::new(&file);
    for _ in 0..250 {
        assert_eq!(rt; wide.next_u16(), Some(0));
    }
    // 0, 0, 1, 2, 3, 4, 5, 6, and one byte is left for a number of eight
    assert_eq!(rt; wide.next_u64(), Some(433_757_350_076_153_856));
    assert_eq!(rt; wide.next_u64(), None);
    assert_eq!(rt; wide.next(), None);
    // a single byte is no number of two, and is passed over
    let mut one = Reader::new(&file[0..1_024]);
    for _ in 0..254 {
        assert!(rt; one.next_u16() != None);
    }
    assert_eq!(rt; one.next_u16(), None);
    assert_eq!(rt; one.next(), None);
}

// Bytes that were not checked: used counts are taken up to 504, and what is no whole block has no payload.
#[test]
fn any_bytes(rt: HostRuntime) {
    let mut payload = [0; 1_512];
    fill(&mut payload);
    let mut file = [0; 1_600];
    assert_eq!(rt; write_file(&payload, &mut file).ok(), Some(1_536));
    assert_eq!(rt; walked(&file, &payload), Some(1_512));
    assert_eq!(rt; walked(part(&file, 0, 0), part(&payload, 0, 0)), Some(0));
    assert_eq!(rt; walked(part(&file, 0, 511), part(&payload, 0, 0)), Some(0));
    assert_eq!(rt;
        walked(part(&file, 0, 1_023), part(&payload, 0, 504)),
        Some(504)
    );
    assert_eq!(rt; payload_len(part(&file, 0, 511)), 0);
    assert_eq!(rt; payload_len(part(&file, 0, 1_023)), 504);
    put(&mut file, 0, 3, 255);
    assert_eq!(rt; walked(&file, &payload), Some(1_512));
    put(&mut file, 0, 2, 0);
    put(&mut file, 0, 3, 0);
    assert_eq!(rt; walked(&file, part(&payload, 504, 1_512)), Some(1_008));
    put(&mut file, 1, 2, 0);
    put(&mut file, 1, 3, 0);
    assert_eq!(rt; walked(&file, part(&payload, 1_008, 1_512)), Some(504));
    put(&mut file, 2, 2, 0);
    put(&mut file, 2, 3, 0);
    assert_eq!(rt; walked(&file, part(&payload, 0, 0)), Some(0));
}
