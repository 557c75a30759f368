// Writing: lengths of files, refusals, and what a buffer holds afterwards.
use crate::files::{LIMIT, answer, fill, part};
use blocks::writer::{WriteRefusal, file_len, write_file};

#[test]
fn file_lengths(rt: HostRuntime) {
    let cases = [
        (0, None),
        (1, Some(512)),
        (504, Some(512)),
        (505, Some(1_024)),
        (1_008, Some(1_024)),
        (6_552, Some(6_656)),
        (6_553, Some(7_168)),
        (33_030_144, Some(33_554_432)),
        (33_030_145, None),
        (usize::MAX, None),
    ];
    for (len, expected) in cases {
        assert_eq!(rt; file_len(len), expected);
    }
}

// Writes into the first `len` bytes of the buffer.
fn write_front(payload: &[u8], buffer: &mut [u8], len: usize) -> Result<usize, WriteRefusal> {
    if len <= buffer.len() {
        write_file(payload, &mut buffer[0..len])
    } else {
        Ok(0)
    }
}

#[test]
fn refused(rt: HostRuntime) {
    let mut payload = [0; 505];
    fill(&mut payload);
    let mut buffer = [5; 1_030];
    assert_eq!(rt;
        write_front(&[], &mut buffer, 1_030),
        Err(WriteRefusal::Payload)
    );
    assert_eq!(rt;
        write_front(&[], &mut buffer, 0),
        Err(WriteRefusal::Payload)
    );
    assert_eq!(rt;
        write_front(&payload, &mut buffer, 0),
        Err(WriteRefusal::Buffer)
    );
    assert_eq!(rt;
        write_front(&payload, &mut buffer, 1_023),
        Err(WriteRefusal::Buffer)
    );
    assert_eq!(rt; &buffer, &[5; 1_030]);
}

#[test]
fn written(rt: HostRuntime) {
    let mut payload = [0; 505];
    fill(&mut payload);
    let mut buffer = [5; 1_030];
    assert_eq!(rt; write_front(&payload, &mut buffer, 1_024), Ok(1_024));
    assert_eq!(rt; part(&buffer, 1_024, 1_030), [5; 6].as_slice());
    assert_eq!(rt;
        part(&buffer, 512, 520),
        [1, 0, 1, 0, 3, 0, 0, 0].as_slice()
    );
    assert_eq!(rt; answer(part(&buffer, 0, 1_024), LIMIT), (0, 0));
    // a shorter payload over the longer one leaves the second block
    assert_eq!(rt;
        write_front(part(&payload, 0, 3), &mut buffer, 1_030),
        Ok(512)
    );
    assert_eq!(rt; part(&buffer, 0, 9), [0, 0, 3, 0, 1, 2, 3, 0, 0].as_slice());
    assert_eq!(rt;
        part(&buffer, 512, 520),
        [1, 0, 1, 0, 3, 0, 0, 0].as_slice()
    );
    assert_eq!(rt; answer(part(&buffer, 0, 512), LIMIT), (0, 0));
    assert_eq!(rt; answer(part(&buffer, 0, 1_024), LIMIT), (23, 0));
}
