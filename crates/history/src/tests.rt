// Lines as a reader of the log sees them, with sums that another program gave (zlib).
use crate::call::RecordedCall;
use crate::read::{self, Bytes};
use crate::recorder::{LOG_LINE_ROOM, Recorder};
use words::errors::ErrorStatus;

fn is_line(written: Option<usize>, memory: &[u8], line: &[u8]) -> bool {
    match written {
        Some(n) => n <= memory.len() && &memory[..n] == line,
        None => false,
    }
}

fn records(recorder: &mut Recorder, call: &RecordedCall<'_>, line: &[u8]) -> bool {
    let mut memory = [0u8; LOG_LINE_ROOM];
    let written = recorder.call(call, &mut memory).ok();
    is_line(written, &memory, line)
}

fn says_something(line: &[u8]) -> bool {
    let mut room = Bytes::new();
    read::read(line, &mut room).is_some()
}

#[test]
fn recorded_lines(rt: HostRuntime) {
    let mut memory = [0u8; LOG_LINE_ROOM];
    // the sum of the form is the check value
    let mut log = Recorder::new(b"123456789");
    let header = log.file(Some(b"2026-11-27T05:45:09Z"), &mut memory).ok();
    assert!(rt; is_line(header, &memory, b"LOG 2 1 cbf43926 2026-11-27T05:45:09Z\n"));
    assert!(rt;
        records(
            &mut log,
            &RecordedCall::Opens(2, 0x0a1b2c3d),
            b"O 2 0a1b2c3d\n"
        )
    );
    assert!(rt;
        records(
            &mut log,
            &RecordedCall::Receives(2, b"%1POWR 1\r"),
            b"R 2 %1POWR 1\n"
        )
    );
    assert!(rt;
        records(
            &mut log,
            &RecordedCall::Receives(2, b"%1POWR 1"),
            b"B 2 2531504f57522031\n"
        )
    );
    assert!(rt;
        records(
            &mut log,
            &RecordedCall::Receives(2, b"%1POWR \r"),
            b"B 2 2531504f5752200d\n"
        )
    );
    assert!(rt; records(&mut log, &RecordedCall::Receives(3, b""), b"B 3\n"));
    assert!(rt; records(&mut log, &RecordedCall::Receives(0, b"\r"), b"B 0 0d\n"));
    assert!(rt; records(&mut log, &RecordedCall::Passes(60), b"T 60\n"));
    assert!(rt; records(&mut log, &RecordedCall::Closes(2), b"X 2\n"));
    assert!(rt; records(&mut log, &RecordedCall::Fault(true), b"F 1\n"));
    assert!(rt;
        records(
            &mut log,
            &RecordedCall::Errors(ErrorStatus {
                digits: [0, 1, 2, 0, 0, 0]
            }),
            b"E 012000\n"
        )
    );
    assert!(rt; records(&mut log, &RecordedCall::Mark(1, false), b"M 2 0\n"));
    let stated = log.stated(&record::fresh::blank(), &mut memory).ok();
    assert!(rt; stated.is_none());
    assert!(rt; log.lines == 11);
    let next = log.file(None, &mut memory).ok();
    assert!(rt; is_line(next, &memory, b"LOG 2 2 3c0317a0\n"));
    assert!(rt; log.lines == 0);
}

fn can_receive(bytes: &[u8]) -> bool {
    RecordedCall::Receives(0, bytes).is_sayable()
}

#[test]
fn unsayable_calls(rt: HostRuntime) {
    let long = [b'a'; 2047];
    assert!(rt; !RecordedCall::Opens(4, 0).is_sayable());
    assert!(rt; !can_receive(&long));
    assert!(rt; can_receive(&long[1..]));
    assert!(rt;
        !RecordedCall::Errors(ErrorStatus {
            digits: [0, 3, 0, 0, 0, 0]
        })
        .is_sayable()
    );
    assert!(rt; !RecordedCall::Mark(8, true).is_sayable());
}

#[test]
fn lines_that_say_nothing(rt: HostRuntime) {
    assert!(rt; says_something(b"T 4294967295"));
    assert!(rt; !says_something(b"T 4294967296"));
    assert!(rt; !says_something(b"T 060"));
    assert!(rt; !says_something(b"X"));
    assert!(rt; !says_something(b"X 4"));
    assert!(rt; !says_something(b"B 2 0D"));
    assert!(rt; !says_something(b"B 2 0"));
    assert!(rt; !says_something(b"B 2 "));
    assert!(rt; !says_something(b"B 2 253150410d"));
    assert!(rt; !says_something(b"R 2 a "));
    assert!(rt; !says_something(b"R 2 a\tb"));
    assert!(rt; !says_something(b"E 00300"));
    assert!(rt; !says_something(b"M 0 1"));
    assert!(rt; says_something(b"LOG 2 1 00000000"));
    assert!(rt; !says_something(b"LOG 2 0 00000000"));
    assert!(rt; !says_something(b"LOG 2 1 00000000 "));
    assert!(rt; !says_something(b"LOG 3 1 00000000"));
    assert!(rt; says_something(b"S 0 00000000 power 0 lamps 0"));
    assert!(rt; !says_something(b"S 0 00000000"));
}
