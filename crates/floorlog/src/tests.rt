// A log from a source that gives it in odd pieces, or fails in mid-stream, to a sink that takes odd pieces, or fails.
use crate::sample;
use textio::lines::Failure;
use textio::reader::BufferedReader;
use textio::trial::{Pieces, TrialSink};

const LOG: &[u8] = b"O 00000000\nR %1POWR 1\nT 3600\nR %1LAMP ?";

const PRINTED: &[u8] = b"1 PJLINK 0\n2 %1POWR=OK\n3 -\n4 %1LAMP=1 1\npower 1 lamps 3600\n";

fn source(most: usize, until: usize) -> BufferedReader<Pieces> {
    BufferedReader::new(Pieces {
        log: LOG,
        most,
        until,
    })
}

#[test]
fn a_log_in_odd_pieces(rt: HostRuntime) {
    for most in 1..12 {
        let mut to = TrialSink::new(most, 64);
        let told = crate::replay(sample(), &mut source(most, 1000), &mut to);
        assert!(rt; told.is_ok());
        assert!(rt; to.text() == PRINTED);
    }
}

#[test]
fn a_read_that_fails_in_mid_line(rt: HostRuntime) {
    let mut to = TrialSink::new(6, 64);
    let told = crate::replay(sample(), &mut source(5, 25), &mut to);
    assert!(rt; matches!(told, Err(Failure::Read(_))));
    assert!(rt; to.text() == b"1 PJLINK 0\n2 %1POWR=OK\n".as_slice());
    // it is flushed before the read that fails
    assert_eq!(rt; to.flushed(), to.text().len());
}

#[test]
fn a_write_that_fails_in_mid_line(rt: HostRuntime) {
    let mut to = TrialSink::new(2, 15);
    let told = crate::replay(sample(), &mut source(7, 1000), &mut to);
    assert!(rt; matches!(told, Err(Failure::Write(_))));
    assert!(rt; to.text() == b"1 PJLINK 0\n2 %1".as_slice());
}
