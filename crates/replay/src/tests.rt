// A history in odd pieces: its replies by RULES, the sums by zlib's crc32 (Python), over a form of which all that
// matters here is its sum, that of `123456789`.
use crate::logs::replay_log;
use floorlog::sample;
use program::telling::Ending;
use recorded::chain::Why;
use textio::reader::BufferedReader;
use textio::trial::{Pieces, TrialSink};

const SUM: u32 = 0xcbf43926;

fn source(log: &'static [u8], most: usize) -> BufferedReader<Pieces> {
    BufferedReader::new(Pieces {
        log,
        most,
        until: 1000,
    })
}

#[test]
fn a_history_in_odd_pieces(rt: HostRuntime) {
    for most in 1..12 {
        let mut to = TrialSink::new(most, 64);
        let log = b"LOG 2 1 cbf43926\nO 0 00000000\nR 0 %1POWR 1\n";
        let told = replay_log(sample(), SUM, &mut source(log, most), &mut to);
        assert!(rt;
            matches!(told, Ok(ending) if ending.stray.is_none() && ending.unplayed.is_none())
        );
        assert!(rt; to.text() == b"1 -\n2 PJLINK 0\n3 %1POWR=OK\npower 3 lamps 0\n".as_slice());
    }
}

#[test]
fn a_cut_line_is_not_played(rt: HostRuntime) {
    let mut to = TrialSink::new(7, 64);
    let log = b"LOG 2 1 cbf43926\nT 12";
    let told = replay_log(sample(), SUM, &mut source(log, 5), &mut to);
    assert!(rt; matches!(told, Ok(Ending { stray: Some(stray), .. }) if stray.line == 2));
    assert!(rt; to.text() == b"1 -\npower 0 lamps 0\n! line 2: no line end\n".as_slice());
}

#[test]
fn nothing_is_played_behind_another_sum(rt: HostRuntime) {
    let mut to = TrialSink::new(7, 64);
    let log = b"LOG 2 1 cbf43927\nO 0 00000000\n";
    let told = replay_log(sample(), SUM, &mut source(log, 5), &mut to);
    assert!(rt;
        matches!(told, Ok(Ending { stray: Some(stray), .. }) if matches!(stray.why, Why::OtherSum))
    );
    assert!(rt; to.text() == b"power 0 lamps 0\n! line 1: another sum\n".as_slice());
}

#[test]
fn a_log_of_the_first_kind(rt: HostRuntime) {
    let mut to = TrialSink::new(7, 64);
    let told = replay_log(sample(), SUM, &mut source(b"LOG\nT 12", 5), &mut to);
    match told {
        Ok(
            Ending {
                stray: None,
                unplayed,
            },
        ) => {
            assert_eq!(rt; unplayed.misread, 1);
            assert_eq!(rt; unplayed.refused, 0);
            assert!(rt; matches!(unplayed.first_misread, Some(first) if first.line == 1));
        }
        _ => assert!(rt; false),
    }
    assert!(rt; to.text() == b"1 ?\n2 -\npower 0 lamps 0\n".as_slice());
}
