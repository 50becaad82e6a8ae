// Bytes taken up to the end of a line (RULES, Connection): collected, at most as many as the phase allows.
#![tactic(auto)]

ghost use Rattle.std.specs.Prelude.{◌≡◌, ◌≤◌};
ghost use Rattle.record.specs.Limits.{line_room};
ghost use Rattle.record.specs.Legal.{held_most};
ghost use Rattle.record.specs.Views.{phase_number};
ghost use Rattle.stream.specs.Collecting.{collected_all, gathered_from};

use record::types::{CollectedLine, LINE_ROOM};
use record::views::Phase;
use text::flag;

/// The result of passing bytes to a line, besides the line, which changes in place: how many come before CR, and
/// whether it came.
#[derive(Clone, Copy)]
pub struct Passed {
    /// Bytes before the first CR, or all if there is none.
    pub before: usize,
    /// Whether there is a CR.
    pub ended: bool,
}

// The line that is longer than the phase allows: only its overlong flag is kept.
const OVERLONG: CollectedLine = CollectedLine {
    overlong: 1,
    held: 0,
    bytes: [0; LINE_ROOM],
};

// The bytes `more`, none of them CR, after those collected; or the overlong flag where there is no room for them all.
fn collect(most: usize, l: &mut CollectedLine, more: &[u8])
    requires { most ≤ line_room }
    ensures { l.new ≡ collected_all most l.old more.now }
{
    if flag::is_raised(l.overlong) {
        return;
    }
    if more.len() == 0 {
        return;
    }
    let held = l.held;
    if most <= held {
        *l = OVERLONG;
        return;
    }
    if most - held < more.len() {
        *l = OVERLONG;
        return;
    }
    text::put(&mut l.bytes, held, more);
    l.held = held + more.len();
}

/// Collects the bytes up to the first CR in the line, as the phase allows.
pub fn gather(phase: Phase, line: &mut CollectedLine, bytes: &[u8]) -> Passed
    ensures line { line.new ≡ (gathered_from (held_most (phase_number phase)) line.old bytes.now).line }
    ensures before { result.before ≡ (gathered_from (held_most (phase_number phase)) line.old bytes.now).before }
    ensures ended { result.ended ≡ (gathered_from (held_most (phase_number phase)) line.old bytes.now).ended }
{
    let before = text::find(bytes, b'\r');
    collect(phase.held_most(), line, &bytes[0..before]);
    Passed {
        before,
        ended: before < bytes.len(),
    }
}
