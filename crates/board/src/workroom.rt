// The workroom panel's calls (RULES, Panel): in place, on the host's panel, and by value, which take the
// panel and return the changed one. Those by value are those in place on a copy.
ghost use Rattle.std.specs.Prelude.{◌≡◌, ◌≤◌, length, Some, None};
ghost use Rattle.pjlink.specs.Said.{parameter_most};
ghost use Rattle.text.specs.Words.{over};
ghost use Rattle.panel.specs.AnyPanel.{ours_panel};
ghost use Rattle.panel.specs.Hearing.{heard_by_code, heard_bytes};
ghost use Rattle.board.specs.Results.{panel_changed_of, panel_sending_of, panel_sent_of, panel_heard_of, heard_flat};

use crate::results::{PanelChanged, PanelHeard, PanelSent};
use crate::writer::Written;
use codes::command::Coded;
use codes::readings::FlatReading;
use panel::heard::Heard;
use panel::types::Panel;
use text::numbered;
use text::numbered::Numbered;

// The result for a line that was heard. Not inlined, so that its stack is not in use while the line is read.
#[inline(never)]
fn told(heard: &Heard<'_>) -> PanelHeard
    requires { length (heard_bytes (heard_by_code heard.now)) ≤ parameter_most }
    ensures { result ≡ heard_flat 0 (Some (heard_by_code heard.now)) }
{
    let kind = heard.kind();
    match heard {
        Heard::Reply(reading) => PanelHeard {
            number: 0,
            kind,
            reading: FlatReading::of(reading),
        },
        Heard::Greeting | Heard::NoGreeting | Heard::Late => PanelHeard {
            number: 0,
            kind,
            reading: FlatReading::meaningless(0),
        },
    }
}

// The result for a line that was refused, with the number of the refusal.
#[inline(never)]
fn untold(number: u32) -> PanelHeard
    ensures { result ≡ heard_flat number None }
{
    PanelHeard {
        number,
        kind: 0,
        reading: FlatReading::meaningless(0),
    }
}

/// Fills the host's record with the panel of no projector. Refuses nothing.
#[unsafe(no_mangle)]
pub extern "C" fn pj_panel_none_in_place(panel: &mut Panel) -> u32
    ensures number { result ≡ (ours_panel.none).number }
    ensures panel { panel.new ≡ (ours_panel.none).panel }
{
    *panel = Panel::new();
    0
}

/// Adds a projector to the panel. Errors, in this order: 1, 3.
#[unsafe(no_mangle)]
pub extern "C" fn pj_panel_add_in_place(panel: &mut Panel, password: &[u8]) -> u32
    ensures number { result ≡ (ours_panel.add panel.old password.now).number }
    ensures panel { panel.new ≡ (ours_panel.add panel.old password.now).panel }
{
    numbered::number_of(panel.add(password))
}

/// Writes the line of a command to a projector to the start of `out`. Errors, in this order: 1, 2, 3, 9.
#[unsafe(no_mangle)]
#[tactic(auto, using(crate::proofs::LinesSent::length_sent))]
pub extern "C" fn pj_panel_command_in_place(
    panel: &mut Panel,
    projector: usize,
    coded: Coded,
    out: &mut [u8],
) -> Written
    ensures says { result ≡ panel_sending_of (ours_panel.command panel.old projector coded (length out.old)) }
    ensures panel { panel.new ≡ (ours_panel.command panel.old projector coded (length out.old)).panel }
    ensures written { out.new ≡ over (ours_panel.command panel.old projector coded (length out.old)).line
        out.old }
{
    Written::from(panel.send(projector, coded, out))
}

/// Steps the panel on a line from a projector, with its CR. Errors, in this order: 1, 3.
#[unsafe(no_mangle)]
pub extern "C" fn pj_panel_line_in_place(panel: &mut Panel, projector: usize, line: &[u8]) -> u32
    ensures number { result ≡ (ours_panel.hear panel.old projector line.now).number }
    ensures panel { panel.new ≡ (ours_panel.hear panel.old projector line.now).panel }
{
    match panel.hear(projector, line) {
        Ok(_) => 0,
        Err(why) => why.number(),
    }
}

/// Steps the panel on a line from a projector, with its CR, and returns what the line was. Errors, in this order: 1, 3.
#[unsafe(no_mangle)]
pub extern "C" fn pj_panel_hear_in_place(
    panel: &mut Panel,
    projector: usize,
    line: &[u8],
) -> PanelHeard
    ensures says { result ≡ panel_heard_of (ours_panel.hear panel.old projector line.now)
        (ours_panel.tell panel.old projector line.now) }
    ensures panel { panel.new ≡ (ours_panel.hear panel.old projector line.now).panel }
{
    match panel.hear(projector, line) {
        Ok(heard) => told(&heard),
        Err(why) => untold(why.number()),
    }
}

/// Records that the connection to a projector is gone. Errors, in this order: 1, 3.
#[unsafe(no_mangle)]
pub extern "C" fn pj_panel_lost_in_place(panel: &mut Panel, projector: usize) -> u32
    ensures number { result ≡ (ours_panel.lose panel.old projector).number }
    ensures panel { panel.new ≡ (ours_panel.lose panel.old projector).panel }
{
    numbered::number_of(panel.lose(projector))
}

/// Returns the panel of no projector, by value. Refuses nothing.
#[unsafe(no_mangle)]
pub extern "C" fn pj_panel_none() -> PanelChanged
    ensures { result ≡ panel_changed_of ours_panel.none }
{
    PanelChanged {
        number: 0,
        panel: Panel::new(),
    }
}

/// Adds a projector to the panel, by value. Errors, in this order: 1, 3.
#[unsafe(no_mangle)]
pub extern "C" fn pj_panel_add(copy: Panel, password: &[u8]) -> PanelChanged
    ensures { result ≡ panel_changed_of (ours_panel.add copy password.now) }
{
    let mut panel = copy;
    let number = pj_panel_add_in_place(&mut panel, password);
    PanelChanged { number, panel }
}

/// Writes the line of a command to a projector to the start of `out`, by value. Errors, in this order: 1, 2, 3, 9.
#[unsafe(no_mangle)]
pub extern "C" fn pj_panel_command(
    copy: Panel,
    projector: usize,
    coded: Coded,
    out: &mut [u8],
) -> PanelSent
    ensures says { result ≡ panel_sent_of (ours_panel.command copy projector coded (length out.old)) }
    ensures written { out.new ≡ over (ours_panel.command copy projector coded (length out.old)).line
        out.old }
{
    let mut panel = copy;
    let Written { number, length } = pj_panel_command_in_place(&mut panel, projector, coded, out);
    PanelSent {
        number,
        length,
        panel,
    }
}

/// Steps the panel on a line from a projector, with its CR, by value. Errors, in this order: 1, 3.
#[unsafe(no_mangle)]
pub extern "C" fn pj_panel_line(copy: Panel, projector: usize, line: &[u8]) -> PanelChanged
    ensures { result ≡ panel_changed_of (ours_panel.hear copy projector line.now) }
{
    let mut panel = copy;
    let number = pj_panel_line_in_place(&mut panel, projector, line);
    PanelChanged { number, panel }
}

/// Records that the connection to a projector is gone, by value. Errors, in this order: 1, 3.
#[unsafe(no_mangle)]
pub extern "C" fn pj_panel_lost(copy: Panel, projector: usize) -> PanelChanged
    ensures { result ≡ panel_changed_of (ours_panel.lose copy projector) }
{
    let mut panel = copy;
    let number = pj_panel_lost_in_place(&mut panel, projector);
    PanelChanged { number, panel }
}
