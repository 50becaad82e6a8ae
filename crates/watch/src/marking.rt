// One line of a log that is watched for its lamps: its event, and what it does to the device.
ghost use Rattle.std.specs.Prelude.{◌≡◌, Some};
ghost use Rattle.text.specs.Words.{◌from◌to◌};
ghost use Rattle.floorlog.specs.KeptText.{kept_text};
ghost use Rattle.watch.specs.Marking.{marked, floor_event, watched_said, done_by, seconds_by, watched_answer};

use device::calls::REPLY_ROOM;
use floorlog::event;
use floorlog::event::Event;
use floorlog::kept::KeptLine;
use record::legality::{Legal, Tested};
use record::refusal::Refusal;
use text::numbered;
use text::numbered::Numbered;

/// An event of a floor log that is watched.
#[derive(Clone, Copy)]
pub enum WatchedEvent<'a> {
    /// An event that `floorlog` plays too.
    Logged(Event<'a>),
    /// The lamp at this index, from 0, gets this mark.
    Marked(u8, bool),
}

fn is_lamp(b: u8) -> bool
    ensures { result ≡ (b from "1" to "9") }
{
    b'1' <= b && b <= b'9'
}

fn is_mark(b: u8) -> bool
    ensures { result ≡ (b from "0" to "1") }
{
    b'0' <= b && b <= b'1'
}

/// Returns the event of a line. It is a mark call if the line is `M`, a space, a lamp's number from 1, a space, 0 or 1.
#[tactic(auto, unfolding(crate::specs::Marking::mark_said, crate::specs::Marking::floor_event))]
pub fn read(line: &KeptLine) -> WatchedEvent<'_>
    ensures { watched_said result ≡ floor_event (kept_text line.now) }
{
    match line.text() {
        [b'M', b' ', lamp, b' ', mark] if is_lamp(*lamp) && is_mark(*mark) => WatchedEvent::Marked(
            *lamp - b'1',
            *mark == b'1',
        ),
        _ => WatchedEvent::Logged(line.event()),
    }
}

/// Returns the seconds that an event lets pass.
pub fn seconds_of(event: &WatchedEvent<'_>) -> u32
    ensures { result ≡ seconds_by (watched_said event.now) }
{
    match event {
        WatchedEvent::Logged(event) => event::seconds_of(event),
        WatchedEvent::Marked(_, _) => 0,
    }
}

// Sets or clears a lamp's mark. Returns the number of the call.
fn set_mark(t: &mut Tested, lamp: u8, mark: bool) -> u32
    ensures device { t.new.device ≡ done_by t.old.device (marked lamp mark) }
    ensures number { Some result ≡ watched_answer t.old.device (marked lamp mark) }
{
    if t.legal {
        let mut legal = Legal {
            device: &mut t.device,
        };
        let told = legal.set_mark(lamp as usize, mark);
        return numbered::number_of(told);
    }
    Refusal::NotLegal.number()
}

/// Makes an event's call on any record. Returns the call's number, 0 if it was served; `None` if the line has no form.
#[tactic(auto, unfolding(crate::specs::Marking::done_by))]
pub fn call(tested: &mut Tested, event: &WatchedEvent<'_>) -> Option<u32>
    ensures device { tested.new.device ≡ done_by tested.old.device (watched_said event.now) }
    ensures answer { result ≡ watched_answer tested.old.device (watched_said event.now) }
{
    match event {
        WatchedEvent::Logged(event) => {
            let mut reply = [0; REPLY_ROOM];
            event::call(tested, event, &mut reply).answer()
        }
        WatchedEvent::Marked(lamp, mark) => Some(set_mark(tested, *lamp, *mark)),
    }
}
