// The history of a board played back: what its lines are answered, up to the first that does not belong, then the line
// of power and lamps, and which line does not belong.
ghost use Rattle.std.specs.Prelude.{◌≡◌, ◌+◌, ◌^◌, ◌≤◌, None, length, take, option_map};
ghost use Rattle.textio.specs.Fronts.{WritesText};
ghost use Rattle.device.specs.Calls.{reply_room};
ghost use Rattle.floorlog.specs.KeptText.{kept_line};
ghost use Rattle.recorded.specs.Following.{chain_begun, stray_seen};
ghost use Rattle.replay.specs.HistoryText.{replied_line, stray_ending};
ghost use Rattle.replay.specs.HistoryMade.{IsMadeAgain};

use device::calls::REPLY_ROOM;
use floorlog::kept::KeptLine;
use floorlog::last;
use floorlog::observer::Observer;
use floorlog::outcome::{EventOutcome, Printed};
use history::read::Bytes;
use history::recorder::Recorder;
use record::legality::Tested;
use record::types::Device;
use recorded::chain::{self, Why};
use recorded::stray::{StrayLine, StrayText};
use std::io;
use textio::lines::Failure;
use textio::writer;
use textio::writer::ByteSink;

/// A history that is replayed: its record, tested where the history began; the reader's state; how many of its lines
/// belong; and the first that does not, after which none is played.
#[derive(Drop)]
pub struct HistoryPlayer {
    tested: Tested,
    log: Recorder,
    lines: u64,
    stray: Option<StrayLine>,
    room: Bytes,
}

impl HistoryPlayer {
    /// Returns the player before a history that begins with a device, which need not be legal, and whose form has this
    /// sum.
    pub fn new(device: Device, sum: u32) -> HistoryPlayer
        ensures device { result.tested.device ≡ device }
        ensures log { result.log ≡ chain_begun sum }
        ensures lines { result.lines ≡ 0 }
        ensures stray { result.stray ≡ None }
    {
        HistoryPlayer {
            tested: Tested::of(device),
            log: Recorder {
                file: 0,
                lines: 0,
                sum,
            },
            lines: 0,
            stray: None,
            room: Bytes::new(),
        }
    }

    /// Returns the first line that did not belong, if any.
    pub fn stray(&self) -> Option<StrayLine>
        ensures { result ≡ self.now.stray }
    {
        self.stray
    }
}

// A line is made again, where its reader stands; the length of its reply, which fills the start of the memory.
fn make(
    log: &mut Recorder,
    t: &mut Tested,
    line: &KeptLine,
    room: &mut Bytes,
    reply: &mut [u8; REPLY_ROOM],
) -> Result<usize, Why>
    ensures { IsMadeAgain log.old t.old.device (kept_line line.now) result log.new t.new.device reply.new }
{
    if !line.is_ended() {
        return Err(Why::Unended);
    }
    room.clear();
    match chain::entry(log, &t.device, line.text(), room) {
        Ok(entry) => chain::make(log, t, &entry, line.text(), reply),
        Err(why) => Err(why),
    }
}

fn print<W: ByteSink>(
    number: u64,
    length: usize,
    reply: &[u8; REPLY_ROOM],
    to: &mut W,
) -> io::Result<()>
    requires { length ≤ reply_room }
    ensures { WritesText W.fails_with (W.contents to.old) (W.contents to.new) result
        (replied_line number (take length reply.now)) }
{
    let mut out = Printed::new();
    EventOutcome::Served(length).put_line(number, reply, &mut out);
    writer::put(to, &out)
}

fn print_stray<W: ByteSink>(stray: Option<StrayLine>, to: &mut W) -> io::Result<()>
    ensures { WritesText W.fails_with (W.contents to.old) (W.contents to.new) result
        (stray_ending (option_map stray_seen stray)) }
{
    let Some(line) = stray else {
        return Ok(());
    };
    let mut text = StrayText::new();
    line.put(&mut text);
    writer::put(to, &text)?;
    writer::put(to, b"\n")
}

impl Observer for HistoryPlayer {
    ghost use Rattle.replay.specs.HistoryPlaying.{player_prints, IsHistoryLeft};

    ghost output = { player_prints };

    ghost leaves = { IsHistoryLeft };

    ghost overflows = { λ p ls. 2 ^ 64 ≤ p.lines + length ls };

    // Once a line did not belong, none is played.
    fn line<W: ByteSink>(&mut self, line: &KeptLine, to: &mut W) -> Result<(), Failure> {
        if self.stray.is_some() {
            return Ok(());
        }
        let Some(number) = self.lines.checked_add(1) else {
            return Err(Failure::TooLong);
        };
        let mut reply = [0; REPLY_ROOM];
        match make(
            &mut self.log,
            &mut self.tested,
            line,
            &mut self.room,
            &mut reply,
        ) {
            Ok(length) => {
                self.lines = number;
                print(number, length, &reply, to).map_err(Failure::Write)
            }
            Err(why) => {
                self.stray = Some(StrayLine { line: number, why });
                Ok(())
            }
        }
    }

    fn end<W: ByteSink>(&mut self, to: &mut W) -> io::Result<()> {
        let mut out = Printed::new();
        last::put_last(&self.tested.device, &mut out);
        writer::put(to, &out)?;
        print_stray(self.stray, to)
    }
}
