// What is told of a log of the second kind as it is watched: its lines up to the first that does not belong.
ghost use Rattle.std.specs.Prelude.{◌≡◌, None, option_map};
ghost use Rattle.textio.specs.Fronts.{WritesText};
ghost use Rattle.recorded.specs.Following.{chain_begun, stray_seen};
ghost use Rattle.watch.specs.States.{state_of};
ghost use Rattle.watch.specs.Watching.{watching_from};
ghost use Rattle.burnt.specs.ChainTold.{chain_ended};

use crate::telling::{self, tell_ended};
use floorlog::kept::KeptLine;
use floorlog::observer::Observer;
use history::read::Bytes;
use history::recorder::Recorder;
use record::types::Device;
use recorded::stray::{StrayLine, StrayText};
use report::{Report, Until};
use std::io;
use textio::lines::Failure;
use textio::writer::ByteSink;
use watch::Watch;
use words::lamp::LAMPS_MOST;

// What stands last: the seconds of each lamp, and what is said of a line that does not belong.
fn tell_end<W: ByteSink>(
    report: Report,
    watch: &Watch,
    starts: [u32; LAMPS_MOST],
    lines: u64,
    stray: Option<StrayLine>,
    to: &mut W,
) -> io::Result<()>
    ensures { WritesText W.fails_with (W.contents to.old) (W.contents to.new) result
        (chain_ended starts lines (option_map stray_seen stray) report (state_of watch.now)) }
{
    let totals = telling::totals_of(watch, starts);
    let time = watch.time();
    let Some(line) = stray else {
        return report.end_until(to, time, totals, Until { lines, stray: None });
    };
    let mut text = StrayText::new();
    line.put(&mut text);
    let stray = Some(text.as_slice());
    report.end_until(to, time, totals, Until { lines, stray })
}

/// A log of the second kind that is watched, as it is told: its lamps had these seconds where it began, and so many of
/// its lines belong.
#[derive(Drop)]
pub struct ChainTeller {
    watch: Watch,
    report: Report,
    starts: [u32; LAMPS_MOST],
    log: Recorder,
    lines: u64,
    stray: Option<StrayLine>,
    room: Bytes,
}

impl ChainTeller {
    /// Before a log that begins with a device, of which the form has this sum.
    pub fn new(begun: Device, sum: u32, report: Report) -> ChainTeller
        ensures watch { state_of result.watch ≡ watching_from begun }
        ensures report { result.report ≡ report }
        ensures starts { result.starts ≡ begun.own.lamps }
        ensures log { result.log ≡ chain_begun sum }
        ensures lines { result.lines ≡ 0 }
        ensures stray { result.stray ≡ None }
    {
        let starts = begun.own.lamps;
        ChainTeller {
            watch: Watch::new(begun),
            report,
            starts,
            log: Recorder {
                file: 0,
                lines: 0,
                sum,
            },
            lines: 0,
            stray: None,
            room: Bytes::new(),
        }
    }

    /// The seconds that passed.
    pub fn seconds(&self) -> u64
        ensures { result ≡ self.now.watch.time }
    {
        self.watch.time()
    }

    /// How many lines belong.
    pub fn lines(&self) -> u64
        ensures { result ≡ self.now.lines }
    {
        self.lines
    }

    /// The first line that did not belong, if one did not.
    pub fn stray(&self) -> Option<StrayLine>
        ensures { result ≡ self.now.stray }
    {
        self.stray
    }
}

impl Observer for ChainTeller {
    ghost use Rattle.burnt.specs.ChainTelling.{teller_writes, IsChainLeft, ChainOverflows};

    ghost output = { teller_writes };

    ghost leaves = { IsChainLeft };

    ghost overflows = { ChainOverflows };

    // A line, and the stretches that ended with it; none once a line did not belong.
    fn line<W: ByteSink>(&mut self, line: &KeptLine, to: &mut W) -> Result<(), Failure> {
        if self.stray.is_some() {
            return Ok(());
        }
        let Some(number) = self.lines.checked_add(1) else {
            return Err(Failure::TooLong);
        };
        let Some(made) = self.watch.make_line(&mut self.log, &mut self.room, line) else {
            return Err(Failure::TooLong);
        };
        match made {
            Ok(ended) => {
                self.lines = number;
                tell_ended(ended, &mut self.report, &self.watch, to).map_err(Failure::Write)
            }
            Err(why) => {
                self.stray = Some(StrayLine { line: number, why });
                Ok(())
            }
        }
    }

    // The stretches that are under way end with the log.
    fn end<W: ByteSink>(&mut self, to: &mut W) -> io::Result<()> {
        let mut report = self.report;
        tell_ended(self.watch.is_underway(), &mut report, &self.watch, to)?;
        tell_end(report, &self.watch, self.starts, self.lines, self.stray, to)
    }
}
