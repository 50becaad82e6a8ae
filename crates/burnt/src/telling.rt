// What is told of a log as it is watched: its stretches as they end, and in the end each lamp's seconds.
ghost use Rattle.std.specs.Prelude.{◌≡◌, ◌≢◌, ◌⊎◌, ◌+◌, ◌≤◌, ◌<◌, ◌^◌, [], map, min, length, sum_by, if◌then◌else◌};
ghost use Rattle.std.specs.Prelude.{None, Err, option_map};
ghost use Rattle.std.specs.Prelude.{OnOk, IfOk, IfErr, IfSome};
ghost use Rattle.std.specs.Io.KnownBytes.{Appends};
ghost use Rattle.textio.specs.Fronts.{WritesFront, WritesText};
ghost use Rattle.textio.specs.Lines.{texts_of};
ghost use Rattle.textio.specs.Ahead.{left_in};
ghost use Rattle.textio.specs.NextLine.{FailureComesOf, OnFailedRead};
ghost use Rattle.floorlog.specs.Kinds.{is_history_from};
ghost use Rattle.recorded.specs.Following.{stray_seen};
ghost use Rattle.floorlog.specs.Unplayed.{none_unplayed, said_line, unplayed_by};
ghost use Rattle.watch.specs.Marking.{floor_event, floor_steps, seconds_by, done_by, watched_answer};
ghost use Rattle.watch.specs.Telling.{lit_stretch_if, after_log};
ghost use Rattle.watch.specs.Watching.{watching_from, burnt_by};
ghost use Rattle.watch.specs.States.{state_of};
ghost use Rattle.burnt.specs.Told.{head_of, tellings_text, report_after, totals_text, told_from, told_within};
ghost use Rattle.burnt.specs.LogTold.{told, EndsSo, IsTooMuch, IsToldSoFar};

use crate::chained::ChainTeller;
use floorlog::kept::KeptLine;
use floorlog::kinds::ByKind;
use floorlog::observer;
use floorlog::observer::Observer;
use floorlog::unplayed::{Unplayed, UnplayedText};
use program::telling::Ending;
use record::types::Device;
use report::Report;
use report::lamps::Totals;
use report::page::{FileNames, Stretch};
use std::io;
use text::{flag, rooms};
use textio::lines::Failure;
use textio::reader::{BufferedReader, ByteSource};
use textio::writer::ByteSink;
use watch::Watch;
use words::lamp::LAMPS_MOST;

/// The stretches that ended, if any did.
#[tactic(auto, unfolding(crate::specs::Told::tellings_text, crate::specs::Told::report_after))]
pub fn tell_ended<W: ByteSink>(
    ended: bool,
    report: &mut Report,
    watch: &Watch,
    to: &mut W,
) -> io::Result<()>
    ensures report { OnOk result (report.new ≡ report_after report.old (lit_stretch_if ended (state_of watch.now))) }
    ensures text { WritesText W.fails_with (W.contents to.old) (W.contents to.new) result
        (tellings_text report.old (lit_stretch_if ended (state_of watch.now))) }
{
    if !ended {
        return Ok(());
    }
    let device = watch.device();
    let marks = flag::raised(&device.own.enabled);
    let lit = rooms::first(&marks, device.settings.lamp_count);
    let stretch = Stretch {
        from: watch.from(),
        to: watch.time(),
    };
    report.tell(to, lit, stretch)
}

/// The seconds of each lamp, in all, of a log that began with these.
pub fn totals_of(watch: &Watch, starts: [u32; LAMPS_MOST]) -> Totals
    ensures count { result.count ≡ min watch.now.tested.device.settings.lamp_count 8 }
    ensures starts { result.starts ≡ starts }
    ensures burnt { result.burnt ≡ burnt_by (state_of watch.now) }
    ensures lasts { result.lasts ≡ watch.now.tested.device.own.lamps }
{
    let device = watch.device();
    Totals {
        count: device.settings.lamp_count.min(LAMPS_MOST),
        starts,
        burnt: watch.burnt(),
        lasts: device.own.lamps,
    }
}

// What stands last: the seconds of each lamp, and on a page what was not played, if anything was not.
fn tell_totals<W: ByteSink>(
    report: Report,
    watch: &Watch,
    starts: [u32; LAMPS_MOST],
    unplayed: &Unplayed,
    to: &mut W,
) -> io::Result<()>
    ensures { WritesText W.fails_with (W.contents to.old) (W.contents to.new) result
        (totals_text starts unplayed.now report (state_of watch.now)) }
{
    let totals = totals_of(watch, starts);
    let time = watch.time();
    if unplayed.is_none() {
        return report.end(to, time, totals, None);
    }
    let mut text = UnplayedText::new();
    unplayed.put(&mut text);
    report.end(to, time, totals, Some(text.as_slice()))
}

/// A log of the first kind that is watched, as it is told: its lamps had these seconds where it began; so many of its
/// lines came; and this of them was not played.
#[derive(Drop)]
pub struct Teller {
    watch: Watch,
    report: Report,
    starts: [u32; LAMPS_MOST],
    lines: u64,
    unplayed: Unplayed,
    ghost counted: { unplayed.misread + unplayed.refused ≤ lines },
}

impl Teller {
    /// Before a log that begins with a device.
    pub fn new(begun: Device, report: Report) -> Teller
        ensures watch { state_of result.watch ≡ watching_from begun }
        ensures report { result.report ≡ report }
        ensures starts { result.starts ≡ begun.own.lamps }
        ensures lines { result.lines ≡ 0 }
        ensures unplayed { result.unplayed ≡ none_unplayed }
    {
        let starts = begun.own.lamps;
        Teller {
            watch: Watch::new(begun),
            report,
            starts,
            lines: 0,
            unplayed: Unplayed::new(),
        }
    }

    /// The seconds that passed.
    pub fn seconds(&self) -> u64
        ensures { result ≡ self.now.watch.time }
    {
        self.watch.time()
    }

    /// What was not played.
    pub fn unplayed(&self) -> Unplayed
        ensures { result ≡ self.now.unplayed }
    {
        self.unplayed
    }
}

impl Observer for Teller {
    ghost output = { λ t ls. let u = unplayed_by watched_answer done_by t.unplayed t.lines t.watch.tested.device
        (map (said_line floor_event) (texts_of ls)) in
        told_from (totals_text t.starts u) t.report (state_of t.watch)
        (floor_steps t.watch.tested.device (map floor_event (texts_of ls))) };

    ghost leaves = { λ t ls last. let es = floor_steps t.watch.tested.device (map floor_event (texts_of ls)) in
        (last.starts ≡ t.starts)
        × (last.report ≡ report_after t.report (told_within (state_of t.watch) es))
        × (state_of last.watch ≡ after_log (state_of t.watch) es)
        × (last.unplayed ≡ unplayed_by watched_answer done_by t.unplayed t.lines t.watch.tested.device
        (map (said_line floor_event) (texts_of ls)))
        × (last.lines ≡ t.lines + length ls) };

    ghost overflows = { λ t ls.
        (2 ^ 64 ≤ t.watch.time + sum_by seconds_by (map floor_event (texts_of ls)))
        ⊎ (2 ^ 64 ≤ t.lines + length ls) };

    // A line, and the stretches that ended with it.
    fn line<W: ByteSink>(&mut self, line: &KeptLine, to: &mut W) -> Result<(), Failure> {
        let Some(number) = self.lines.checked_add(1) else {
            return Err(Failure::TooLong);
        };
        let Some(played) = self.watch.play(line) else {
            return Err(Failure::TooLong);
        };
        self.unplayed.note(number, line.text(), played.answer);
        self.lines = number;
        tell_ended(played.ended, &mut self.report, &self.watch, to).map_err(Failure::Write)
    }

    // The stretches that are under way end with the log.
    fn end<W: ByteSink>(&mut self, to: &mut W) -> io::Result<()> {
        let mut report = self.report;
        tell_ended(self.watch.is_underway(), &mut report, &self.watch, to)?;
        tell_totals(report, &self.watch, self.starts, &self.unplayed, to)
    }
}

/// How a log ended that was read to its end.
#[derive(Clone, Copy)]
pub struct LogEnding {
    /// What of it was not played, and the line of a history that did not belong.
    pub ending: Ending,
    /// The seconds that it let pass.
    pub seconds: u64,
    /// How many lines it had; of a history how many belong.
    pub lines: u64,
}

// How the log ended.
fn ending_of(teller: &ByKind<Teller, ChainTeller>) -> LogEnding
    ensures stray { option_map stray_seen result.ending.stray
        ≡ (if is_history_from teller.now.kind [] then option_map stray_seen teller.now.history.stray else None) }
    ensures unplayed { result.ending.unplayed
        ≡ (if is_history_from teller.now.kind [] then none_unplayed else teller.now.events.unplayed) }
    ensures seconds { result.seconds
        ≡ (if is_history_from teller.now.kind [] then teller.now.history.watch.time else teller.now.events.watch.time) }
    ensures lines { result.lines
        ≡ (if is_history_from teller.now.kind [] then teller.now.history.lines else teller.now.events.lines) }
{
    if teller.is_history() {
        return LogEnding {
            ending: Ending {
                stray: teller.history.stray(),
                unplayed: Unplayed::new(),
            },
            seconds: teller.history.seconds(),
            lines: teller.history.lines(),
        };
    }
    LogEnding {
        ending: Ending {
            stray: None,
            unplayed: teller.events.unplayed(),
        },
        seconds: teller.events.seconds(),
        lines: teller.events.lines,
    }
}

/// The log that a reader has left, which begins with a device: which lamp burnt when goes to a sink, as the report has
/// it, as it comes. What is told is handed on before each read, which may wait. A log whose first line begins with
/// `LOG ` is of the second kind: `sum` is the CRC-32 of the form that it begins with. A page names form and files by
/// `names`. Returns how the log ended. Errors: those of a read or a write; `TooLong` for a log with more lines, more
/// bytes in one, or more seconds than 64 bits count.
pub fn tell_log<R: ByteSource, W: ByteSink>(
    begun: Device,
    sum: u32,
    report: Report,
    names: FileNames<'_>,
    from: &mut BufferedReader<R>,
    to: &mut W,
) -> Result<LogEnding, Failure>
    ensures whole { OnOk result (IfSome (left_in R.remaining from.old) (λ log. Appends (W.contents to.old)
        (W.contents to.new) (told begun sum (head_of report names.entry) report log))) }
    ensures ending { IfOk result (λ e. IfSome (left_in R.remaining from.old) (λ log. EndsSo begun sum log e)) }
    ensures front { IfSome (left_in R.remaining from.old) (λ log. WritesFront (W.contents to.old)
        (W.contents to.new) (told begun sum (head_of report names.entry) report log)) }
    ensures none_waits { OnOk result (W.waiting to.new ≡ []) }
    ensures read { IfErr result (OnFailedRead (W.waiting to.new ≡ [])) }
    ensures broken { IfErr result (OnFailedRead (IfSome (left_in R.remaining from.old) (λ log.
        IfSome (left_in R.remaining from.new) (λ left.
        IsToldSoFar begun sum (head_of report names.entry) report log left (W.contents to.old) (W.contents to.new))))) }
    ensures err { IfErr result
        (FailureComesOf R.fails_with W.fails_with IsTooMuch (left_in R.remaining from.old)) }
    ensures short { IfSome (left_in R.remaining from.old) (λ log. length log < 2 ^ 32
        → result ≢ Err Failure.TooLong) }
{
    let mut teller = ByKind::new(
        Teller::new(begun, report),
        ChainTeller::new(begun, sum, report),
    );
    report.begin(to, names).map_err(Failure::Write)?;
    match observer::follow(&mut teller, from, to) {
        Ok(()) => Ok(ending_of(&teller)),
        Err(failure) => Err(failure),
    }
}
