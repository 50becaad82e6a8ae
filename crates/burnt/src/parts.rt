// A report in its parts: each reads the whole log, from its start (RULES, The programs).
ghost use Rattle.std.specs.Prelude.{◌≡◌, [], OnOk, IfOk, IfErr, IfSome, is_ok, option_map};
ghost use Rattle.std.specs.Io.KnownBytes.{Appends};
ghost use Rattle.textio.specs.Fronts.{WritesFront};
ghost use Rattle.command.specs.Asked.{asked_seen};
ghost use Rattle.recorded.specs.Following.{stray_seen};
ghost use Rattle.floorlog.specs.Unplayed.{unplayed_text};
ghost use Rattle.program.specs.Joined.{joined_bytes, files_asked};
ghost use Rattle.program.specs.Telling.{CutsOff};
ghost use Rattle.program.specs.declared.telling.CutCause.TheVariants.{Changed};
ghost use Rattle.report.specs.Reports.{given_text, texts_given};
ghost use Rattle.burnt.specs.LogTold.{EndsSo, IsTooMuch};
ghost use Rattle.burnt.specs.Asked.{query_of};
ghost use Rattle.burnt.specs.Parts.{part_told, page_told, asked_told, are_alike, stray_said};

use crate::telling;
use crate::telling::LogEnding;
use command::asked::{Arguments, Shape};
use floorlog::unplayed::UnplayedText;
use formfile::Begun;
use program::joined;
use program::joined::{Joined, Opens};
use program::telling::{CutCause, CutOff};
use record::types::Device;
use recorded::stray::StrayText;
use report::Report;
use report::page::{FileNames, Projector, Query, Sheet};
use report::table::StretchTable;
use textio::reader::BufferedReader;
use textio::streams::Stream;
use textio::writer::ByteSink;

// What is said of a line that does not belong; nothing where each does.
fn stray_said(ending: &LogEnding) -> StrayText
    ensures { result.items ≡ stray_said (option_map stray_seen ending.now.ending.stray) }
{
    let mut text = StrayText::new();
    if let Some(line) = &ending.ending.stray {
        line.put(&mut text);
    }
    text
}

fn unplayed_said(ending: &LogEnding) -> UnplayedText
    ensures { result.items ≡ unplayed_text ending.now.ending.unplayed }
{
    let mut text = UnplayedText::new();
    ending.ending.unplayed.put(&mut text);
    text
}

// Whether two readings of a log ended alike.
fn are_alike(one: &LogEnding, other: &LogEnding) -> bool
    ensures { result ≡ are_alike one.now other.now }
{
    one.seconds == other.seconds
        && one.lines == other.lines
        && stray_said(one).as_slice() == stray_said(other).as_slice()
        && unplayed_said(one).as_slice() == unplayed_said(other).as_slice()
}

// The ending of a reading, if an earlier one ended alike; else the log changed.
fn unchanged<'w>(earlier: &LogEnding, ending: LogEnding) -> Result<LogEnding, CutOff<'w>>
    ensures alike { is_ok result ≡ are_alike earlier.now ending }
    ensures same { IfOk result (λ e. e ≡ ending) }
    ensures changed { IfErr result (λ cut. cut.cause ≡ Changed) }
{
    if are_alike(earlier, &ending) {
        return Ok(ending);
    }
    Err(CutOff {
        cause: CutCause::Changed,
        file: "-",
    })
}

// What is asked of a page or a table of a log that begins with that device.
fn query_of(command: &Arguments<'_>, begun: &Device) -> Query
    ensures { result ≡ query_of (asked_seen command.now) begun.now }
{
    Query {
        began: command.began,
        long: command.long,
        life: command.life,
        projector: Projector {
            name: begun.settings.name,
            maker: begun.settings.maker,
            model: begun.settings.model,
        },
    }
}

// The names of the form and of the log's files.
fn names_of<'c>(command: &'c Arguments<'c>) -> FileNames<'c>
    ensures form { given_text result.form ≡ (asked_seen command.now).form }
    ensures logs { texts_given result.logs.now ≡ files_asked (asked_seen command.now) }
{
    FileNames {
        form: command.form,
        logs: joined::files_of(command),
    }
}

// A part of a report, of the log from its start.
fn tell_part<'w, O: Opens, W: ByteSink>(
    begun: &Begun,
    command: &Arguments<'w>,
    report: Report,
    opens: &O,
    to: &mut W,
) -> Result<LogEnding, CutOff<'w>>
    ensures whole { OnOk result (IfSome (joined_bytes (O.log_bytes opens.now) (files_asked (asked_seen command.now)))
        (λ log. Appends (W.contents to.old) (W.contents to.new)
        (part_told (asked_seen command.now) begun.now report log))) }
    ensures ending { IfOk result (λ e.
        IfSome (joined_bytes (O.log_bytes opens.now) (files_asked (asked_seen command.now)))
        (λ log. EndsSo begun.now.device begun.now.sum log e)) }
    ensures front { IfSome (joined_bytes (O.log_bytes opens.now) (files_asked (asked_seen command.now)))
        (λ log. WritesFront (W.contents to.old) (W.contents to.new)
        (part_told (asked_seen command.now) begun.now report log)) }
    ensures none_waits { OnOk result (W.waiting to.new ≡ []) }
    ensures err { IfErr result (λ cut. CutsOff W.fails_with IsTooMuch
        (joined_bytes (O.log_bytes opens.now) (files_asked (asked_seen command.now))) cut.cause) }
{
    let mut log = Joined::new(opens, joined::files_of(command));
    let told = telling::tell_log(
        begun.device,
        begun.sum,
        report,
        names_of(command),
        &mut BufferedReader::new(Stream(&mut log)),
        to,
    );
    match told {
        Ok(ending) => Ok(ending),
        Err(failure) => Err(CutOff {
            cause: CutCause::Log(failure),
            file: log.name(),
        }),
    }
}

// A page: a survey of the log, the picture and the table.
fn tell_page<'w, O: Opens, W: ByteSink>(
    begun: &Begun,
    command: &Arguments<'w>,
    query: Query,
    opens: &O,
    to: &mut W,
) -> Result<LogEnding, CutOff<'w>>
    ensures whole { OnOk result (IfSome (joined_bytes (O.log_bytes opens.now) (files_asked (asked_seen command.now)))
        (λ log. Appends (W.contents to.old) (W.contents to.new)
        (page_told (asked_seen command.now) begun.now query log))) }
    ensures ending { IfOk result (λ e.
        IfSome (joined_bytes (O.log_bytes opens.now) (files_asked (asked_seen command.now)))
        (λ log. EndsSo begun.now.device begun.now.sum log e)) }
    ensures front { IfSome (joined_bytes (O.log_bytes opens.now) (files_asked (asked_seen command.now)))
        (λ log. WritesFront (W.contents to.old) (W.contents to.new)
        (page_told (asked_seen command.now) begun.now query log)) }
    ensures none_waits { OnOk result (W.waiting to.new ≡ []) }
    ensures err { IfErr result (λ cut. CutsOff W.fails_with IsTooMuch
        (joined_bytes (O.log_bytes opens.now) (files_asked (asked_seen command.now))) cut.cause) }
{
    let survey = tell_part(begun, command, Report::Survey, opens, to)?;
    let sheet = Sheet::new(query, survey.seconds);
    let drawn = tell_part(begun, command, Report::Picture(sheet), opens, to)?;
    unchanged(&survey, drawn)?;
    let table = StretchTable::new(query);
    let listed = tell_part(begun, command, Report::Table(table), opens, to)?;
    unchanged(&survey, listed)
}

/// Writes what a command line asks for: a page in its three parts, or the one part of lines or of comma-separated
/// values. Errors, with the file that was read last: those of a read or a write; `TooLong` as for
/// [`telling::tell_log`]; `Changed` where the parts of a page did not find the log to end alike.
pub fn tell<'w, O: Opens, W: ByteSink>(
    begun: &Begun,
    command: &Arguments<'w>,
    opens: &O,
    to: &mut W,
) -> Result<LogEnding, CutOff<'w>>
    ensures whole { OnOk result (IfSome (joined_bytes (O.log_bytes opens.now) (files_asked (asked_seen command.now)))
        (λ log. Appends (W.contents to.old) (W.contents to.new)
        (asked_told (asked_seen command.now) begun.now log))) }
    ensures ending { IfOk result (λ e.
        IfSome (joined_bytes (O.log_bytes opens.now) (files_asked (asked_seen command.now)))
        (λ log. EndsSo begun.now.device begun.now.sum log e)) }
    ensures front { IfSome (joined_bytes (O.log_bytes opens.now) (files_asked (asked_seen command.now)))
        (λ log. WritesFront (W.contents to.old) (W.contents to.new)
        (asked_told (asked_seen command.now) begun.now log)) }
    ensures none_waits { OnOk result (W.waiting to.new ≡ []) }
    ensures err { IfErr result (λ cut. CutsOff W.fails_with IsTooMuch
        (joined_bytes (O.log_bytes opens.now) (files_asked (asked_seen command.now))) cut.cause) }
{
    let query = query_of(command, &begun.device);
    match command.shape {
        Shape::Lines => tell_part(begun, command, Report::Lines, opens, to),
        Shape::Page => tell_page(begun, command, query, opens, to),
        Shape::Csv => tell_part(begun, command, Report::Csv(query), opens, to),
    }
}
