// One self-contained HTML document, written in two parts: the picture has a row for each day, week or month of the log
// in which a lamp burnt, in it a band for each lamp, lit stretches as bars, and one line for days in which no lamp
// burnt; what a place along the row is, along the top; a table of totals. Then comes the table of the stretches (RULES,
// Floor log). It is written as the log is read: a stretch is drawn once it has ended, and rows are opened up to its
// days. Bands stand apart by place and name, so that no colour has to be told from another.
ghost use Rattle.std.specs.Prelude.{◌≡◌, ◌-◌, ◌≤◌, length, IfOk};
ghost use Rattle.textio.specs.Fronts.{WritesText};
ghost use Rattle.report.specs.Days.{at, days_of, is_any_lit, is_over_midnight, hours_passed, note_of, row_drawn};
ghost use Rattle.report.specs.Days.{stretch_drawn};
ghost use Rattle.report.specs.Frame.{layout_of, days_closed, page_begun, days_told, page_ended, page_ended_until};
ghost use Rattle.report.specs.Reports.{sheet_new, longest_of, given_text, texts_given};

use crate::days::{PageRow, Placed, StretchNote};
use crate::lamps::Totals;
use crate::rows::Layout;
use crate::{Until, days, frame, rows};
use calendar::Moment;
use record::types::Text;
use std::io;
use textio::writer::{ByteSink, put};

/// The seconds of a day.
pub(crate) const DAY: u64 = 86400;

/// A stretch that lamps burnt, in seconds since the log began; the second `to` is not in it.
#[derive(Clone, Copy)]
pub struct Stretch {
    /// Its first second, from 0 when the log began.
    pub from: u64,
    /// The second after its last one.
    pub to: u64,
}

/// A projector, as its settings have it.
#[derive(Clone, Copy)]
pub struct Projector {
    /// Its name.
    pub name: Text,
    /// Its maker.
    pub maker: Text,
    /// Its model.
    pub model: Text,
}

/// What is asked of a page and a table beside the stretches.
#[derive(Clone, Copy)]
pub struct Query {
    /// When the log began, if that is known.
    pub began: Option<Moment>,
    /// A stretch of more than so many hours is marked, if that is said.
    pub long: Option<u32>,
    /// So many hours a lamp lives, if that is said.
    pub life: Option<u32>,
    /// The projector that the log is of.
    pub projector: Projector,
}

/// The files that a page is of.
#[derive(Clone, Copy)]
pub struct FileNames<'a> {
    /// That of the stored form; none for the sample set-up.
    pub form: Option<&'a str>,
    /// Those of the log, in their order; `-` is standard input.
    pub logs: &'a [&'a str],
}

/// What is known of a page's picture while it is written.
#[derive(Clone, Copy)]
pub struct Sheet {
    /// What is asked of the page.
    pub query: Query,
    /// The seconds of the log.
    pub seconds: u64,
    /// The row that is open.
    pub row: PageRow,
    /// The longest stretch so far; from 0 to 0 where there is none.
    pub longest: Stretch,
}

impl Sheet {
    /// Before any stretch of a log of so many seconds.
    pub fn new(query: Query, seconds: u64) -> Sheet
        ensures { result ≡ sheet_new query seconds }
    {
        Sheet {
            query,
            seconds,
            row: PageRow::none(),
            longest: Stretch { from: 0, to: 0 },
        }
    }
}

/// What the rows of a page follow.
pub(crate) fn layout_of(query: Query, seconds: u64) -> Layout
    ensures { result ≡ layout_of query seconds }
{
    let days = days_until(at(query.began, seconds));
    Layout {
        began: query.began,
        long: query.long,
        scale: rows::scale_of(days),
    }
}

/// What stands above the rows, of a log of so many seconds.
pub fn begin<W: ByteSink>(
    out: &mut W,
    query: Query,
    seconds: u64,
    names: FileNames<'_>,
) -> io::Result<()>
    ensures { WritesText W.fails_with (W.contents out.old) (W.contents out.new) result
        (page_begun query seconds (given_text names.entry.form) (texts_given names.entry.logs.now)) }
{
    let layout = layout_of(query, seconds);
    frame::put_head(out)?;
    frame::put_about(out, query.projector, names)?;
    frame::put_log_span(out, query.began, seconds)?;
    frame::put_clock(out, layout)?;
    frame::put_stripe_text(out, query.began, query.long)?;
    frame::put_head_of_rows(out, layout.scale)?;
    frame::put_labels(out, layout)
}

/// A second of the log, counted from the first midnight on.
pub(crate) fn at(began: Option<Moment>, second: u64) -> u64
    ensures { result ≡ at began second }
{
    match began {
        None => second,
        Some(m) => second.saturating_add(m.second),
    }
}

// So many days have one of these seconds. A log of no seconds has its first day all the same.
fn days_until(seconds: u64) -> u64
    ensures { result ≡ days_of seconds }
{
    if 0 < seconds {
        return (seconds - 1) / DAY + 1;
    }
    1
}

pub(crate) fn is_any(lit: &[bool]) -> bool
    ensures { result ≡ is_any_lit lit.now }
{
    lit.iter().any(|is_lit| *is_lit)
}

fn is_over_midnight(began: Option<Moment>, s: Stretch) -> bool
    ensures { result ≡ is_over_midnight began s.from s.to }
{
    match began {
        None => false,
        Some(_) => at(began, s.from) / DAY + 1 < days_until(at(began, s.to)),
    }
}

fn hours_passed(long: Option<u32>, seconds: u64) -> Option<u32>
    ensures { result ≡ hours_passed long seconds }
{
    match long {
        Some(hours) if (hours as u64) * 3600 < seconds => Some(hours),
        _ => None,
    }
}

/// What is marked of a stretch.
pub fn note_of(began: Option<Moment>, long: Option<u32>, stretch: Stretch) -> StretchNote
    ensures { result ≡ note_of began long stretch.from stretch.to }
{
    StretchNote {
        over_midnight: is_over_midnight(began, stretch),
        hours: hours_passed(long, stretch.to.saturating_sub(stretch.from)),
    }
}

/// The longest of the stretches, of which this was the longest before; the first of those that are equally long.
pub fn longest_of(longest: Stretch, lit: &[bool], stretch: Stretch) -> Stretch
    ensures { result ≡ longest_of longest lit.now stretch.from stretch.to }
{
    if is_any(lit)
        && longest.to.saturating_sub(longest.from) < stretch.to.saturating_sub(stretch.from)
    {
        return stretch;
    }
    longest
}

/// A stretch of the lamps whose marks are set; the row that is open then. Of no lamp nothing is drawn.
pub fn draw<W: ByteSink>(
    out: &mut W,
    layout: Layout,
    row: PageRow,
    lit: &[bool],
    stretch: Stretch,
) -> io::Result<PageRow>
    requires { length lit.now ≤ 8 }
    ensures row { IfOk result (λ r. r ≡ row_drawn layout row lit.now stretch.from stretch.to) }
    ensures text { WritesText W.fails_with (W.contents out.old) (W.contents out.new) result
        (stretch_drawn layout row lit.now stretch.from stretch.to) }
{
    let first = at(layout.began, stretch.from);
    let last = at(layout.began, stretch.to);
    if last <= first {
        return Ok(row);
    }
    let burns = is_any(lit);
    if !burns {
        return Ok(row);
    }
    let note = note_of(layout.began, layout.long, stretch);
    let placed = Placed {
        lit,
        whole: stretch,
        note,
        at: Stretch {
            from: first,
            to: last,
        },
    };
    let mut open = row;
    for before in first / DAY..days_until(last) {
        open = days::draw_in(out, layout, open, before + 1, placed)?;
    }
    Ok(open)
}

fn close_days<W: ByteSink>(out: &mut W) -> io::Result<()>
    ensures { WritesText W.fails_with (W.contents out.old) (W.contents out.new) result days_closed }
{
    put(out, b"</tbody></table>\n")
}

// The rows up to the end of a log of so many seconds, and what stands below them.
fn end_days<W: ByteSink>(out: &mut W, sheet: Sheet, seconds: u64, t: Totals) -> io::Result<()>
    requires { t.count ≤ 8 }
    ensures { WritesText W.fails_with (W.contents out.old) (W.contents out.new) result
        (days_told sheet seconds t.count t.starts t.burnt t.lasts) }
{
    let began = sheet.query.began;
    let layout = layout_of(sheet.query, sheet.seconds);
    let last = days_until(at(began, seconds));
    days::end(out, layout, sheet.row, last)?;
    close_days(out)?;
    frame::put_table(out, sheet.query, seconds, t)?;
    frame::put_longest(out, began, sheet.longest)
}

/// The end of the picture of a log of so many seconds: the rows up to its end, and what stands below them; last what
/// was not played of it, if anything was not.
pub fn end<W: ByteSink>(
    out: &mut W,
    sheet: Sheet,
    seconds: u64,
    totals: Totals,
    unplayed: Option<&[u8]>,
) -> io::Result<()>
    requires { totals.count ≤ 8 }
    ensures { WritesText W.fails_with (W.contents out.old) (W.contents out.new) result
        (page_ended sheet seconds totals.count totals.starts totals.burnt totals.lasts (given_text unplayed.entry)) }
{
    end_days(out, sheet, seconds, totals)?;
    frame::put_paragraph(out, unplayed)
}

/// The same for a log of the second kind: until when it goes, and what is said of a line that does not belong.
pub fn end_until<W: ByteSink>(
    out: &mut W,
    sheet: Sheet,
    seconds: u64,
    totals: Totals,
    until: Until<'_>,
) -> io::Result<()>
    requires { totals.count ≤ 8 }
    ensures { WritesText W.fails_with (W.contents out.old) (W.contents out.new) result
        (page_ended_until sheet seconds totals.count totals.starts totals.burnt totals.lasts until.entry.lines
        (given_text until.entry.stray)) }
{
    end_days(out, sheet, seconds, totals)?;
    frame::put_until(out, seconds, until.lines)?;
    frame::put_paragraph(out, until.stray)
}
