// The rows of a page, and the bars in them. A row's picture is as wide as its days have seconds, so that a bar lies
// where its seconds do; it is stretched to the width that there is.
ghost use Rattle.std.specs.Prelude.{◌≡◌, ◌-◌, ◌+◌, ◌*◌, ◌<◌, ◌≤◌, length, set, true, IfOk};
ghost use Rattle.textio.specs.Fronts.{WritesText};
ghost use Rattle.report.specs.Rows.{span_of};
ghost use Rattle.report.specs.Days.{band_top, band_line, band, bands, lamp_name, lamp_names, days_name, row_begun};
ghost use Rattle.report.specs.Days.{idle_days, rows_opened, date_text, dated, day_name, first_name, sum_told};
ghost use Rattle.report.specs.Days.{long_line, has_long, long_days, long_day, row_end, row_ended, days_ended, row_none};
ghost use Rattle.report.specs.Days.{seconds_within, lines, band_lines, is_marked, long_in};
ghost use Rattle.report.specs.Days.{note_words, note_behind, is_noted, note_in_title, stripe, bar, bar_if, bars};
ghost use Rattle.report.specs.Days.{bars_in, is_drawn_in, bars_if, drawn_in, row_opened, row_more, row_after};
ghost use Rattle.calendar.specs.Days.{weekday, weekday_name};

use crate::page::{DAY, Stretch};
use crate::rows::{self, Layout, Scale, Span};
use calendar::{Date, Moment};
use std::io;
use textio::forms::fill;
use textio::writer::{ByteSink, put};

/// The row that is open.
#[derive(Clone, Copy)]
pub struct PageRow {
    /// How many days are before its first one.
    pub before: u64,
    /// Its last day, counted from 1; 0 where no row is open.
    pub last: u64,
    /// The seconds in it that lamps burnt.
    pub sum: u64,
    /// Of each of its days, whether it has a long burn, where a row is longer than a day.
    pub long: [bool; 31],
}

impl PageRow {
    /// No row.
    pub fn none() -> PageRow
        ensures { result ≡ row_none }
    {
        PageRow {
            before: 0,
            last: 0,
            sum: 0,
            long: [false; 31],
        }
    }
}

/// What is marked of a stretch.
#[derive(Clone, Copy)]
pub struct StretchNote {
    /// It goes over a midnight of the clock.
    pub over_midnight: bool,
    /// The hours that it passes, where it is said how many are many.
    pub hours: Option<u32>,
}

// A lamp's band with the gaps above it and below.
const BAND: u64 = 18;

// A lamp has its place, from 0; it is numbered from 1.
fn top(k: u64) -> u64
    requires { k < 8 }
    ensures top { result ≡ band_top k }
    ensures bound { result < 150 }
{
    k * BAND + 1
}

// A band of a row's picture: from where on, and how wide.
#[derive(Clone, Copy)]
struct Band {
    scale: Scale,
    x: u64,
    width: u64,
}

// The line of that number in the band of a lamp.
fn put_band_line<W: ByteSink>(out: &mut W, scale: Scale, y: u64, n: u64) -> io::Result<()>
    requires { n ≤ 10000000 }
    ensures { WritesText W.fails_with (W.contents out.old) (W.contents out.new) result (band_line scale y n) }
{
    let x = rows::line_at(scale, n);
    fill(out, "M# #v16", &[x, y])
}

// So many lines, of the numbers after `before`.
fn put_lines<W: ByteSink>(
    out: &mut W,
    scale: Scale,
    y: u64,
    before: u64,
    count: u64,
) -> io::Result<()>
    requires { before + count ≤ 10000000 }
    ensures { WritesText W.fails_with (W.contents out.old) (W.contents out.new) result
        (lines scale y before count) }
{
    for k in 0..count {
        put_band_line(out, scale, y, before + k + 1)?;
    }
    Ok(())
}

// The lines inside a band.
fn put_band_lines<W: ByteSink>(out: &mut W, b: Band, y: u64) -> io::Result<()>
    requires { (b.x + b.width ≤ 10000000) × (1 ≤ b.width) }
    ensures { WritesText W.fails_with (W.contents out.old) (W.contents out.new) result
        (band_lines b.scale b.x b.width y) }
{
    let before = rows::lines_to(b.scale, b.x);
    let last = rows::lines_to(b.scale, b.x + b.width - 1);
    put_lines(out, b.scale, y, before, last.saturating_sub(before))
}

fn put_band<W: ByteSink>(out: &mut W, b: Band, k: u64) -> io::Result<()>
    requires lamp { k < 8 }
    requires inside { (b.x + b.width ≤ 10000000) × (1 ≤ b.width) }
    ensures { WritesText W.fails_with (W.contents out.old) (W.contents out.new) result (band b.scale b.x b.width k) }
{
    let y = top(k);
    fill(
        out,
        "<rect class=\"b\" x=\"#\" width=\"#\" height=\"16\" y=\"#\"/><path class=\"h\" d=\"",
        &[b.x, b.width, y],
    )?;
    put_band_lines(out, b, y)?;
    put(out, b"\"/>")
}

fn put_bands<W: ByteSink>(out: &mut W, b: Band, lamps: u64) -> io::Result<()>
    requires lamps { lamps ≤ 8 }
    requires inside { (b.x + b.width ≤ 10000000) × (1 ≤ b.width) }
    ensures { WritesText W.fails_with (W.contents out.old) (W.contents out.new) result
        (bands b.scale b.x b.width lamps) }
{
    for k in 0..lamps {
        put_band(out, b, k)?;
    }
    Ok(())
}

fn put_name<W: ByteSink>(out: &mut W, k: u64) -> io::Result<()>
    requires { k < 8 }
    ensures { WritesText W.fails_with (W.contents out.old) (W.contents out.new) result (lamp_name k) }
{
    fill(out, "<span>lamp #</span>", &[k + 1])
}

fn put_names<W: ByteSink>(out: &mut W, lamps: u64) -> io::Result<()>
    requires { lamps ≤ 8 }
    ensures { WritesText W.fails_with (W.contents out.old) (W.contents out.new) result (lamp_names lamps) }
{
    for k in 0..lamps {
        put_name(out, k)?;
    }
    Ok(())
}

/// A day of the calendar.
pub fn put_date<W: ByteSink>(out: &mut W, date: Date) -> io::Result<()>
    ensures { WritesText W.fails_with (W.contents out.old) (W.contents out.new) result (date_text date) }
{
    let Date { year, month, day } = date;
    fill(
        out,
        "####-##-##",
        &[
            year / 1000,
            year / 100 % 10,
            year / 10 % 10,
            year % 10,
            month / 10,
            month % 10,
            day / 10,
            day % 10,
        ],
    )
}

/// A text.
pub fn put_word<W: ByteSink>(out: &mut W, word: &str) -> io::Result<()>
    ensures { WritesText W.fails_with (W.contents out.old) (W.contents out.new) result word.now }
{
    put(out, word.as_bytes())
}

fn put_weekday<W: ByteSink>(out: &mut W, number: u64) -> io::Result<()>
    ensures { WritesText W.fails_with (W.contents out.old) (W.contents out.new) result
        (weekday_name (weekday number)) }
{
    let name = calendar::weekday_name(number);
    put_word(out, name)
}

/// The weekday and the date of the day so many days after that of a moment.
pub fn put_dated<W: ByteSink>(out: &mut W, moment: Moment, days: u64) -> io::Result<()>
    ensures { WritesText W.fails_with (W.contents out.old) (W.contents out.new) result (dated moment days) }
{
    let number = moment.number.saturating_add(days);
    put_weekday(out, number)?;
    put(out, b" ")?;
    let date = moment.date.after(days);
    put_date(out, date)
}

// A day, counted from 1: its weekday and date, or its number.
fn put_day<W: ByteSink>(out: &mut W, began: Option<Moment>, day: u64) -> io::Result<()>
    ensures { WritesText W.fails_with (W.contents out.old) (W.contents out.new) result (day_name began day) }
{
    match began {
        None => fill(out, "day #", &[day]),
        Some(m) => put_dated(out, m, day.saturating_sub(1)),
    }
}

// The first of the days after the day `rows` up to the day `day`, where there are several.
fn put_first<W: ByteSink>(out: &mut W, began: Option<Moment>, rows: u64, day: u64) -> io::Result<()>
    requires { rows < day }
    ensures { WritesText W.fails_with (W.contents out.old) (W.contents out.new) result (first_name began rows day) }
{
    if day <= rows + 1 {
        return Ok(());
    }
    put_day(out, began, rows + 1)?;
    put(out, b" to ")
}

// The days after the day `rows` up to the day `day`: the first and the last of them, or the only one.
fn put_days<W: ByteSink>(out: &mut W, began: Option<Moment>, rows: u64, day: u64) -> io::Result<()>
    requires { rows < day }
    ensures { WritesText W.fails_with (W.contents out.old) (W.contents out.new) result (days_name began rows day) }
{
    put_first(out, began, rows, day)?;
    put_day(out, began, day)
}

// Of days in which no lamp burnt, those after the day `rows` up to the day `day`, one line.
fn put_idle<W: ByteSink>(out: &mut W, began: Option<Moment>, rows: u64, day: u64) -> io::Result<()>
    ensures { WritesText W.fails_with (W.contents out.old) (W.contents out.new) result (idle_days began rows day) }
{
    if day <= rows {
        return Ok(());
    }
    put(out, b"<tr><th scope=\"row\">")?;
    put_days(out, began, rows, day)?;
    put(out, b"</th><td colspan=\"3\">no lamp burnt</td></tr>\n")
}

fn put_sum<W: ByteSink>(out: &mut W, sum: u64) -> io::Result<()>
    ensures { WritesText W.fails_with (W.contents out.old) (W.contents out.new) result (sum_told sum) }
{
    fill(
        out,
        "</svg></td><td># h # min</td></tr>\n",
        &[sum / 3600, sum / 60 % 60],
    )
}

// The line of a day that has a burn of more than so many hours.
fn put_long_line<W: ByteSink>(
    out: &mut W,
    began: Option<Moment>,
    hours: u32,
    day: u64,
) -> io::Result<()>
    ensures { WritesText W.fails_with (W.contents out.old) (W.contents out.new) result (long_line began hours day) }
{
    put(out, b"<tr><th scope=\"row\">")?;
    put_day(out, began, day)?;
    fill(
        out,
        "</th><td colspan=\"3\">a burn of more than # h</td></tr>\n",
        &[hours as u64],
    )
}

fn has_long(row: PageRow, k: u64) -> bool
    ensures { result ≡ has_long row k }
{
    if 31 <= k {
        return false;
    }
    row.long[k as usize]
}

// The same of the day that so many days of the row are before, if it is marked.
fn put_long_day<W: ByteSink>(out: &mut W, v: Layout, row: PageRow, k: u64) -> io::Result<()>
    requires { k < row.last - row.before }
    ensures { WritesText W.fails_with (W.contents out.old) (W.contents out.new) result (long_day v row k) }
{
    match v.long {
        Some(hours) if has_long(row, k) => put_long_line(out, v.began, hours, row.before + k + 1),
        _ => Ok(()),
    }
}

// The days of a row that have a long burn, a line each.
fn put_long_days<W: ByteSink>(out: &mut W, v: Layout, row: PageRow) -> io::Result<()>
    ensures { WritesText W.fails_with (W.contents out.old) (W.contents out.new) result (long_days v row) }
{
    let days = row.last.saturating_sub(row.before);
    for k in 0..days {
        put_long_day(out, v, row, k)?;
    }
    Ok(())
}

fn put_row_end<W: ByteSink>(out: &mut W, v: Layout, row: PageRow) -> io::Result<()>
    ensures { WritesText W.fails_with (W.contents out.old) (W.contents out.new) result (row_end v row) }
{
    put_sum(out, row.sum)?;
    put_long_days(out, v, row)
}

// The row that is open ends, if there is one.
fn end_row<W: ByteSink>(out: &mut W, v: Layout, row: PageRow) -> io::Result<()>
    ensures { WritesText W.fails_with (W.contents out.old) (W.contents out.new) result (row_ended v row) }
{
    if row.last == 0 {
        return Ok(());
    }
    put_row_end(out, v, row)
}

// A row of those days: its name, those of the lamps, and a picture with a band for each.
fn put_row<W: ByteSink>(out: &mut W, v: Layout, lamps: u64, s: Span) -> io::Result<()>
    requires lamps { lamps ≤ 8 }
    requires lead { s.lead ≤ 30 }
    requires days { (s.before < s.last) × (s.last ≤ s.before + 31) }
    ensures { WritesText W.fails_with (W.contents out.old) (W.contents out.new) result (row_begun v lamps s) }
{
    put(out, b"<tr><th scope=\"row\">")?;
    put_days(out, v.began, s.before, s.last)?;
    put(out, b"</th><td class=\"n\">")?;
    put_names(out, lamps)?;
    let height = lamps * BAND;
    fill(
        out,
        "</td><td class=\"p\"><svg viewBox=\"0 0 # #\" height=\"#\" preserveAspectRatio=\"none\" role=\"img\" \
        aria-label=\"when each lamp burnt on ",
        &[rows::box_width(v.scale), height, height],
    )?;
    put_days(out, v.began, s.before, s.last)?;
    put(out, b"\">")?;
    put_bands(
        out,
        Band {
            scale: v.scale,
            x: s.lead * DAY,
            width: (s.last - s.before) * DAY,
        },
        lamps,
    )
}

/// The rows after the one that is open up to that of the day; the row that is open then.
fn open_to<W: ByteSink>(
    out: &mut W,
    v: Layout,
    lamps: u64,
    row: PageRow,
    day: u64,
) -> io::Result<PageRow>
    requires lamps { lamps ≤ 8 }
    requires day { (1 ≤ day) × (day ≤ 1000000000000000) }
    ensures row { IfOk result (λ r. r ≡ row_opened v row day) }
    ensures text { WritesText W.fails_with (W.contents out.old) (W.contents out.new) result
        (rows_opened v lamps row day) }
{
    if day <= row.last {
        return Ok(row);
    }
    let span = rows::span_of(v, day);
    end_row(out, v, row)?;
    put_idle(out, v.began, row.last, span.before)?;
    put_row(out, v, lamps, span)?;
    Ok(PageRow {
        before: span.before,
        last: span.last,
        sum: 0,
        long: [false; 31],
    })
}

/// The rows after the one that is open up to that of the day, where no lamp burnt in these.
pub fn end<W: ByteSink>(out: &mut W, v: Layout, row: PageRow, day: u64) -> io::Result<()>
    ensures { WritesText W.fails_with (W.contents out.old) (W.contents out.new) result (days_ended v row day) }
{
    end_row(out, v, row)?;
    put_idle(out, v.began, row.last, day)
}

/// What is marked of a stretch, in words.
pub fn put_note<W: ByteSink>(out: &mut W, note: StretchNote) -> io::Result<()>
    ensures { WritesText W.fails_with (W.contents out.old) (W.contents out.new) result (note_words note) }
{
    match (note.over_midnight, note.hours) {
        (false, None) => Ok(()),
        (true, None) => put(out, b"over midnight"),
        (false, Some(hours)) => fill(out, "over # h", &[hours as u64]),
        (true, Some(hours)) => fill(out, "over midnight and over # h", &[hours as u64]),
    }
}

fn is_noted(note: StretchNote) -> bool
    ensures { result ≡ is_noted note }
{
    note.over_midnight || note.hours.is_some()
}

fn put_behind<W: ByteSink>(out: &mut W, note: StretchNote) -> io::Result<()>
    ensures { WritesText W.fails_with (W.contents out.old) (W.contents out.new) result (note_behind note) }
{
    put(out, b", ")?;
    put_note(out, note)
}

// The same behind a bar's title, where there is a note.
fn put_note_in_title<W: ByteSink>(out: &mut W, note: StretchNote) -> io::Result<()>
    ensures { WritesText W.fails_with (W.contents out.old) (W.contents out.new) result (note_in_title note) }
{
    if !is_noted(note) {
        return Ok(());
    }
    put_behind(out, note)
}

// A stripe on the bar, where it is marked.
fn put_stripe<W: ByteSink>(
    out: &mut W,
    note: StretchNote,
    x: u64,
    seconds: u64,
    k: u64,
) -> io::Result<()>
    requires { k < 8 }
    ensures { WritesText W.fails_with (W.contents out.old) (W.contents out.new) result (stripe note x seconds k) }
{
    if !is_noted(note) {
        return Ok(());
    }
    fill(
        out,
        "<rect class=\"m\" height=\"4\" y=\"#\" x=\"#\" width=\"#\"/>",
        &[top(k) + 6, x, seconds],
    )
}

// What of a stretch lies in a row: from the place x of its picture on, so many seconds.
#[derive(Clone, Copy)]
struct RowPart {
    whole: Stretch,
    note: StretchNote,
    x: u64,
    seconds: u64,
    ghost ordered: { whole.from ≤ whole.to },
}

// The bar of a lamp.
fn put_bar<W: ByteSink>(out: &mut W, k: u64, p: RowPart) -> io::Result<()>
    requires { k < 8 }
    ensures { WritesText W.fails_with (W.contents out.old) (W.contents out.new) result
        (bar p.note p.whole.from p.whole.to p.x p.seconds k) }
{
    let Stretch { from, to } = p.whole;
    fill(
        out,
        "<rect class=\"l\" height=\"16\" y=\"#\" x=\"#\" width=\"#\">\
        <title>lamp # from # to #: # seconds",
        &[top(k), p.x, p.seconds, k + 1, from, to, to - from],
    )?;
    put_note_in_title(out, p.note)?;
    put(out, b"</title></rect>")?;
    put_stripe(out, p.note, p.x, p.seconds, k)
}

// The same, if the lamp's mark is set.
fn put_bar_if<W: ByteSink>(out: &mut W, k: u64, is_lit: bool, p: RowPart) -> io::Result<()>
    requires { k < 8 }
    ensures { WritesText W.fails_with (W.contents out.old) (W.contents out.new) result
        (bar_if is_lit p.note p.whole.from p.whole.to p.x p.seconds k) }
{
    if !is_lit {
        return Ok(());
    }
    put_bar(out, k, p)
}

fn put_bars<W: ByteSink>(out: &mut W, lit: &[bool], p: RowPart) -> io::Result<()>
    requires { length lit.now ≤ 8 }
    ensures { WritesText W.fails_with (W.contents out.old) (W.contents out.new) result
        (bars lit.now p.note p.whole.from p.whole.to p.x p.seconds) }
{
    for (k, is_lit) in lit.iter().enumerate() {
        put_bar_if(out, k as u64, *is_lit, p)?;
    }
    Ok(())
}

/// A stretch of the lamps whose marks are set, and where it lies, counted from the first midnight.
#[derive(Clone, Copy)]
pub struct Placed<'a> {
    /// The marks, of eight lamps at most.
    pub lit: &'a [bool],
    /// The stretch.
    pub whole: Stretch,
    /// What is marked of it.
    pub note: StretchNote,
    /// Where it lies.
    pub at: Stretch,
}

// What of the stretch lies in the row.
fn put_bars_in<W: ByteSink>(out: &mut W, s: Span, p: Placed<'_>) -> io::Result<()>
    requires eight_at_most { length p.lit.now ≤ 8 }
    requires lead { s.lead ≤ 30 }
    requires days { (s.before < s.last) × (s.last ≤ s.before + 31) }
    requires begun { s.before * 86400 < p.at.to }
    requires in_order { p.whole.from ≤ p.whole.to }
    ensures { WritesText W.fails_with (W.contents out.old) (W.contents out.new) result
        (bars_in s p.entry.lit.now p.entry.note p.entry.at.from p.entry.at.to p.entry.whole.from p.entry.whole.to) }
{
    let midnight = s.before * DAY;
    let x = p.at.from.saturating_sub(midnight);
    let y = (p.at.to - midnight).min((s.last - s.before) * DAY);
    if y <= x {
        return Ok(());
    }
    put_bars(
        out,
        p.lit,
        RowPart {
            whole: p.whole,
            note: p.note,
            x: s.lead * DAY + x,
            seconds: y - x,
        },
    )
}

// Whether a stretch is drawn in that day: where its row opens then, or the stretch begins.
fn is_drawn_in(row: PageRow, day: u64, first: u64) -> bool
    ensures { result ≡ is_drawn_in row day first }
{
    row.last < day || day == first / DAY + 1
}

fn put_bars_of<W: ByteSink>(out: &mut W, v: Layout, day: u64, p: Placed<'_>) -> io::Result<()>
    requires eight_at_most { length p.lit.now ≤ 8 }
    requires begun { (1 ≤ day) × ((day - 1) * 86400 < p.at.to) }
    requires in_order { p.whole.from ≤ p.whole.to }
    ensures { WritesText W.fails_with (W.contents out.old) (W.contents out.new) result
        (bars_in (span_of v day) p.entry.lit.now p.entry.note p.entry.at.from p.entry.at.to
        p.entry.whole.from p.entry.whole.to) }
{
    let span = rows::span_of(v, day);
    put_bars_in(out, span, p)
}

// What of the stretch lies in the row of the day, if it is drawn then.
fn put_bars_if<W: ByteSink>(
    out: &mut W,
    is_drawn: bool,
    v: Layout,
    day: u64,
    p: Placed<'_>,
) -> io::Result<()>
    requires eight_at_most { length p.lit.now ≤ 8 }
    requires begun { (1 ≤ day) × ((day - 1) * 86400 < p.at.to) }
    requires in_order { p.whole.from ≤ p.whole.to }
    ensures { WritesText W.fails_with (W.contents out.old) (W.contents out.new) result
        (bars_if is_drawn v day p.entry.lit.now p.entry.note p.entry.at.from p.entry.at.to
        p.entry.whole.from p.entry.whole.to) }
{
    if !is_drawn {
        return Ok(());
    }
    put_bars_of(out, v, day, p)
}

// So many seconds of what lies there are in the day, counted from 1.
fn seconds_within(day: u64, at: Stretch) -> u64
    requires { (1 ≤ day) × ((day - 1) * 86400 < at.to) }
    ensures { result ≡ seconds_within day at.from at.to }
{
    let midnight = (day - 1) * DAY;
    let y = (at.to - midnight).min(DAY);
    y.saturating_sub(at.from.saturating_sub(midnight))
}

// Whether a day is marked in its row.
fn is_marked(scale: Scale, note: StretchNote) -> bool
    ensures { result ≡ is_marked scale note }
{
    match scale {
        Scale::Day => false,
        _ => note.hours.is_some(),
    }
}

// The marks with that of the day which so many days of the row are before.
fn marked(marks: [bool; 31], k: u64) -> [bool; 31]
    ensures { result ≡ set marks k true }
{
    let mut long = marks;
    if k < 31 {
        long[k as usize] = true;
    }
    long
}

fn long_in(row: PageRow, day: u64, is_marked: bool) -> [bool; 31]
    ensures { result ≡ long_in row day is_marked }
{
    if !is_marked {
        return row.long;
    }
    marked(row.long, day.saturating_sub(1).saturating_sub(row.before))
}

// A day's burn counts in its row.
fn add(row: PageRow, day: u64, seconds: u64, is_marked: bool) -> PageRow
    ensures { result ≡ row_more row day seconds is_marked }
{
    PageRow {
        before: row.before,
        last: row.last,
        sum: row.sum.saturating_add(seconds),
        long: long_in(row, day, is_marked),
    }
}

/// The rows up to that of the day, and in it what of the stretch lies there; the row that is open then.
pub fn draw_in<W: ByteSink>(
    out: &mut W,
    v: Layout,
    row: PageRow,
    day: u64,
    placed: Placed<'_>,
) -> io::Result<PageRow>
    requires eight_at_most { length placed.lit.now ≤ 8 }
    requires begun { (1 ≤ day) × ((day - 1) * 86400 < placed.at.to) }
    requires in_order { placed.whole.from ≤ placed.whole.to }
    ensures row { IfOk result (λ r. r ≡ row_after v placed.entry.note placed.entry.at.from placed.entry.at.to row day) }
    ensures text { WritesText W.fails_with (W.contents out.old) (W.contents out.new) result
        (drawn_in v placed.entry.lit.now placed.entry.note placed.entry.at.from placed.entry.at.to
        placed.entry.whole.from placed.entry.whole.to row day) }
{
    let opened = open_to(out, v, placed.lit.len() as u64, row, day)?;
    let is_drawn = is_drawn_in(row, day, placed.at.from);
    put_bars_if(out, is_drawn, v, day, placed)?;
    Ok(add(
        opened,
        day,
        seconds_within(day, placed.at),
        is_marked(v.scale, placed.note),
    ))
}
