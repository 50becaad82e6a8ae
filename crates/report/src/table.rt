// The stretches as a table: of comma-separated values (RFC 4180), or on a page (RULES, Floor log).
ghost use Rattle.std.specs.Prelude.{◌≡◌, ◌+◌, ◌<◌, ◌≤◌, length};
ghost use Rattle.textio.specs.Fronts.{WritesText};
ghost use Rattle.report.specs.Reports.{given_text, table_new};
ghost use Rattle.report.specs.Table.{span_text, clock_fields, csv_tail, csv_row, row_if, rows_lit, csv_head};
ghost use Rattle.report.specs.Table.{quoted_byte, quoted_text, quoted, end_note, ended_field, csv_end, row_as};
ghost use Rattle.report.specs.Table.{stretch_row, stretches_begun, stretches_begun_if, table_stretch, table_ended};
ghost use Rattle.report.specs.Table.{none_burnt, rows_closed, rows_ended};

use crate::days::{self, StretchNote};
use crate::page::{Query, Stretch};
use crate::{page, times};
use calendar::Moment;
use std::io;
use textio::forms::fill;
use textio::writer::{ByteSink, put};

/// What is known of the table of a page's stretches while it is written.
#[derive(Clone, Copy)]
pub struct StretchTable {
    /// What is asked of the page.
    pub query: Query,
    /// It has a row.
    pub is_begun: bool,
}

impl StretchTable {
    /// Before any stretch.
    pub fn new(query: Query) -> StretchTable
        ensures { result ≡ table_new query }
    {
        StretchTable {
            query,
            is_begun: false,
        }
    }
}

// What a table's rows are written as.
#[derive(Clone, Copy)]
enum RowForm {
    Csv,
    Html,
}

// From when to when, with a text between them.
fn put_span<W: ByteSink>(
    out: &mut W,
    began: Option<Moment>,
    between: &str,
    s: Stretch,
) -> io::Result<()>
    ensures { WritesText W.fails_with (W.contents out.old) (W.contents out.new) result
        (span_text began between.now s.from s.to) }
{
    times::put_instant(out, began, s.from)?;
    days::put_word(out, between)?;
    times::put_instant(out, began, s.to)
}

fn put_clock_fields<W: ByteSink>(out: &mut W, began: Option<Moment>, s: Stretch) -> io::Result<()>
    ensures { WritesText W.fails_with (W.contents out.old) (W.contents out.new) result
        (clock_fields began s.from s.to) }
{
    match began {
        None => put(out, b","),
        Some(_) => put_span(out, began, ",", s),
    }
}

fn put_csv_tail<W: ByteSink>(out: &mut W, note: StretchNote) -> io::Result<()>
    ensures { WritesText W.fails_with (W.contents out.old) (W.contents out.new) result (csv_tail note) }
{
    put(out, b",")?;
    days::put_note(out, note)?;
    put(out, b"\r\n")
}

// The row of a stretch of the lamp with that number. No field has a comma, a quote or a line's end in it.
fn put_csv_row<W: ByteSink>(out: &mut W, q: Query, s: Stretch, lamp: u64) -> io::Result<()>
    ensures { WritesText W.fails_with (W.contents out.old) (W.contents out.new) result
        (csv_row q.began q.long s.from s.to lamp) }
{
    let note = page::note_of(q.began, q.long, s);
    fill(
        out,
        "#,#,#,#,",
        &[lamp, s.from, s.to, s.to.saturating_sub(s.from)],
    )?;
    put_clock_fields(out, q.began, s)?;
    put_csv_tail(out, note)
}

// The row of a stretch of the lamp with that number, on a page.
fn put_stretch_row<W: ByteSink>(out: &mut W, q: Query, s: Stretch, lamp: u64) -> io::Result<()>
    ensures { WritesText W.fails_with (W.contents out.old) (W.contents out.new) result
        (stretch_row q.began q.long s.from s.to lamp) }
{
    let note = page::note_of(q.began, q.long, s);
    fill(out, "<tr><th scope=\"row\">lamp #</th><td>", &[lamp])?;
    put_span(out, q.began, "</td><td>", s)?;
    put(out, b"</td><td>")?;
    times::put_spent(out, s.to.saturating_sub(s.from))?;
    put(out, b"</td><td>")?;
    days::put_note(out, note)?;
    put(out, b"</td></tr>\n")
}

fn put_row_as<W: ByteSink>(
    out: &mut W,
    form: RowForm,
    q: Query,
    s: Stretch,
    lamp: u64,
) -> io::Result<()>
    ensures { WritesText W.fails_with (W.contents out.old) (W.contents out.new) result
        (row_as form q.began q.long s.from s.to lamp) }
{
    match form {
        RowForm::Csv => put_csv_row(out, q, s, lamp),
        RowForm::Html => put_stretch_row(out, q, s, lamp),
    }
}

fn put_row_if<W: ByteSink>(
    out: &mut W,
    form: RowForm,
    q: Query,
    s: Stretch,
    is_lit: bool,
    k: u64,
) -> io::Result<()>
    requires { k < 8 }
    ensures { WritesText W.fails_with (W.contents out.old) (W.contents out.new) result
        (row_if (row_as form q.began q.long s.from s.to) is_lit k) }
{
    if !is_lit {
        return Ok(());
    }
    put_row_as(out, form, q, s, k + 1)
}

// The row of a stretch for each lamp whose mark is set.
fn put_rows<W: ByteSink>(
    out: &mut W,
    form: RowForm,
    query: Query,
    lit: &[bool],
    stretch: Stretch,
) -> io::Result<()>
    requires { length lit.now ≤ 8 }
    ensures { WritesText W.fails_with (W.contents out.old) (W.contents out.new) result
        (rows_lit (row_as form query.began query.long stretch.from stretch.to) lit.now) }
{
    for (k, is_lit) in lit.iter().enumerate() {
        put_row_if(out, form, query, stretch, *is_lit, k as u64)?;
    }
    Ok(())
}

/// The row of a stretch for each lamp whose mark is set.
pub(crate) fn put_csv_rows<W: ByteSink>(
    out: &mut W,
    query: Query,
    lit: &[bool],
    stretch: Stretch,
) -> io::Result<()>
    requires { length lit.now ≤ 8 }
    ensures { WritesText W.fails_with (W.contents out.old) (W.contents out.new) result
        (rows_lit (csv_row query.began query.long stretch.from stretch.to) lit.now) }
{
    put_rows(out, RowForm::Csv, query, lit, stretch)
}

/// The first line of comma-separated values.
pub(crate) fn put_csv_head<W: ByteSink>(out: &mut W) -> io::Result<()>
    ensures { WritesText W.fails_with (W.contents out.old) (W.contents out.new) result csv_head }
{
    put(out, b"lamp,from,to,seconds,began,ended,note\r\n")
}

fn put_quoted_byte<W: ByteSink>(out: &mut W, is_last: bool, b: u8) -> io::Result<()>
    ensures { WritesText W.fails_with (W.contents out.old) (W.contents out.new) result (quoted_byte is_last b) }
{
    match b {
        b'"' => put(out, b"\"\""),
        b'\n' if is_last => Ok(()),
        b'\n' => put(out, b" "),
        _ => put(out, &[b]),
    }
}

fn put_quoted_text<W: ByteSink>(out: &mut W, text: &[u8]) -> io::Result<()>
    ensures { WritesText W.fails_with (W.contents out.old) (W.contents out.new) result (quoted_text text.now) }
{
    for k in 0..text.len() {
        put_quoted_byte(out, k + 1 == text.len(), text[k])?;
    }
    Ok(())
}

// A text as a field in double quotes.
fn put_quoted<W: ByteSink>(out: &mut W, text: &[u8]) -> io::Result<()>
    ensures { WritesText W.fails_with (W.contents out.old) (W.contents out.new) result (quoted text.now) }
{
    put(out, b"\"")?;
    put_quoted_text(out, text)?;
    put(out, b"\"")
}

fn put_end_note<W: ByteSink>(out: &mut W, said: Option<&[u8]>) -> io::Result<()>
    ensures { WritesText W.fails_with (W.contents out.old) (W.contents out.new) result
        (end_note (given_text said.entry)) }
{
    match said {
        None => put(out, b"end of the log"),
        Some(text) => put_quoted(out, text),
    }
}

fn put_ended<W: ByteSink>(out: &mut W, began: Option<Moment>, seconds: u64) -> io::Result<()>
    ensures { WritesText W.fails_with (W.contents out.old) (W.contents out.new) result (ended_field began seconds) }
{
    match began {
        None => Ok(()),
        Some(_) => times::put_instant(out, began, seconds),
    }
}

/// The last row of comma-separated values, which is of no lamp: when a log of so many seconds ends, and what is said of
/// it, if anything is.
pub(crate) fn put_csv_end<W: ByteSink>(
    out: &mut W,
    query: Query,
    seconds: u64,
    said: Option<&[u8]>,
) -> io::Result<()>
    ensures { WritesText W.fails_with (W.contents out.old) (W.contents out.new) result
        (csv_end query.began seconds (given_text said.entry)) }
{
    fill(out, ",,#,,,", &[seconds])?;
    put_ended(out, query.began, seconds)?;
    put(out, b",")?;
    put_end_note(out, said)?;
    put(out, b"\r\n")
}

fn begin<W: ByteSink>(out: &mut W) -> io::Result<()>
    ensures { WritesText W.fails_with (W.contents out.old) (W.contents out.new) result stretches_begun }
{
    put(
        out,
        b"<table><caption>Each stretch</caption><thead><tr><th scope=\"col\">lamp</th>\
        <th scope=\"col\">from</th><th scope=\"col\">to</th><th scope=\"col\">burnt</th>\
        <th scope=\"col\">note</th></tr></thead><tbody>\n",
    )
}

// The table begins with its first row.
fn begin_if<W: ByteSink>(out: &mut W, is_begun: bool, lit: &[bool]) -> io::Result<()>
    ensures { WritesText W.fails_with (W.contents out.old) (W.contents out.new) result
        (stretches_begun_if is_begun lit.now) }
{
    if is_begun {
        return Ok(());
    }
    if !page::is_any(lit) {
        return Ok(());
    }
    begin(out)
}

/// A stretch of the lamps whose marks are set, in the table of a page: a row for each.
pub(crate) fn put_stretch<W: ByteSink>(
    out: &mut W,
    table: StretchTable,
    lit: &[bool],
    stretch: Stretch,
) -> io::Result<()>
    requires { length lit.now ≤ 8 }
    ensures { WritesText W.fails_with (W.contents out.old) (W.contents out.new) result
        (table_stretch table lit.now stretch.from stretch.to) }
{
    begin_if(out, table.is_begun, lit)?;
    put_rows(out, RowForm::Html, table.query, lit, stretch)
}

fn put_none<W: ByteSink>(out: &mut W) -> io::Result<()>
    ensures { WritesText W.fails_with (W.contents out.old) (W.contents out.new) result none_burnt }
{
    put(out, b"<p>No lamp burnt.</p>\n")
}

fn close<W: ByteSink>(out: &mut W) -> io::Result<()>
    ensures { WritesText W.fails_with (W.contents out.old) (W.contents out.new) result rows_closed }
{
    put(out, b"</tbody></table>\n")
}

fn end_rows<W: ByteSink>(out: &mut W, is_begun: bool) -> io::Result<()>
    ensures { WritesText W.fails_with (W.contents out.old) (W.contents out.new) result (rows_ended is_begun) }
{
    if !is_begun {
        return put_none(out);
    }
    close(out)
}

/// The end of the table of a page, which has begun or not, and of the page.
pub(crate) fn end<W: ByteSink>(out: &mut W, is_begun: bool) -> io::Result<()>
    ensures { WritesText W.fails_with (W.contents out.old) (W.contents out.new) result (table_ended is_begun) }
{
    end_rows(out, is_begun)?;
    put(out, b"</main></body></html>\n")
}
