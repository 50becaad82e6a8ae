// What is told of a watched log: lines, a table of values, or a part of a page (RULES, Floor log). A page has three
// parts, each of which is told of the whole log: a survey, a picture, and a table of the stretches.
#![tactic(auto)]

mod days;
mod frame;
pub mod lamps;
pub mod page;
mod rows;
pub mod table;
pub mod theorems;
mod times;

ghost use Rattle.std.specs.Prelude.{◌≡◌, ◌≤◌, length, OnOk, OnErr};
ghost use Rattle.textio.specs.Fronts.{WritesText};
ghost use Rattle.report.specs.Reports.{begun_text, report_told, told_text, ended_text, ended_until};
ghost use Rattle.report.specs.Reports.{stray_line, given_text, texts_given};

use crate::lamps::Totals;
use crate::page::{FileNames, Query, Sheet, Stretch};
use crate::table::StretchTable;
use std::io;
use textio::writer::{ByteSink, put};

/// How a log is told.
#[derive(Clone, Copy)]
pub enum Report {
    /// A line for each stretch, and one for each lamp at the end.
    Lines,
    /// Comma-separated values: a row for each stretch, and a last one for the end.
    Csv(Query),
    /// The first part of a page, which writes nothing: the log is read for its seconds alone.
    Survey,
    /// The second: what the page is of, the rows with the bars, and what stands below them.
    Picture(Sheet),
    /// The third: the table of the stretches, and the page's end.
    Table(StretchTable),
}

/// How far a log of the second kind goes (RULES, History of a board).
#[derive(Clone, Copy)]
pub struct Until<'a> {
    /// How many of its lines belong, from the first on.
    pub lines: u64,
    /// What is said of the line after them, which does not belong, if there is one: without LF.
    pub stray: Option<&'a [u8]>,
}

// What is said of a line that does not belong, if there is one, as a line.
fn put_stray<W: ByteSink>(out: &mut W, stray: Option<&[u8]>) -> io::Result<()>
    ensures { WritesText W.fails_with (W.contents out.old) (W.contents out.new) result
        (stray_line (given_text stray.entry)) }
{
    let Some(text) = stray else {
        return Ok(());
    };
    put(out, text)?;
    put(out, b"\n")
}

impl Report {
    /// What stands before the first stretch, of a log in these files.
    pub fn begin<W: ByteSink>(self, out: &mut W, names: FileNames<'_>) -> io::Result<()>
        ensures { WritesText W.fails_with (W.contents out.old) (W.contents out.new) result
            (begun_text self (given_text names.entry.form) (texts_given names.entry.logs.now)) }
    {
        match self {
            Report::Lines => Ok(()),
            Report::Csv(_) => table::put_csv_head(out),
            Report::Survey => Ok(()),
            Report::Picture(sheet) => page::begin(out, sheet.query, sheet.seconds, names),
            Report::Table(_) => Ok(()),
        }
    }

    /// A stretch of the lamps whose marks of `lit` are set.
    pub fn tell<W: ByteSink>(
        &mut self,
        out: &mut W,
        lit: &[bool],
        stretch: Stretch,
    ) -> io::Result<()>
        requires { length lit.now ≤ 8 }
        ensures report { OnOk result (self.new ≡ report_told self.old lit.now stretch.from stretch.to) }
        ensures kept { OnErr result (self.new ≡ self.old) }
        ensures text { WritesText W.fails_with (W.contents out.old) (W.contents out.new) result
            (told_text self.old lit.now stretch.from stretch.to) }
    {
        match *self {
            Report::Lines => lamps::put_stretches(out, lit, stretch.from, stretch.to),
            Report::Csv(query) => table::put_csv_rows(out, query, lit, stretch),
            Report::Survey => Ok(()),
            Report::Picture(sheet) => {
                let layout = page::layout_of(sheet.query, sheet.seconds);
                let row = page::draw(out, layout, sheet.row, lit, stretch)?;
                *self = Report::Picture(Sheet {
                    query: sheet.query,
                    seconds: sheet.seconds,
                    row,
                    longest: page::longest_of(sheet.longest, lit, stretch),
                });
                Ok(())
            }
            Report::Table(t) => {
                table::put_stretch(out, t, lit, stretch)?;
                *self = Report::Table(StretchTable {
                    query: t.query,
                    is_begun: t.is_begun || page::is_any(lit),
                });
                Ok(())
            }
        }
    }

    /// The end of a log of the first kind, of so many seconds; a page and a table say too what was not played of it, if
    /// anything was not.
    pub fn end<W: ByteSink>(
        self,
        out: &mut W,
        seconds: u64,
        totals: Totals,
        unplayed: Option<&[u8]>,
    ) -> io::Result<()>
        requires { totals.count ≤ 8 }
        ensures { WritesText W.fails_with (W.contents out.old) (W.contents out.new) result
            (ended_text self seconds totals.count totals.starts totals.burnt totals.lasts (given_text unplayed.entry)) }
    {
        match self {
            Report::Lines => lamps::put_totals(out, totals),
            Report::Csv(query) => table::put_csv_end(out, query, seconds, unplayed),
            Report::Survey => Ok(()),
            Report::Picture(sheet) => page::end(out, sheet, seconds, totals, unplayed),
            Report::Table(t) => table::end(out, t.is_begun),
        }
    }

    /// The end of a log of the second kind, of so many seconds.
    pub fn end_until<W: ByteSink>(
        self,
        out: &mut W,
        seconds: u64,
        totals: Totals,
        until: Until<'_>,
    ) -> io::Result<()>
        requires { totals.count ≤ 8 }
        ensures { WritesText W.fails_with (W.contents out.old) (W.contents out.new) result
            (ended_until self seconds totals.count totals.starts totals.burnt totals.lasts until.entry.lines
            (given_text until.entry.stray)) }
    {
        match self {
            Report::Lines => {
                lamps::put_totals(out, totals)?;
                put_stray(out, until.stray)
            }
            Report::Csv(query) => table::put_csv_end(out, query, seconds, until.stray),
            Report::Survey => Ok(()),
            Report::Picture(sheet) => page::end_until(out, sheet, seconds, totals, until),
            Report::Table(t) => table::end(out, t.is_begun),
        }
    }
}
