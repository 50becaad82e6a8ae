// How a page and a table write times (RULES, Floor log).
ghost use Rattle.textio.specs.Fronts.{WritesText};
ghost use Rattle.report.specs.Times.{spent_text, time_of_second, date_of, clock_instant, instant_text};

use crate::days;
use crate::page::{self, DAY};
use calendar::Moment;
use std::io;
use textio::forms::fill;
use textio::writer::ByteSink;

/// So many seconds as hours and minutes, rounded down, and as seconds.
pub fn put_spent<W: ByteSink>(out: &mut W, seconds: u64) -> io::Result<()>
    ensures { WritesText W.fails_with (W.contents out.old) (W.contents out.new) result (spent_text seconds) }
{
    fill(
        out,
        "# h # min (# s)",
        &[seconds / 3600, seconds / 60 % 60, seconds],
    )
}

// A second of a day, behind a space.
fn put_time<W: ByteSink>(out: &mut W, n: u64) -> io::Result<()>
    ensures { WritesText W.fails_with (W.contents out.old) (W.contents out.new) result (time_of_second n) }
{
    fill(
        out,
        " ##:##:##",
        &[
            n / 36000,
            n / 3600 % 10,
            n / 60 % 60 / 10,
            n / 60 % 10,
            n % 60 / 10,
            n % 10,
        ],
    )
}

fn put_date_of<W: ByteSink>(out: &mut W, m: Moment, n: u64) -> io::Result<()>
    ensures { WritesText W.fails_with (W.contents out.old) (W.contents out.new) result
        (date_of m n) }
{
    let date = m.date.after(n / DAY);
    days::put_date(out, date)
}

// A second, counted from the first midnight on.
fn put_clock_instant<W: ByteSink>(out: &mut W, m: Moment, n: u64) -> io::Result<()>
    ensures { WritesText W.fails_with (W.contents out.old) (W.contents out.new) result (clock_instant m n) }
{
    put_date_of(out, m, n)?;
    put_time(out, n % DAY)
}

/// A second of the log: its date and time of day, or the hours, minutes and seconds since the log began.
pub fn put_instant<W: ByteSink>(out: &mut W, began: Option<Moment>, seconds: u64) -> io::Result<()>
    ensures { WritesText W.fails_with (W.contents out.old) (W.contents out.new) result (instant_text began seconds) }
{
    match began {
        None => fill(
            out,
            "#:##:##",
            &[
                seconds / 3600,
                seconds / 60 % 60 / 10,
                seconds / 60 % 10,
                seconds % 60 / 10,
                seconds % 10,
            ],
        ),
        Some(m) => put_clock_instant(out, m, page::at(began, seconds)),
    }
}
