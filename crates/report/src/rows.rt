// How days lie in the rows of a page: a row is a day, a week or a month, by how many days the log has (RULES, Floor
// log). Where it is known when the log began, weeks go from Monday to Sunday and months are those of the calendar;
// where not, a week is 7 days and a month 30 from the log's first second.
ghost use Rattle.std.specs.Prelude.{◌≡◌, ◌+◌, ◌*◌, ◌/◌, ◌<◌, ◌≤◌};
ghost use Rattle.report.specs.Rows.{scale_of, box_width, line_step, month_place, place_in, span_of};

use calendar::{Date, Moment};

/// What a row of a page is.
#[derive(Clone, Copy)]
pub enum Scale {
    /// A day.
    Day,
    /// A week.
    Week,
    /// A month.
    Month,
}

/// What the rows of a page follow.
#[derive(Clone, Copy)]
pub struct Layout {
    /// When the log began, if that is known.
    pub began: Option<Moment>,
    /// A stretch of more than so many hours is long, if that is said.
    pub long: Option<u32>,
    /// What a row is.
    pub scale: Scale,
}

/// A day's place in its row.
#[derive(Clone, Copy)]
pub struct DayPlace {
    /// How many days of the row are before it.
    pub before: u64,
    /// How many days the row has.
    pub length: u64,
}

/// The days of a row that a log has, or can have.
#[derive(Clone, Copy)]
pub struct Span {
    /// How many days of the log are before its first one.
    pub before: u64,
    /// Its last day, counted from 1.
    pub last: u64,
    /// How many days of the row are before the log's first one.
    pub lead: u64,
}

/// What a row is of a log that touches so many days.
pub fn scale_of(days: u64) -> Scale
    ensures { result ≡ scale_of days }
{
    if days <= 60 {
        return Scale::Day;
    }
    if days <= 400 {
        return Scale::Week;
    }
    Scale::Month
}

/// How wide a row's picture is, a unit a second.
pub fn box_width(scale: Scale) -> u64
    ensures { result ≡ box_width scale }
{
    match scale {
        Scale::Day => 86400,
        Scale::Week => 604800,
        Scale::Month => 2678400,
    }
}

/// So many of the scale's lines are up to a place of the picture, the one at its begin not counted.
pub fn lines_to(scale: Scale, x: u64) -> u64
    ensures lines { result ≡ x / line_step scale }
    ensures bound { result ≤ x }
{
    match scale {
        Scale::Day => x / 21600,
        Scale::Week => x / 86400,
        Scale::Month => x / 604800,
    }
}

/// The place of a line, counted from 0 at the picture's begin.
pub fn line_at(scale: Scale, n: u64) -> u64
    requires { n ≤ 10000000 }
    ensures { result ≡ n * line_step scale }
{
    match scale {
        Scale::Day => n * 21600,
        Scale::Week => n * 86400,
        Scale::Month => n * 604800,
    }
}

fn month_place(date: Date) -> DayPlace
    ensures place { result ≡ month_place date }
    ensures bounds { (result.before ≤ 30) × ((1 ≤ result.length) × (result.length ≤ 31)) }
{
    DayPlace {
        before: date.day.saturating_sub(1).min(30),
        length: calendar::month_length(date.year, date.month),
    }
}

// The place of the day that so many days of the log are before.
fn place_in(scale: Scale, began: Option<Moment>, passed: u64) -> DayPlace
    ensures place { result ≡ place_in scale began passed }
    ensures bounds { (result.before ≤ 30) × ((1 ≤ result.length) × (result.length ≤ 31)) }
{
    match (scale, began) {
        (Scale::Day, _) => DayPlace {
            before: 0,
            length: 1,
        },
        (Scale::Week, None) => DayPlace {
            before: passed % 7,
            length: 7,
        },
        (Scale::Week, Some(m)) => DayPlace {
            before: calendar::weekday(m.number.saturating_add(passed)),
            length: 7,
        },
        (Scale::Month, None) => DayPlace {
            before: passed % 30,
            length: 30,
        },
        (Scale::Month, Some(m)) => month_place(m.date.after(passed)),
    }
}

/// The row of a day, counted from 1.
pub fn span_of(layout: Layout, day: u64) -> Span
    requires { (1 ≤ day) × (day ≤ 1000000000000000) }
    ensures span { result ≡ span_of layout day }
    ensures lead { result.lead ≤ 30 }
    ensures days { (result.before < day) × ((day ≤ result.last) × (result.last ≤ result.before + 31)) }
{
    let passed = day - 1;
    let place = place_in(layout.scale, layout.began, passed);
    Span {
        before: passed.saturating_sub(place.before),
        last: day + (place.length - 1).saturating_sub(place.before),
        lead: place.before.saturating_sub(passed),
    }
}
