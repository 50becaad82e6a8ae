// What stands around the rows of a page: above them the head, what the page is of, and what a place along a row is;
// below them the table of totals.
ghost use Rattle.std.specs.Prelude.{◌≡◌, ◌+◌, ◌-◌, ◌*◌, ◌<◌, ◌≤◌};
ghost use Rattle.textio.specs.Fronts.{WritesText};
ghost use Rattle.report.specs.Frame.{head, no_clock, moment_text, clock_begun, row_words, clock_text, stripe_long};
ghost use Rattle.report.specs.Frame.{stripe_midnight, stripe_text, head_of_rows, head_words, label_words, labels};
ghost use Rattle.report.specs.Frame.{life_heads, days_left, day_left, until_day, until_when, life_left, life_cells};
ghost use Rattle.report.specs.Frame.{lamp_cells, table_row, table_rows, table_begun, table, longest_text, span_said};
ghost use Rattle.report.specs.Frame.{log_span, until_text, paragraph, escaped, html_text, about_item, about_item_if};
ghost use Rattle.report.specs.Frame.{settings_text, projector_text, form_item, log_item, log_items, about_list};
ghost use Rattle.report.specs.Reports.{given_text, texts_given};

use crate::lamps::Totals;
use crate::page::{self, DAY, FileNames, Projector, Query, Stretch};
use crate::rows::{Layout, Scale};
use crate::{days, times};
use calendar::Moment;
use record::types::Text;
use std::io;
use text::rooms;
use textio::forms::fill;
use textio::writer::{ByteSink, put};

/// The document's head and its title.
pub fn put_head<W: ByteSink>(out: &mut W) -> io::Result<()>
    ensures { WritesText W.fails_with (W.contents out.old) (W.contents out.new) result head }
{
    put(
        out,
        b"<!DOCTYPE html>\n\
        <html lang=\"en\"><head><meta charset=\"utf-8\"><title>Which lamp burnt when</title>\n\
        <meta name=\"viewport\" content=\"width=device-width,initial-scale=1\">\n\
        <style>\n\
        body{font:16px/1.4 sans-serif;max-width:2400px;margin:1em auto;padding:0 1em}\n\
        body{color:#111111;background:#ffffff}\n\
        h1{font-size:1.4em}\n\
        table{border-collapse:collapse;margin:1em 0}\n\
        caption{text-align:left;font-weight:bold;padding:.3em 0}\n\
        td,th{border:1px solid #767676;padding:.25em .6em;text-align:right}\n\
        .d{width:100%}\n\
        .d td,.d th{border-width:1px 0;padding:.2em .4em;text-align:left;vertical-align:top}\n\
        .d .p{width:100%}\n\
        dl{display:grid;grid-template-columns:auto 1fr;gap:.2em 1em;margin:1em 0}\n\
        dd{margin:0;overflow-wrap:anywhere}\n\
        .n span{display:block;font-size:13px;line-height:18px;white-space:nowrap}\n\
        .o{position:relative;height:1.4em;font-size:13px;font-weight:normal}\n\
        .o span{position:absolute;transform:translateX(-50%);white-space:nowrap}\n\
        .o .f,.o .g{transform:none}\n\
        .o .t{transform:translateX(-100%)}\n\
        svg{display:block;width:100%}\n\
        svg *{vector-effect:non-scaling-stroke}\n\
        .b{fill:#eeeeee;stroke:#767676}\n\
        .h{stroke:#767676}\n\
        .l{fill:#0b5394;stroke:#0b5394}\n\
        .m{fill:#ffffff}\n\
        @media(min-width:50em){\n\
        .d th,.d td{white-space:nowrap}}\n\
        @media(max-width:50em){\n\
        body{padding:0 .5em}\n\
        td,th{padding:.2em .3em}\n\
        td{overflow-wrap:anywhere}\n\
        .d td{overflow-wrap:normal}\n\
        .o .s{display:none}}\n\
        @media(max-width:30em){\n\
        td,th{font-size:13px;padding:.2em}\n\
        .d td,.d th{padding:.2em}\n\
        .o span{display:none}\n\
        .o .f,.o .t{display:block}}\n\
        @media screen{\n\
        :root{color-scheme:light dark}}\n\
        @media screen and (prefers-color-scheme:dark){\n\
        body{color:#eeeeee;background:#111111}\n\
        td,th{border-color:#8c8c8c}\n\
        .b{fill:#2a2a2a;stroke:#8c8c8c}\n\
        .h{stroke:#8c8c8c}\n\
        .l{fill:#6fb7f2;stroke:#6fb7f2}\n\
        .m{fill:#111111}}\n\
        @media(forced-colors:active){\n\
        .b{fill:Canvas;stroke:CanvasText}\n\
        .h{stroke:CanvasText}\n\
        .l{fill:CanvasText;stroke:CanvasText}\n\
        .m{fill:Canvas}}\n\
        @media print{\n\
        body{font-size:10pt;margin:0;padding:0}\n\
        thead{display:table-header-group}\n\
        .d th,.d td{white-space:nowrap}\n\
        tr,svg{break-inside:avoid}\n\
        .b,.l,.m{-webkit-print-color-adjust:exact;print-color-adjust:exact}}\n\
        </style></head><body><main>\n\
        <h1>Which lamp burnt when</h1>\n",
    )
}

fn put_escaped<W: ByteSink>(out: &mut W, is_ascii: bool, b: u8) -> io::Result<()>
    ensures { WritesText W.fails_with (W.contents out.old) (W.contents out.new) result (escaped is_ascii b) }
{
    if is_ascii && 126 < b {
        return put(out, b"&#65533;");
    }
    match b {
        b'<' => put(out, b"&lt;"),
        b'>' => put(out, b"&gt;"),
        b'&' => put(out, b"&amp;"),
        _ => put(out, &[b]),
    }
}

// A text, as HTML writes it.
fn put_html<W: ByteSink>(out: &mut W, is_ascii: bool, text: &[u8]) -> io::Result<()>
    ensures { WritesText W.fails_with (W.contents out.old) (W.contents out.new) result (html_text is_ascii text.now) }
{
    for k in 0..text.len() {
        put_escaped(out, is_ascii, text[k])?;
    }
    Ok(())
}

fn put_item<W: ByteSink>(out: &mut W, is_ascii: bool, term: &str, text: &[u8]) -> io::Result<()>
    ensures { WritesText W.fails_with (W.contents out.old) (W.contents out.new) result
        (about_item is_ascii term.now text.now) }
{
    put(out, b"<dt>")?;
    days::put_word(out, term)?;
    put(out, b"</dt><dd>")?;
    put_html(out, is_ascii, text)?;
    put(out, b"</dd>\n")
}

// A text of the settings, unless they leave it empty.
fn put_item_if<W: ByteSink>(out: &mut W, is_ascii: bool, term: &str, text: Text) -> io::Result<()>
    ensures { WritesText W.fails_with (W.contents out.old) (W.contents out.new) result
        (about_item_if is_ascii term.now (settings_text text)) }
{
    let shown = rooms::first(&text.bytes, text.len);
    if shown.is_empty() {
        return Ok(());
    }
    put_item(out, is_ascii, term, shown)
}

fn put_projector<W: ByteSink>(out: &mut W, projector: Projector) -> io::Result<()>
    ensures { WritesText W.fails_with (W.contents out.old) (W.contents out.new) result (projector_text projector) }
{
    put_item_if(out, false, "projector", projector.name)?;
    put_item_if(out, true, "manufacturer", projector.maker)?;
    put_item_if(out, true, "model", projector.model)
}

fn put_form<W: ByteSink>(out: &mut W, form: Option<&str>) -> io::Result<()>
    ensures { WritesText W.fails_with (W.contents out.old) (W.contents out.new) result
        (form_item (given_text form.entry)) }
{
    match form {
        None => put_item(out, false, "form", b"sample set-up"),
        Some(name) => put_item(out, false, "form", name.as_bytes()),
    }
}

fn put_log<W: ByteSink>(out: &mut W, name: &str) -> io::Result<()>
    ensures { WritesText W.fails_with (W.contents out.old) (W.contents out.new) result (log_item name.now) }
{
    if name == "-" {
        return put_item(out, false, "log", b"standard input");
    }
    put_item(out, false, "log", name.as_bytes())
}

fn put_logs<W: ByteSink>(out: &mut W, logs: &[&str]) -> io::Result<()>
    ensures { WritesText W.fails_with (W.contents out.old) (W.contents out.new) result
        (log_items (texts_given logs.now)) }
{
    for name in logs {
        put_log(out, *name)?;
    }
    Ok(())
}

/// What the page is of: the projector's name, maker and model, and the files.
pub fn put_about<W: ByteSink>(
    out: &mut W,
    projector: Projector,
    names: FileNames<'_>,
) -> io::Result<()>
    ensures { WritesText W.fails_with (W.contents out.old) (W.contents out.new) result
        (about_list projector (given_text names.entry.form) (texts_given names.entry.logs.now)) }
{
    put(out, b"<dl>\n")?;
    put_projector(out, projector)?;
    put_form(out, names.form)?;
    put_logs(out, names.logs)?;
    put(out, b"</dl>\n")
}

fn put_no_clock<W: ByteSink>(out: &mut W) -> io::Result<()>
    ensures { WritesText W.fails_with (W.contents out.old) (W.contents out.new) result no_clock }
{
    put(
        out,
        b"<p>This page knows no clock: days and hours count from the log's first second.",
    )
}

fn put_moment<W: ByteSink>(out: &mut W, m: Moment) -> io::Result<()>
    ensures { WritesText W.fails_with (W.contents out.old) (W.contents out.new) result (moment_text m) }
{
    put(out, b"<p>The log began on ")?;
    days::put_dated(out, m, 0)?;
    let second = m.second;
    fill(
        out,
        " at #:##:##, and days and hours are that clock's.",
        &[
            second / 3600,
            second / 60 % 60 / 10,
            second / 60 % 10,
            second % 60 / 10,
            second % 10,
        ],
    )
}

fn put_clock_begun<W: ByteSink>(out: &mut W, began: Option<Moment>) -> io::Result<()>
    ensures { WritesText W.fails_with (W.contents out.old) (W.contents out.new) result (clock_begun began) }
{
    match began {
        None => put_no_clock(out),
        Some(m) => put_moment(out, m),
    }
}

fn row_words(v: Layout) -> &'static str
    ensures { result.now ≡ row_words v.scale v.began }
{
    match (v.scale, v.began) {
        (Scale::Day, _) => "day of 24 hours",
        (Scale::Week, None) => "week of 7 days",
        (Scale::Week, Some(_)) => "week, from Monday to Sunday",
        (Scale::Month, None) => "month of 30 days",
        (Scale::Month, Some(_)) => "month of the calendar",
    }
}

/// What the page is, when the log began, where that is known, and what a row is.
pub fn put_clock<W: ByteSink>(out: &mut W, v: Layout) -> io::Result<()>
    ensures { WritesText W.fails_with (W.contents out.old) (W.contents out.new) result (clock_text v) }
{
    let words = row_words(v);
    put_clock_begun(out, v.began)?;
    put(out, b" A row is a ")?;
    days::put_word(out, words)?;
    put(
        out,
        b"; in it each lamp has a band, and a bar on the band is a stretch that the lamp burnt.</p>\n",
    )
}

fn put_stripe_long<W: ByteSink>(out: &mut W, long: Option<u32>) -> io::Result<()>
    ensures { WritesText W.fails_with (W.contents out.old) (W.contents out.new) result (stripe_long long) }
{
    match long {
        None => Ok(()),
        Some(hours) => fill(
            out,
            "<p>A bar with a stripe is a burn of more than # h.</p>\n",
            &[hours as u64],
        ),
    }
}

fn put_stripe_midnight<W: ByteSink>(out: &mut W, long: Option<u32>) -> io::Result<()>
    ensures { WritesText W.fails_with (W.contents out.old) (W.contents out.new) result (stripe_midnight long) }
{
    match long {
        None => put(
            out,
            b"<p>A bar with a stripe is a burn over midnight.</p>\n",
        ),
        Some(hours) => fill(
            out,
            "<p>A bar with a stripe is a burn over midnight or of more than # h.</p>\n",
            &[hours as u64],
        ),
    }
}

/// What a stripe on a bar says, where one can be.
pub fn put_stripe_text<W: ByteSink>(
    out: &mut W,
    began: Option<Moment>,
    long: Option<u32>,
) -> io::Result<()>
    ensures { WritesText W.fails_with (W.contents out.old) (W.contents out.new) result (stripe_text began long) }
{
    match began {
        None => put_stripe_long(out, long),
        Some(_) => put_stripe_midnight(out, long),
    }
}

fn head_words(scale: Scale) -> &'static str
    ensures { result.now ≡ head_words scale }
{
    match scale {
        Scale::Day => "The days</caption><thead><tr><th scope=\"col\">day",
        Scale::Week => "The weeks</caption><thead><tr><th scope=\"col\">week",
        Scale::Month => "The months</caption><thead><tr><th scope=\"col\">month",
    }
}

/// The head of the table of the rows, up to the labels along the top.
pub fn put_head_of_rows<W: ByteSink>(out: &mut W, scale: Scale) -> io::Result<()>
    ensures { WritesText W.fails_with (W.contents out.old) (W.contents out.new) result (head_of_rows scale) }
{
    let words = head_words(scale);
    put(out, b"<table class=\"d\"><caption>")?;
    days::put_word(out, words)?;
    put(
        out,
        b"</th><th scope=\"col\">lamp</th><th scope=\"col\"><div class=\"o\">\n",
    )
}

fn label_words(v: Layout) -> &'static str
    ensures { result.now ≡ label_words v.scale v.began }
{
    match (v.scale, v.began) {
        (Scale::Day, None) => {
            "<span class=\"f\" style=\"left:0%\">+0 h</span>\n\
            <span class=\"s\" style=\"left:12.5%\">+3 h</span><span style=\"left:25%\">+6 h</span>\n\
            <span class=\"s\" style=\"left:37.5%\">+9 h</span><span style=\"left:50%\">+12 h</span>\n\
            <span class=\"s\" style=\"left:62.5%\">+15 h</span><span style=\"left:75%\">+18 h</span>\n\
            <span class=\"s\" style=\"left:87.5%\">+21 h</span><span class=\"t\" style=\"left:100%\">+24 h</span>\n"
        }
        (Scale::Day, Some(_)) => {
            "<span class=\"f\" style=\"left:0%\">00:00</span>\n\
            <span class=\"s\" style=\"left:12.5%\">03:00</span><span style=\"left:25%\">06:00</span>\n\
            <span class=\"s\" style=\"left:37.5%\">09:00</span><span style=\"left:50%\">12:00</span>\n\
            <span class=\"s\" style=\"left:62.5%\">15:00</span><span style=\"left:75%\">18:00</span>\n\
            <span class=\"s\" style=\"left:87.5%\">21:00</span><span class=\"t\" style=\"left:100%\">24:00</span>\n"
        }
        (Scale::Week, None) => {
            "<span class=\"f\" style=\"left:0%\">+0 d</span><span class=\"s\" style=\"left:14.29%\">+1 d</span>\n\
            <span style=\"left:28.57%\">+2 d</span><span class=\"s\" style=\"left:42.86%\">+3 d</span>\n\
            <span style=\"left:57.14%\">+4 d</span><span class=\"s\" style=\"left:71.43%\">+5 d</span>\n\
            <span style=\"left:85.71%\">+6 d</span><span class=\"t\" style=\"left:100%\">+7 d</span>\n"
        }
        (Scale::Week, Some(_)) => {
            "<span class=\"f\" style=\"left:0%\">Mon</span><span class=\"g\" style=\"left:14.29%\">Tue</span>\n\
            <span class=\"g\" style=\"left:28.57%\">Wed</span><span class=\"g\" style=\"left:42.86%\">Thu</span>\n\
            <span class=\"g\" style=\"left:57.14%\">Fri</span><span class=\"g\" style=\"left:71.43%\">Sat</span>\n\
            <span class=\"g\" style=\"left:85.71%\">Sun</span>\n"
        }
        (Scale::Month, None) => {
            "<span class=\"f\" style=\"left:0%\">+0 d</span><span class=\"g\" style=\"left:22.58%\">+7 d</span>\n\
            <span class=\"g\" style=\"left:45.16%\">+14 d</span><span class=\"g\" style=\"left:67.74%\">+21 d</span>\n\
            <span class=\"g\" style=\"left:90.32%\">+28 d</span>\n"
        }
        (Scale::Month, Some(_)) => {
            "<span class=\"f\" style=\"left:0%\">1</span><span class=\"g\" style=\"left:22.58%\">8</span>\n\
            <span class=\"g\" style=\"left:45.16%\">15</span><span class=\"g\" style=\"left:67.74%\">22</span>\n\
            <span class=\"g\" style=\"left:90.32%\">29</span>\n"
        }
    }
}

/// What a place along a row is: hours since the day began or of the clock, days since the row's first or of the week or
/// the month.
pub fn put_labels<W: ByteSink>(out: &mut W, v: Layout) -> io::Result<()>
    ensures { WritesText W.fails_with (W.contents out.old) (W.contents out.new) result (labels v) }
{
    let words = label_words(v);
    days::put_word(out, words)?;
    put(
        out,
        b"</div></th><th scope=\"col\">burnt</th></tr></thead><tbody>\n",
    )
}

fn put_life_heads<W: ByteSink>(out: &mut W, life: Option<u32>) -> io::Result<()>
    ensures { WritesText W.fails_with (W.contents out.old) (W.contents out.new) result (life_heads life) }
{
    match life {
        None => Ok(()),
        Some(hours) => fill(
            out,
            "<th scope=\"col\">left of # h</th><th scope=\"col\">until, at this log's pace</th>",
            &[hours as u64],
        ),
    }
}

// A hundred years.
const DAYS_MOST: u64 = 36525;

// What a lamp burns in `seconds` is `burnt`: so many days does it burn `left`.
fn days_left(left: u64, seconds: u64, burnt: u64) -> u64
    requires { 0 < burnt }
    ensures { result ≡ days_left left seconds burnt }
{
    left.saturating_mul(seconds) / burnt / DAY
}

fn put_day_left<W: ByteSink>(
    out: &mut W,
    began: Option<Moment>,
    seconds: u64,
    days: u64,
) -> io::Result<()>
    requires { days ≤ 36525 }
    ensures { WritesText W.fails_with (W.contents out.old) (W.contents out.new) result
        (day_left began seconds days) }
{
    match began {
        None => fill(out, "# days", &[days]),
        Some(m) => days::put_dated(out, m, page::at(began, seconds) / DAY + days),
    }
}

fn put_until_day<W: ByteSink>(
    out: &mut W,
    began: Option<Moment>,
    seconds: u64,
    days: u64,
) -> io::Result<()>
    ensures { WritesText W.fails_with (W.contents out.old) (W.contents out.new) result
        (until_day began seconds days) }
{
    if DAYS_MOST < days {
        return put(out, b"over 100 years");
    }
    put_day_left(out, began, seconds, days)
}

fn put_until_when<W: ByteSink>(
    out: &mut W,
    began: Option<Moment>,
    seconds: u64,
    burnt: u64,
    left: u64,
) -> io::Result<()>
    ensures { WritesText W.fails_with (W.contents out.old) (W.contents out.new) result
        (until_when began seconds burnt left) }
{
    if burnt < 1 {
        return put(out, b"burns not in this log");
    }
    let days = days_left(left, seconds, burnt);
    put_until_day(out, began, seconds, days)
}

// What is left of a lamp's hours, and until when.
fn put_life_left<W: ByteSink>(
    out: &mut W,
    began: Option<Moment>,
    seconds: u64,
    burnt: u64,
    left: u64,
) -> io::Result<()>
    ensures { WritesText W.fails_with (W.contents out.old) (W.contents out.new) result
        (life_left began seconds burnt left) }
{
    fill(
        out,
        "<td># h # min (# s)</td><td>",
        &[left / 3600, left / 60 % 60, left],
    )?;
    put_until_when(out, began, seconds, burnt, left)?;
    put(out, b"</td>")
}

// The same, where it is said how long a lamp lives.
fn put_life_cells<W: ByteSink>(
    out: &mut W,
    q: Query,
    seconds: u64,
    burnt: u64,
    last: u64,
) -> io::Result<()>
    ensures { WritesText W.fails_with (W.contents out.old) (W.contents out.new) result
        (life_cells q.began q.life seconds burnt last) }
{
    match q.life {
        None => Ok(()),
        Some(hours) => put_life_left(
            out,
            q.began,
            seconds,
            burnt,
            (hours as u64 * 3600).saturating_sub(last),
        ),
    }
}

// The number of the lamp at that place, and its seconds.
fn put_lamp_cells<W: ByteSink>(out: &mut W, t: Totals, k: usize) -> io::Result<()>
    requires { k < 8 }
    ensures { WritesText W.fails_with (W.contents out.old) (W.contents out.new) result
        (lamp_cells t.starts t.burnt t.lasts k) }
{
    let (start, burnt, last) = (t.starts[k] as u64, t.burnt[k], t.lasts[k] as u64);
    fill(
        out,
        "<tr><th scope=\"row\">lamp #</th><td># h # min (# s)</td><td># h # min (# s)</td>\
        <td># h # min (# s)</td>",
        &[
            k as u64 + 1,
            start / 3600,
            start / 60 % 60,
            start,
            burnt / 3600,
            burnt / 60 % 60,
            burnt,
            last / 3600,
            last / 60 % 60,
            last,
        ],
    )
}

// The row of the lamp at that place.
fn put_table_row<W: ByteSink>(
    out: &mut W,
    q: Query,
    seconds: u64,
    t: Totals,
    k: usize,
) -> io::Result<()>
    requires { k < 8 }
    ensures { WritesText W.fails_with (W.contents out.old) (W.contents out.new) result
        (table_row q seconds t.starts t.burnt t.lasts k) }
{
    put_lamp_cells(out, t, k)?;
    put_life_cells(out, q, seconds, t.burnt[k], t.lasts[k] as u64)?;
    put(out, b"</tr>\n")
}

fn put_table_rows<W: ByteSink>(out: &mut W, q: Query, seconds: u64, t: Totals) -> io::Result<()>
    requires { t.count ≤ 8 }
    ensures { WritesText W.fails_with (W.contents out.old) (W.contents out.new) result
        (table_rows q seconds t.count t.starts t.burnt t.lasts) }
{
    for k in 0..t.count {
        put_table_row(out, q, seconds, t, k)?;
    }
    Ok(())
}

fn begin_table<W: ByteSink>(out: &mut W) -> io::Result<()>
    ensures { WritesText W.fails_with (W.contents out.old) (W.contents out.new) result table_begun }
{
    put(
        out,
        b"<table><caption>Each lamp's burning time</caption><thead><tr><th scope=\"col\">lamp</th>\
        <th scope=\"col\">at the start</th><th scope=\"col\">burnt</th><th scope=\"col\">now</th>",
    )
}

/// The table of the lamps, of a log of so many seconds: of each its hours and minutes, and its seconds; and where it is
/// said how long a lamp lives, what is left, and until when.
pub fn put_table<W: ByteSink>(
    out: &mut W,
    query: Query,
    seconds: u64,
    totals: Totals,
) -> io::Result<()>
    requires { totals.count ≤ 8 }
    ensures { WritesText W.fails_with (W.contents out.old) (W.contents out.new) result
        (table query seconds totals.count totals.starts totals.burnt totals.lasts) }
{
    begin_table(out)?;
    put_life_heads(out, query.life)?;
    put(out, b"</tr></thead><tbody>\n")?;
    put_table_rows(out, query, seconds, totals)?;
    put(out, b"</tbody></table>\n")
}

// From when to when, and how long that is.
fn put_span_said<W: ByteSink>(
    out: &mut W,
    words: &str,
    began: Option<Moment>,
    s: Stretch,
) -> io::Result<()>
    ensures { WritesText W.fails_with (W.contents out.old) (W.contents out.new) result
        (span_said words.now began s.from s.to) }
{
    days::put_word(out, words)?;
    times::put_instant(out, began, s.from)?;
    put(out, b" to ")?;
    times::put_instant(out, began, s.to)?;
    put(out, b": ")?;
    times::put_spent(out, s.to.saturating_sub(s.from))?;
    put(out, b".</p>\n")
}

/// From when to when a log of so many seconds goes.
pub fn put_log_span<W: ByteSink>(out: &mut W, began: Option<Moment>, seconds: u64) -> io::Result<()>
    ensures { WritesText W.fails_with (W.contents out.old) (W.contents out.new) result (log_span began seconds) }
{
    put_span_said(
        out,
        "<p>The log goes from ",
        began,
        Stretch {
            from: 0,
            to: seconds,
        },
    )
}

/// The longest stretch, if there is one.
pub fn put_longest<W: ByteSink>(
    out: &mut W,
    began: Option<Moment>,
    stretch: Stretch,
) -> io::Result<()>
    ensures { WritesText W.fails_with (W.contents out.old) (W.contents out.new) result (longest_text began stretch) }
{
    if stretch.to <= stretch.from {
        return Ok(());
    }
    put_span_said(out, "<p>The longest burn is from ", began, stretch)
}

/// Until when a log goes: the seconds that it lets pass, and the lines that belong to it.
pub fn put_until<W: ByteSink>(out: &mut W, seconds: u64, lines: u64) -> io::Result<()>
    ensures { WritesText W.fails_with (W.contents out.old) (W.contents out.new) result (until_text seconds lines) }
{
    fill(
        out,
        "<p>The log goes until second #, line #. What came after that, if anything did, is not told.</p>\n",
        &[seconds, lines],
    )
}

/// What is said of a log below its totals, if anything is: as a paragraph. The text has none of `<`, `>` and `&`.
pub fn put_paragraph<W: ByteSink>(out: &mut W, said: Option<&[u8]>) -> io::Result<()>
    ensures { WritesText W.fails_with (W.contents out.old) (W.contents out.new) result
        (paragraph (given_text said.entry)) }
{
    let Some(text) = said else {
        return Ok(());
    };
    put(out, b"<p>")?;
    put(out, text)?;
    put(out, b"</p>\n")
}
