// What is printed of a lamp: a stretch that it burnt, and its seconds in all (RULES, Floor log). Lamps are numbered
// from 1, and lie at places from 0.
ghost use Rattle.std.specs.Prelude.{◌+◌, ◌<◌, ◌≤◌, [], length, if◌then◌else◌};
ghost use Rattle.textio.specs.Fronts.{WritesText};
ghost use Rattle.report.specs.LampLines.{stretch_line, stretch_lines, total_line, total_lines};

use std::io;
use textio::forms::fill;
use textio::writer::ByteSink;
use words::lamp::LAMPS_MOST;

/// The seconds of each of `count` lamps: when the log began, burnt in it, and now.
#[derive(Clone, Copy)]
pub struct Totals {
    /// How many lamps there are, at most 8.
    pub count: usize,
    /// Seconds of each lamp when the log began.
    pub starts: [u32; LAMPS_MOST],
    /// Seconds that each lamp burnt in the log, also past the limit of its seconds.
    pub burnt: [u64; LAMPS_MOST],
    /// Seconds of each lamp when the log ends, which stop at 359,999,999 (RULES, Lamps).
    pub lasts: [u32; LAMPS_MOST],
}

// The line of a stretch, if the mark of the lamp is set.
#[tactic(auto, using(crate::proofs::Told::stretch_filled))]
fn put_stretch<W: ByteSink>(
    out: &mut W,
    k: usize,
    is_lit: bool,
    from: u64,
    to: u64,
) -> io::Result<()>
    requires { k < 8 }
    ensures { WritesText W.fails_with (W.contents out.old) (W.contents out.new) result
        (if is_lit then stretch_line (k + 1) from to else []) }
{
    if !is_lit {
        return Ok(());
    }
    fill(out, "lamp # from # to #\n", &[k as u64 + 1, from, to])
}

/// The line of a stretch, in seconds since the log began, of each lamp whose mark of `lit` is set.
pub fn put_stretches<W: ByteSink>(out: &mut W, lit: &[bool], from: u64, to: u64) -> io::Result<()>
    requires { length lit.now ≤ 8 }
    ensures { WritesText W.fails_with (W.contents out.old) (W.contents out.new) result
        (stretch_lines 1 lit.now from to) }
{
    for (k, is_lit) in lit.iter().enumerate() {
        put_stretch(out, k, *is_lit, from, to)?;
    }
    Ok(())
}

// The line of a lamp's seconds in all.
fn put_total<W: ByteSink>(out: &mut W, t: Totals, k: usize) -> io::Result<()>
    requires { k < 8 }
    ensures { WritesText W.fails_with (W.contents out.old) (W.contents out.new) result
        (total_line t.starts t.burnt t.lasts k) }
{
    fill(
        out,
        "lamp # start # burnt # now #\n",
        &[
            k as u64 + 1,
            t.starts[k] as u64,
            t.burnt[k],
            t.lasts[k] as u64,
        ],
    )
}

/// The line of each lamp's seconds in all.
pub fn put_totals<W: ByteSink>(out: &mut W, totals: Totals) -> io::Result<()>
    requires { totals.count ≤ 8 }
    ensures { WritesText W.fails_with (W.contents out.old) (W.contents out.new) result
        (total_lines totals.count totals.starts totals.burnt totals.lasts) }
{
    for k in 0..totals.count {
        put_total(out, totals, k)?;
    }
    Ok(())
}
