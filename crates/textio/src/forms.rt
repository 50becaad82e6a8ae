// Numbers, and forms with numbers in them, written to any sink. If a write fails, the sink has got a prefix, and the
// caller writes no more: nothing is written after a gap.
ghost use Rattle.std.specs.Prelude.{◌≡◌};
ghost use Rattle.std.specs.List.{before_first, after_first};
ghost use Rattle.numbers.specs.Decimal.{long_digits};
ghost use Rattle.textio.specs.Fronts.{WritesText};
ghost use Rattle.textio.specs.Forms.{is_gap, form_filled};

use crate::writer::{ByteSink, put};
use arrayvec::ArrayVec;
use std::io;

/// Writes the number in decimal digits, with no leading zero.
#[tactic(auto, using(numbers::proofs::Digits::long_at_most_20))]
pub fn put_number<W: ByteSink>(to: &mut W, number: u64) -> io::Result<()>
    ensures { WritesText W.fails_with (W.contents to.old) (W.contents to.new) result (long_digits number) }
{
    let mut digits = ArrayVec::<u8, 20>::new();
    numbers::put_long(number, &mut digits);
    put(to, digits.as_slice())
}

/// Writes the form, with the next of the numbers instead of each `#`.
pub fn fill<W: ByteSink>(to: &mut W, form: &str, numbers: &[u64]) -> io::Result<()>
    ensures { WritesText W.fails_with (W.contents to.old) (W.contents to.new) result
        (form_filled form.now numbers.now) }
{
    match numbers {
        [] => put(to, form.as_bytes()),
        [n, more @ ..] => {
            let (before, after) = cut(form);
            put(to, before.as_bytes())?;
            put_number(to, *n)?;
            fill(to, after, more)
        }
    }
}

// Returns the text before the first `#`, and the text after it.
fn cut(form: &str) -> (&str, &str)
    ensures before { result.0.now ≡ before_first is_gap form.now }
    ensures after { result.1.now ≡ after_first is_gap form.now }
{
    form.split_once('#').unwrap_or((form, ""))
}
