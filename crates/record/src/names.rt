// The names that a set-up of Class 2 is lent (RULES, Class 2).
ghost use Rattle.std.specs.Prelude.{◌≡◌, suc, take, drop};
ghost use Rattle.words.specs.Bytes.{◌at◌};
ghost use Rattle.words.specs.Texts.{is_text, info_most};
ghost use Rattle.record.specs.Limits.{only_in_2};
ghost use Rattle.record.specs.Wanted.{names_in};
ghost use Rattle.record.specs.Rules.{are_names};

use crate::class;
use words::texts;

/// A text of at most 32 bytes, of Class 2 alone: none in any other class.
pub fn is_info_of(class: u8, bytes: &[u8]) -> bool
    ensures { result ≡ is_text (only_in_2 class info_most) bytes.now }
{
    texts::is_text(bytes, class::only_in_2(class, texts::INFO_MOST))
}

/// A name for each of so many inputs, of Class 2 alone: none in any other class.
pub fn are_names_of(class: u8, inputs: usize, bytes: &[u8], lengths: &[usize]) -> bool
    ensures { result ≡ are_names (only_in_2 class inputs) (names_in lengths.now bytes.now) }
{
    are_names(bytes, lengths, class::only_in_2(class, inputs))
}

// So many names, one after the other in `bytes`, each of its length. No turn leaves early at what is no name: where the
// lengths do not add up, there are none, whatever the bytes.
fn are_names(bytes: &[u8], lengths: &[usize], count: usize) -> bool
    ensures { result ≡ are_names count (names_in lengths.now bytes.now) }
{
    let mut ok = true;
    let mut at = 0;
    for &n in lengths {
        if bytes.len() - at < n {
            return count == 0;
        }
        let end = at + n;
        ok = ok & texts::is_input_name(&bytes[at..end]);
        at = end;
    }
    if at != bytes.len() {
        return count == 0;
    }
    lengths.len() == count && ok
}

/// The first name that stands in `row` after its length in one byte, and what follows it. Past the end there is no
/// byte.
pub fn first_counted(row: &[u8]) -> (&[u8], &[u8])
    ensures name { result.0.now ≡ take (row.now at 0) (drop 1 row.now) }
    ensures left { result.1.now ≡ drop (suc (row.now at 0)) row.now }
{
    match row {
        [] => (&[], &[]),
        [n, rest @ ..] => {
            let n = (*n as usize).min(rest.len());
            rest.split_at(n)
        }
    }
}
