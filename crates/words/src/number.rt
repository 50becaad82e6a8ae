// A number in decimal, as the hours of a lamp are written and read (RULES, Commands and Controller).
ghost use Rattle.std.specs.Prelude.{◌≡◌, ◌≤◌, length};
ghost use Rattle.numbers.specs.Decimal.{digits, WritesNumber};
ghost use Rattle.words.specs.Numerals.{is_numeral, figures, number_read};
ghost use Rattle.words.specs.Laws.{number_codec};

use crate::codec::{LineBytes, Wire};

// Returns how many digits are at the front.
fn figures(s: &[u8]) -> usize
    ensures count { result ≡ figures s.now }
    ensures within { result ≤ length s.now }
{
    for (i, &b) in s.iter().enumerate() {
        if !numbers::is_digit(b) {
            return i;
        }
    }
    s.len()
}

impl Wire for u32 {
    ghost legal = { is_numeral };

    ghost text = { digits };

    ghost writes = { WritesNumber };

    ghost read = { number_read };

    fn put(self, out: &mut LineBytes) {
        numbers::put_number(self, out);
    }

    fn take(bytes: &[u8]) -> Option<(u32, &[u8])> {
        let (figures, rest) = bytes.split_at(figures(bytes));
        Some((numbers::read_number(figures)?, rest))
    }

    ghost codec = { number_codec };
}
