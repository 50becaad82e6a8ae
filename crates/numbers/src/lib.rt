// Numbers: decimal ones here, written at the end of bytes and read from bytes; those in bytes in highest.rt.
#![tactic(auto)]

pub mod highest;
pub mod theorems;

ghost use Rattle.std.specs.Prelude.{◌≡◌, ◌+◌, ◌≤◌, ◌++◌, length};
ghost use Rattle.arrayvec.specs.ArrayVec.{array_vec_len};
ghost use Rattle.numbers.specs.Decimal.{digits, long_digits, is_digit};
ghost use Rattle.numbers.specs.Decimal.{read_digits, read_number};

use arrayvec::ArrayVec;

const MOST_DIGITS: usize = 5;

// The digits of a u64.
type Figures = ArrayVec<u8, 20>;

#[tactic(auto, using(crate::proofs::Digits::long_low, crate::proofs::Digits::long_high))]
fn put_figures(n: u64, out: &mut Figures)
    requires { array_vec_len out.old + length (long_digits n) ≤ 20 }
    ensures { out.new.items ≡ out.old.items ++ long_digits n }
{
    let last = b'0' + (n % 10) as u8;
    if n < 10 {
        out.push(last);
    } else {
        put_figures(n / 10, out);
        out.push(last);
    }
}

/// Writes the decimal digits of `number` to the end of `out`, with no leading zero (RULES, Commands).
#[tactic(auto, using(crate::proofs::Digits::long_at_most_20))]
pub fn put_long<const N: usize>(number: u64, out: &mut ArrayVec<u8, N>)
    requires { array_vec_len out.old + length (long_digits number) ≤ N }
    ensures { out.new.items ≡ out.old.items ++ long_digits number }
{
    let mut figures = ArrayVec::new();
    put_figures(number, &mut figures);
    for &b in figures.as_slice() {
        out.push(b);
    }
}

/// Writes the decimal digits of `number` to the end of `out`, with no leading zero.
#[tactic(auto, using(crate::proofs::Digits::digits_long))]
pub fn put_number<const N: usize>(number: u32, out: &mut ArrayVec<u8, N>)
    requires { array_vec_len out.old + length (digits number) ≤ N }
    ensures { out.new.items ≡ out.old.items ++ digits number }
{
    put_long(number as u64, out)
}

/// Whether b is one of `0` to `9`.
pub fn is_digit(byte: u8) -> bool
    ensures { result ≡ is_digit byte }
{
    b'0' <= byte && byte <= b'9'
}

/// Returns the number that all of `bytes` spells, in at most ten digits; `None` if a byte is no digit.
pub fn read_digits(bytes: &[u8]) -> Option<u64>
    requires { length bytes.now ≤ 10 }
    ensures { result ≡ read_digits bytes.now }
{
    let mut v: u64 = 0;
    for b in bytes {
        if !is_digit(*b) {
            return None;
        }
        v = v * 10 + (*b - b'0') as u64;
    }
    Some(v)
}

/// Returns the number that all of `bytes` spells: 0 to 99999, in one to five digits, leading zeros included (RULES,
/// Controller); else `None`.
#[tactic(auto, unfolding(crate::specs::Decimal::read_number))]
pub fn read_number(bytes: &[u8]) -> Option<u32>
    ensures { result ≡ read_number bytes.now }
{
    if bytes.len() < 1 {
        return None;
    }
    if MOST_DIGITS < bytes.len() {
        return None;
    }
    let n = read_digits(bytes)?;
    Some(n as u32)
}
