// Whether bytes are printable, sixteen at once: a test that leaves early is slower, and longer to prove.
ghost use Rattle.std.specs.Prelude.{◌≡◌, ◌*◌, ◌/◌, length, take};
ghost use Rattle.std.specs.List.{list_all};
ghost use Rattle.history.specs.Lines.{is_printable};

use std::simd::prelude::*;

fn is_printable(b: u8) -> bool
    ensures { result ≡ is_printable b }
{
    b' ' <= b && b <= b'~'
}

#[inline(always)]
fn are_sixteen(bytes: u8x16) -> bool
    ensures { result ≡ list_all is_printable bytes }
{
    let past = bytes - u8x16::splat(b' ');
    past.simd_gt(u8x16::splat(b'~' - b' ')).to_bitmask() == 0
}

#[inline(always)]
fn are_eight(bytes: u8x8) -> bool
    ensures { result ≡ list_all is_printable bytes }
{
    let past = bytes - u8x8::splat(b' ');
    past.simd_gt(u8x8::splat(b'~' - b' ')).to_bitmask() == 0
}

// One by one.
#[inline(always)]
fn are_few(s: &[u8]) -> bool
    ensures { result ≡ list_all is_printable s.now }
{
    s.iter().all(|b| is_printable(*b))
}

// Those that are whole sixteens.
#[inline(always)]
fn are_sixteens(s: &[u8]) -> bool
    ensures { result ≡ list_all is_printable (take (length s.now / 16 * 16) s.now) }
{
    let mut all = true;
    for i in 0..s.len() / 16 {
        all = are_sixteen(u8x16::from_slice(&s[16 * i..])) & all;
    }
    all
}

/// Whether each of these bytes is printable. The last eight or sixteen may be tested over those before them.
#[inline(always)]
pub fn are_printable(bytes: &[u8]) -> bool
    ensures { result ≡ list_all is_printable bytes.now }
{
    let n = bytes.len();
    if n < 8 {
        return are_few(bytes);
    }
    if n < 16 {
        return are_eight(u8x8::from_slice(bytes)) & are_eight(u8x8::from_slice(&bytes[n - 8..]));
    }
    are_sixteens(bytes) & are_sixteen(u8x16::from_slice(&bytes[n - 16..]))
}
