// Bytes copied into a buffer as the processor takes them, sixteen at once. `text::put` is for what is short, or of a
// length that the compiler knows.
ghost use Rattle.std.specs.Prelude.{◌≡◌, ◌+◌, ◌*◌, ◌/◌, ◌≤◌, length, take, drop};
ghost use Rattle.std.proofs.lemmas.List.Edits.{sets};

use std::simd::prelude::*;

// Those of `src` from the place `i` on.
#[inline(always)]
fn put_sixteen(out: &mut [u8], at: usize, src: &[u8], i: usize)
    requires whole { i + 16 ≤ length src.now }
    requires room { at + 16 ≤ length out.old }
    ensures { out.new ≡ sets out.old at (take 16 (drop i src.now)) }
{
    u8x16::from_slice(&src[i..]).copy_to_slice(&mut out[at..]);
}

#[inline(always)]
fn put_eight(out: &mut [u8], at: usize, src: &[u8], i: usize)
    requires whole { i + 8 ≤ length src.now }
    requires room { at + 8 ≤ length out.old }
    ensures { out.new ≡ sets out.old at (take 8 (drop i src.now)) }
{
    u8x8::from_slice(&src[i..]).copy_to_slice(&mut out[at..]);
}

// Those of `src` that are whole sixteens.
#[inline(always)]
fn put_sixteens(out: &mut [u8], at: usize, src: &[u8])
    requires { at + length src.now ≤ length out.old }
    ensures { out.new ≡ sets out.old at (take (length src.now / 16 * 16) src.now) }
{
    for i in 0..src.len() / 16 {
        put_sixteen(out, at + 16 * i, src, 16 * i);
    }
}

/// Copies all of `src` into `out`, from the place `at` on. The last eight or sixteen bytes may be copied over those
/// before them.
#[inline(always)]
pub fn put(out: &mut [u8], at: usize, src: &[u8])
    requires { at + length src.now ≤ length out.old }
    ensures { out.new ≡ sets out.old at src.now }
{
    let n = src.len();
    if n < 8 {
        text::put(out, at, src);
        return;
    }
    if n < 16 {
        put_eight(out, at, src, 0);
        put_eight(out, at + n - 8, src, n - 8);
        return;
    }
    put_sixteens(out, at, src);
    put_sixteen(out, at + n - 16, src, n - 16);
}
