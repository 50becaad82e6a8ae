// The end of a message: its padding and its length (RFC 1321, 3.1 and 3.2).
ghost use Rattle.std.specs.Prelude.{◌≡◌, ◌<◌, ◌++◌, length};
ghost use Rattle.digest.specs.Padding.{padding, bit_length};
ghost use Rattle.digest.specs.Md5.{whole_blocks};

use crate::{Buffer, block};

/// Returns the bits of `n` bytes, modulo 2^64 (RFC 1321, 3.2). `n` is cut before it is multiplied, so that nothing
/// overflows.
pub fn bit_length(n: usize) -> u64
    ensures { result ≡ bit_length n }
{
    (n as u64) % 0x2000_0000_0000_0000 * 8
}

/// Returns the buffer after the last block or two: the rest of a message and its padding, whose last eight bytes are
/// the length in bits.
#[tactic(auto, using(crate::proofs::Padded::padded_out))]
pub fn last(rest: &[u8], bits: u64, q: Buffer) -> Buffer
    requires { length rest.now < 64 }
    ensures { result ≡ whole_blocks (rest.now ++ padding (length rest.now) bits) q }
{
    let mut t = [0u8; 128];
    text::put(&mut t, 0, rest);
    t[rest.len()] = 0x80;
    let end = (rest.len() + 72) / 64 * 64;
    text::put(&mut t, end - 8, &bits.to_le_bytes());
    block::blocks(&t[..end], q)
}
