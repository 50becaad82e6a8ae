// MD5 of RFC 1321 over any bytes, and its digests in hex.
#![tactic(auto)]

mod block;
mod digits;
mod tail;
pub mod theorems;
mod word;

ghost use Rattle.std.specs.Prelude.{◌≡◌, ◌≤◌, ◌++◌, length};
ghost use Rattle.digest.specs.Md5.{start_words, digest_bytes, md5_of, finishing};
ghost use Rattle.digest.specs.Hex.{hex_of, hex_digits, hex_value, leading_digest};

use std::num::wrapping_add_u64;

// The four-word buffer of RFC 1321, 3.3.
#[derive(Clone, Copy)]
struct Buffer {
    a: u32,
    b: u32,
    c: u32,
    d: u32,
}

/// The 16 bytes of a digest, as RFC 1321 has them.
#[repr(C)]
#[derive(Clone, Copy)]
pub struct Digest {
    /// The four words A to D, the low-order byte of each first (RFC 1321, 3.5).
    pub bytes: [u8; 16],
}

impl Buffer {
    // 3.3: the words before the first block.
    fn start() -> Buffer
        ensures { result ≡ start_words }
    {
        Buffer {
            a: 0x67452301,
            b: 0xefcdab89,
            c: 0x98badcfe,
            d: 0x10325476,
        }
    }

    // 3.5: the words as bytes, low-order byte of A first.
    fn digest(self) -> Digest
        ensures { result.bytes ≡ digest_bytes self }
    {
        let [a0, a1, a2, a3] = self.a.to_le_bytes();
        let [b0, b1, b2, b3] = self.b.to_le_bytes();
        let [c0, c1, c2, c3] = self.c.to_le_bytes();
        let [d0, d1, d2, d3] = self.d.to_le_bytes();
        Digest {
            bytes: [
                a0, a1, a2, a3, b0, b1, b2, b3, c0, c1, c2, c3, d0, d1, d2, d3,
            ],
        }
    }
}

// The digest of a message that ends with s: q is what the blocks before s left, and bits the length of the message.
fn finish(s: &[u8], bits: u64, q: Buffer) -> Digest
    ensures { result.bytes ≡ finishing q s.now bits }
{
    let p = block::blocks(s, q);
    let from = s.len() / 64 * 64;
    tail::last(&s[from..], bits, p).digest()
}

/// Returns the MD5 digest of a message of any length (RFC 1321).
#[tactic(auto, using(crate::proofs::Blocks::md5_from_start))]
pub fn md5(bytes: &[u8]) -> Digest
    ensures { result.bytes ≡ md5_of bytes.now }
{
    finish(bytes, tail::bit_length(bytes.len()), Buffer::start())
}

// The digest of `head` and s, one after the other, of any length.
fn md5_after(head: [u8; 8], s: &[u8]) -> Digest
    ensures { result.bytes ≡ md5_of (head ++ s.now) }
{
    let mut t = [0u8; 64];
    text::put(&mut t, 0, &head);
    if s.len() < 56 {
        text::put(&mut t, 8, s);
        let n = 8 + s.len();
        return md5(&t[..n]);
    }
    text::put(&mut t, 8, &s[..56]);
    let q = block::block(&t, Buffer::start());
    finish(&s[56..], wrapping_add_u64(tail::bit_length(s.len()), 64), q)
}

/// Returns a digest in lowercase hexadecimal digits, two a byte.
pub fn hex(digest: Digest) -> [u8; 32]
    ensures { result ≡ hex_of digest.bytes }
{
    digits::all(&digest.bytes)
}

/// Returns the eight lowercase hexadecimal digits of a number, the highest first.
pub fn hex8(number: u32) -> [u8; 8]
    ensures { result ≡ hex_digits 8 number }
{
    digits::eight(number)
}

/// Returns the two lowercase hexadecimal digits of a byte, the higher first.
pub fn hex2(byte: u8) -> [u8; 2]
    ensures { result ≡ hex_digits 2 byte }
{
    digits::two(byte)
}

/// Returns the number of at most eight hexadecimal digits; a byte that is no digit counts as 0.
pub fn hex_value(digits: &[u8]) -> u32
    requires fits { length digits.now ≤ 8 }
    ensures { result ≡ hex_value digits.now }
{
    digits::value(digits)
}

/// Returns what leads the first line of a controller that knows the password (PJLink 1.04, 5.1): the digest of the
/// random number's eight digits followed by the password, in hex.
pub fn leading_digest(random: u32, password: &[u8]) -> [u8; 32]
    ensures { result ≡ leading_digest random password.now }
{
    hex(md5_after(hex8(random), password))
}
