// One block of 64 bytes, and block after block (RFC 1321, 3.4).
mod rounds;

ghost use Rattle.std.specs.Prelude.{◌≡◌, length};
ghost use Rattle.digest.specs.Rounds.{buffer_sum, block_of};
ghost use Rattle.digest.specs.Md5.{whole_blocks};

use crate::Buffer;
use std::num::wrapping_add_u32;

#[tactic(auto, unfolding(crate::specs::Rounds::buffer_sum))]
fn add(p: Buffer, q: Buffer) -> Buffer
    ensures { result ≡ buffer_sum p q }
{
    Buffer {
        a: wrapping_add_u32(p.a, q.a),
        b: wrapping_add_u32(p.b, q.b),
        c: wrapping_add_u32(p.c, q.c),
        d: wrapping_add_u32(p.d, q.d),
    }
}

/// Returns the buffer after one block. The rest of the crate uses this contract alone, so that another way through a
/// block changes nothing else.
pub fn block(s: &[u8], q: Buffer) -> Buffer
    requires { length s.now ≡ 64 }
    ensures { result ≡ block_of s.now q }
{
    let sums = rounds::sums(s);
    let p = rounds::first_two(&sums, q);
    let p = rounds::last_two(&sums, p);
    add(q, p)
}

/// Returns the buffer after every whole block of `s`.
pub fn blocks(s: &[u8], q: Buffer) -> Buffer
    ensures { result ≡ whole_blocks s.now q }
{
    let mut p = q;
    for k in 0..s.len() / 64 {
        let from = k * 64;
        p = block(&s[from..from + 64], p);
    }
    p
}
