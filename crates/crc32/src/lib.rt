//! CRC-32 as zlib, gzip and PNG have it (RFC 1952, 8), of a text in any parts.
#![tactic(auto)]

mod table;
pub mod theorems;

ghost use Rattle.std.specs.Prelude.{◌≡◌};
ghost use Rattle.crc32.specs.Crc.{crc32_of, crc32_on};

// All 32 bits.
const ALL_ONES: u32 = 0xffffffff;

/// Returns the CRC-32 of a text followed by `bytes`, where `sum` is the CRC-32 of the text; 0 is that of no bytes.
#[tactic(auto, unfolding(crate::specs::Crc::crc32_on), using(crate::proofs::GoesOn::remainder_steps))]
pub fn crc32_on(sum: u32, bytes: &[u8]) -> u32
    ensures { result ≡ crc32_on sum bytes.now }
{
    let mut r = ALL_ONES ^ sum;
    let (sixteens, few) = bytes.as_chunks::<16>();
    for sixteen in sixteens {
        r = table::after_sixteen(r, sixteen);
    }
    let (fours, rest) = few.as_chunks::<4>();
    for &[a, b, c, d] in fours {
        r = table::after_four(r, a, b, c, d);
    }
    for &b in rest {
        r = table::after_byte(r, b);
    }
    ALL_ONES ^ r
}

/// Returns the CRC-32 of `bytes`.
#[tactic(auto, unfolding(crate::specs::Crc::crc32_on, crate::specs::Crc::crc32_of))]
pub fn crc32(bytes: &[u8]) -> u32
    ensures { result ≡ crc32_of bytes.now }
{
    crc32_on(0, bytes)
}
