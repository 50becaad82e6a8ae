// The 64 operations of RFC 1321, 3.4, in rows of four. One function for all four rounds: where it is inlined, the
// number of the operation is known, and nothing is left to choose. Each operation waits for the one before it, for b
// above all: so words and constants are added before the first one, four at once, and what needs no b before what does.
ghost use Rattle.std.specs.Prelude.{◌≡◌, ◌+◌, ◌<◌, List, ℕ, length};
ghost use Rattle.digest.specs.Rounds.{by_round, shift_of, function_of, operation, operations};
ghost use Rattle.digest.specs.Sums.{operation_index, AreConstants, AreSums};

use crate::{Buffer, word};
use std::num::wrapping_add_u32;

#[tactic(auto, unfolding(crate::specs::Rounds::by_round))]
fn by_round(i: u32, w: u32, x: u32, y: u32, z: u32) -> u32
    ensures { result ≡ by_round i w x y z }
{
    if i < 16 {
        return w;
    }
    if i < 32 {
        return x;
    }
    if i < 48 {
        return y;
    }
    z
}

// The function of operation i, as a sum of two: the first part does not wait for b, the newest word. The halves of G
// have no bit in common, so that "or" is "+"; F as it is defined has one operation more that waits for b.
fn function(i: u32, b: u32, c: u32, d: u32) -> (u32, u32)
    ensures { result.0 + result.1 ≡ function_of i b c d }
{
    let early = by_round(i, 0, c & !d, 0, 0);
    let late = by_round(i, d ^ (b & (c ^ d)), b & d, b ^ c ^ d, c ^ (b | !d));
    (early, late)
}

// The place of operation i's sum.
#[tactic(auto, using(crate::proofs::Tables::word_number_by_formula), unfolding(crate::specs::Sums::operation_index))]
fn operation_index(i: u32) -> u32
    requires { i < 64 }
    ensures of_the_table { result ≡ operation_index i }
    ensures in_table { result < 64 }
{
    16 * (i / 16) + by_round(i, i, 5 * i + 1, 3 * i + 5, 7 * i) % 16
}

fn shift(i: u32) -> u32
    requires { i < 64 }
    ensures of_the_table { result ≡ shift_of i }
    ensures in_word { (0 < result) × (result < 32) }
{
    let k = i % 4 * 16;
    let s1 = by_round(k, 7, 12, 17, 22);
    let s2 = by_round(k, 5, 9, 14, 20);
    let s3 = by_round(k, 4, 11, 16, 23);
    let s4 = by_round(k, 6, 10, 15, 21);
    by_round(i, s1, s2, s3, s4)
}

// The constants of the operations: a round in two lines, in the order of the words.
static CONSTANTS: [u32; 64] = [
    0xd76aa478, 0xe8c7b756, 0x242070db, 0xc1bdceee, 0xf57c0faf, 0x4787c62a, 0xa8304613, 0xfd469501,
    0x698098d8, 0x8b44f7af, 0xffff5bb1, 0x895cd7be, 0x6b901122, 0xfd987193, 0xa679438e, 0x49b40821,
    0xe9b6c7aa, 0xf61e2562, 0xfcefa3f8, 0xf4d50d87, 0xe7d3fbc8, 0xd62f105d, 0xc040b340, 0x676f02d9,
    0x455a14ed, 0x21e1cde6, 0x02441453, 0x265e5a51, 0x8d2a4c8a, 0xa9e3e905, 0xc33707d6, 0xd8a1e681,
    0xeaa127fa, 0xa4beea44, 0xc4ac5665, 0xd4ef3085, 0x4bdecfa9, 0xfffa3942, 0x04881d05, 0xf6bb4b60,
    0x8771f681, 0xd9d4d039, 0xbebfbc70, 0x6d9d6122, 0xe6db99e5, 0x289b7ec6, 0xfde5380c, 0x1fa27cf8,
    0xf4292244, 0x85845dd1, 0x2ad7d2bb, 0x8f0ccc92, 0xf7537e82, 0xfc93a039, 0xa3014314, 0x432aff97,
    0x6fa87e4f, 0xeb86d391, 0xffeff47d, 0xbd3af235, 0x655b59c3, 0x4e0811a1, 0xab9423a7, 0xfe2ce6e0,
];

// Each constant is at its operation's place.
fn constants() -> &'static [u32; 64]
    ensures { AreConstants result.now }
{
    &CONSTANTS
}

/// Returns, for each operation on a block, its word plus its constant. Not inlined: if the compiler sees a sum and its
/// operation together, it adds the constant last.
#[inline(never)]
pub fn sums(m: &[u8]) -> [u32; 64]
    requires { length m.now ≡ 64 }
    ensures { AreSums m.now result }
{
    let constants = constants();
    let mut sums = [0; 64];
    for round in 0..4 {
        for k in 0..16 {
            let place = 16 * round + k;
            sums[place] = wrapping_add_u32(word::word_at(m, 4 * k), constants[place]);
        }
    }
    sums
}

// Operation i, [abcd k s i], on a block with these sums.
fn operate(sums: &[u32; 64], i: u32, q: Buffer) -> Buffer
    requires { i < 64 }
    ensures { (xs : List ℕ) → AreSums xs sums.now → result ≡ operation xs i q }
{
    let (early, late) = function(i, q.b, q.c, q.d);
    let sum = wrapping_add_u32(
        wrapping_add_u32(q.a, sums[operation_index(i) as usize]),
        early,
    );
    let sum = wrapping_add_u32(sum, late);
    Buffer {
        a: q.d,
        b: wrapping_add_u32(q.b, word::rotate_left(sum, shift(i))),
        c: q.b,
        d: q.c,
    }
}

// Four operations, a row of the RFC's.
fn row(sums: &[u32; 64], i: u32, q: Buffer) -> Buffer
    requires { i < 61 }
    ensures { (xs : List ℕ) → AreSums xs sums.now → result ≡ operations i 4 xs q }
{
    let q = operate(sums, i, q);
    let q = operate(sums, i + 1, q);
    let q = operate(sums, i + 2, q);
    operate(sums, i + 3, q)
}

/// Rounds 1 and 2. (All 64 operations in one function have more facts than a search reads.)
pub fn first_two(sums: &[u32; 64], q: Buffer) -> Buffer
    ensures { (xs : List ℕ) → AreSums xs sums.now → result ≡ operations 0 32 xs q }
{
    let q = row(sums, 0, q);
    let q = row(sums, 4, q);
    let q = row(sums, 8, q);
    let q = row(sums, 12, q);
    let q = row(sums, 16, q);
    let q = row(sums, 20, q);
    let q = row(sums, 24, q);
    row(sums, 28, q)
}

/// Rounds 3 and 4.
pub fn last_two(sums: &[u32; 64], q: Buffer) -> Buffer
    ensures { (xs : List ℕ) → AreSums xs sums.now → result ≡ operations 32 32 xs q }
{
    let q = row(sums, 32, q);
    let q = row(sums, 36, q);
    let q = row(sums, 40, q);
    let q = row(sums, 44, q);
    let q = row(sums, 48, q);
    let q = row(sums, 52, q);
    let q = row(sums, 56, q);
    row(sums, 60, q)
}
