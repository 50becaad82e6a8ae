// Words of 32 bits (RFC 1321, 2).
ghost use Rattle.std.specs.Prelude.{◌≡◌, ◌+◌, ◌<◌, ◌≤◌, length};
ghost use Rattle.digest.specs.Words.{◌<<<◌, word_at};

/// Returns the word `x` rotated left by `s` bits, 1 to 31.
#[tactic(auto, using(crate::proofs::Rotation::or_is_rotation))]
pub fn rotate_left(x: u32, s: u32) -> u32
    requires { (0 < s) × (s < 32) }
    ensures { result ≡ x <<< s }
{
    let s = s % 32;
    (x << s) | (x >> (32 - s))
}

/// Returns the word at `k`, low-order byte first.
pub fn word_at(s: &[u8], k: usize) -> u32
    requires { k + 4 ≤ length s.now }
    ensures { result ≡ word_at s.now k }
{
    u32::from_le_bytes([s[k], s[k + 1], s[k + 2], s[k + 3]])
}
