// Numbers of two and four bytes, the highest first (RULES, Stored form).
ghost use Rattle.std.specs.Prelude.{◌≡◌, ◌+◌, ◌≤◌, length, take, drop};
ghost use Rattle.numbers.specs.HighestFirst.{highest_first, number_in};

/// Returns the number of the two bytes from the place `index` on, highest byte first.
pub fn two_at(bytes: &[u8], index: usize) -> u32
    requires { index + 2 ≤ length bytes.now }
    ensures { result ≡ number_in (take 2 (drop index bytes.now)) }
{
    u16::from_be_bytes([bytes[index], bytes[index + 1]]) as u32
}

/// Returns the number of four bytes, highest byte first.
pub fn four_of(bytes: &[u8; 4]) -> u32
    ensures { result ≡ number_in bytes.now }
{
    u32::from_be_bytes(*bytes)
}

/// Returns the two lowest bytes of a number, the highest first.
#[tactic(auto, unfolding(crate::specs::HighestFirst::highest_first))]
pub fn two_bytes(number: u32) -> [u8; 2]
    ensures { result ≡ highest_first 2 number }
{
    let [_, _, high, low] = four_bytes(number);
    [high, low]
}

/// Returns the four bytes of a number, the highest first.
#[tactic(auto, using(crate::proofs::HighestFirst::four_highest))]
pub fn four_bytes(number: u32) -> [u8; 4]
    ensures { result ≡ highest_first 4 number }
{
    number.to_be_bytes()
}
