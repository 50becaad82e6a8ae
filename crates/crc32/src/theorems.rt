// What is proved beside the contracts of the functions. Nothing is done here: that these functions have their contracts
// is that the theorems stand.
ghost use Rattle.std.specs.Prelude.{ℕ, List, ◌≡◌, ◌≤◌, ◌++◌, length};
ghost use Rattle.crc32.specs.Crc.{crc32_of, crc32_on};
ghost use Rattle.crc32.specs.Published.{Published};

/// The definition gives the published sums.
#[tactic(auto, using(crate::proofs::Vectors::published))]
pub fn published_sums_come_out()
    ensures { Published }
{}

/// A sum continues over a text's parts, from that of no bytes.
pub fn sums_go_on()
    ensures parts { (c : ℕ) (s t : List ℕ) → crc32_on c (s ++ t) ≡ crc32_on (crc32_on c s) t }
    ensures whole { (s t : List ℕ) → crc32_on (crc32_of s) t ≡ crc32_of (s ++ t) }
    ensures begun { (s : List ℕ) → crc32_on 0 s ≡ crc32_of s }
{}

/// Texts of one length that differ only within four adjacent bytes have different sums.
pub fn a_change_within_four_bytes_shows(before: &[u8], bytes: &[u8], others: &[u8], behind: &[u8])
    ensures { length bytes.now ≡ length others.now → length bytes.now ≤ 4
        → crc32_of (before.now ++ (bytes.now ++ behind.now)) ≡ crc32_of (before.now ++ (others.now ++ behind.now))
        → bytes.now ≡ others.now }
{}
