// What is proved beside the contracts of the functions. Nothing is done here: that these functions have their contracts
// is that the theorems stand.
ghost use Rattle.std.specs.Prelude.{◌≡◌, ◌+◌, ◌%◌, ◌<◌, List, ℕ};
ghost use Rattle.digest.specs.TestSuite.{TestSuite};
ghost use Rattle.digest.specs.declared.Digest.{Digest};
ghost use Rattle.digest.specs.Md5.{md5_of};
ghost use Rattle.digest.specs.Padding.{zeros_after};
ghost use Rattle.digest.specs.Hex.{hex_of, hex_digits, hex_value, leading_digest};

/// The definition gives the digests that RFC 1321 publishes, and that of PJLink's example.
#[tactic(auto, using(crate::proofs::Vectors::suite))]
pub fn published_digests_come_out()
    ensures { TestSuite }
{}

/// RFC 1321, 3.1: the zeros bring a message's length to 448 bits modulo 512, and are no more than that takes.
#[tactic(auto, unfolding(crate::specs::Padding::zeros_after))]
pub fn zeros_reach_448_bits()
    ensures reached { (n : ℕ) → (n + 1 + zeros_after n) % 64 ≡ 56 }
    ensures fewest { (n : ℕ) → zeros_after n < 64 }
{}

/// Two results that meet the promise of a call are equal.
pub fn one_result()
    ensures digest { (s : List ℕ) (r q : Digest) → r.bytes ≡ md5_of s → q.bytes ≡ md5_of s → r ≡ q }
    ensures hex_digits { (d : Digest) (r q : List ℕ) → r ≡ hex_of d.bytes → q ≡ hex_of d.bytes → r ≡ q }
    ensures eight_digits { (x : ℕ) (r q : List ℕ) → r ≡ hex_digits 8 x → q ≡ hex_digits 8 x → r ≡ q }
    ensures hex_number { (s : List ℕ) (r q : ℕ) → r ≡ hex_value s → q ≡ hex_value s → r ≡ q }
    ensures leading_digest { (random : ℕ) (password r q : List ℕ)
        → r ≡ leading_digest random password → q ≡ leading_digest random password → r ≡ q }
{}
