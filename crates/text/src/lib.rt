// Bytes in memory: copied into a buffer, compared, and searched for a byte; arrays with a count of used places; flags.
#![tactic(auto)]

pub mod flag;
pub mod numbered;
pub mod rooms;

ghost use Rattle.std.specs.Prelude.{◌≡◌, ◌≢◌, ◌+◌, ◌≤◌, ◌<◌, All, length, take, slice_index};
ghost use Rattle.std.proofs.lemmas.List.Edits.{sets};
ghost use Rattle.text.specs.Scans.{is_same_by, itself, index_of};

/// Copies all of `src` into `out`, from the place `at` on. It copies a byte at a time: the compiler cannot know that
/// two buffers do not overlap, so `copy_from_slice` would be `memmove`, which the archive does not ask a host for.
pub fn put(out: &mut [u8], at: usize, src: &[u8])
    requires { at + length src.now ≤ length out.old }
    ensures { out.new ≡ sets out.old at src.now }
{
    for (i, &byte) in src.iter().enumerate() {
        out[at + i] = byte;
    }
}

/// Whether a and b hold the same bytes.
pub fn is_same(bytes: &[u8], other: &[u8]) -> bool
    ensures { result ≡ is_same_by itself bytes.now other.now }
{
    if bytes.len() != other.len() {
        return false;
    }
    for i in 0..bytes.len() {
        if bytes[i] != other[i] {
            return false;
        }
    }
    true
}

/// Returns the place of the first `byte` in `bytes`, or the length of `bytes` if there is none.
pub fn find(bytes: &[u8], byte: u8) -> usize
    ensures place { result ≡ index_of byte bytes.now }
    ensures before { All (λ x. x ≢ byte) (take result bytes.now) }
    ensures found { result < length bytes.now → slice_index bytes.now result ≡ byte }
    ensures within { result ≤ length bytes.now }
{
    bytes.iter().position(|&x| x == byte).unwrap_or(bytes.len())
}
