// Values on a line: each is written at the line's end, and read from the front of bytes (RULES, Commands and
// Controller).
ghost use Rattle.std.specs.Prelude.{◌≡◌, ℕ, ◌+◌, ◌≤◌, Bool, List, ◌++◌, length, Option};
ghost use Rattle.arrayvec.specs.ArrayVec.{array_vec_len};
ghost use Rattle.words.specs.Codec.{Codec, Ends, letter, taken_value, whole_value};

use arrayvec::ArrayVec;

/// The bytes of the longest line: a head of seven, a parameter of 128, CR (PJLink 1.04, 2.2 and 2.3).
pub const LINE_MOST: usize = 136;

/// A line that is being written.
pub type LineBytes = ArrayVec<u8, LINE_MOST>;

/// A value at one place of a line, with the bytes that say it.
pub trait Wire: Copy {
    /// The values that can be said.
    ghost legal: { Self → Bool };

    /// The bytes that our own side writes for a value.
    ghost text: { Self → List ℕ };

    /// The bytes that say a value, ours and others'.
    ghost writes: { Self → List ℕ → Type 0 };

    /// The value that is read at the front of bytes, and the bytes after it.
    ghost read: { List ℕ → Option (Self × List ℕ) };

    /// Writes the value at the end of the line.
    fn put(self, out: &mut LineBytes)
        requires { array_vec_len out.old + length (text self) ≤ LINE_MOST }
        ensures { out.new.items ≡ out.old.items ++ text self };

    /// Reads the value at the front of `bytes`. Returns it with the bytes after it, or `None`.
    fn take(bytes: &[u8]) -> Option<(Self, &[u8])>
        ensures { taken_value result ≡ read bytes.now };

    /// A text that says a value is read as that value, and a text that is read says its value.
    ghost codec: { Codec Ends legal text writes read };
}

/// Returns the value that all of `bytes` says, or `None`.
pub fn parse<T: Wire>(bytes: &[u8]) -> Option<T>
    ensures { result ≡ whole_value T.read bytes.now }
{
    match T::take(bytes) {
        Some((x, [])) => Some(x),
        _ => None,
    }
}

/// Returns the value that the first byte names, and the bytes after that byte. `None` if there is no byte, or it names
/// no value.
pub fn letter<T, F: Fn(u8) -> Option<T>>(bytes: &[u8], named: F) -> Option<(T, &[u8])>
    requires { F.IsAlwaysCallable named }
    ensures { (f : ℕ → Option T) → ((b : ℕ) (r : Option T) → F.post named b r → r ≡ f b)
        → taken_value result ≡ letter f bytes.now }
{
    let (&b, rest) = bytes.split_first()?;
    Some((named(b)?, rest))
}

/// Writes bytes as they are at the end of the line.
pub fn put_all(bytes: &[u8], out: &mut LineBytes)
    requires { array_vec_len out.old + length bytes.now ≤ LINE_MOST }
    ensures { out.new.items ≡ out.old.items ++ bytes.now }
{
    for &b in bytes {
        out.push(b);
    }
}
