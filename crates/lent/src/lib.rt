//! A caller's buffer, written from its start on, one thing after the other.
#![tactic(auto)]

mod chunks;

ghost use Rattle.std.specs.Prelude.{◌≡◌, ◌∷◌, [], ◌+◌, ◌^◌, ◌<◌, ◌≤◌, length};
ghost use Rattle.lent.specs.Puts.{Puts};

/// Writes to a buffer, each thing after what was written before. Bytes past the end of the buffer are counted and not
/// written, so that a writer of an empty buffer measures a length.
#[derive(Drop)]
pub struct MemoryWriter<'a> {
    /// The buffer.
    pub out: &'a mut [u8],
    /// How many bytes were written or counted.
    pub at: usize,
}

impl<'a> MemoryWriter<'a> {
    /// Returns a writer that has written nothing.
    pub fn new(out: &'a mut [u8]) -> MemoryWriter<'a>
        ensures lent { result.out.ghost_name ≡ out.entry.ghost_name }
        ensures memory { result.out.now ≡ out.old }
        ensures first { result.at ≡ 0 }
    {
        MemoryWriter { out, at: 0 }
    }

    /// Returns how many bytes were written or counted.
    pub fn count(&self) -> usize
        ensures { result ≡ self.now.at }
    {
        self.at
    }

    /// Writes these bytes.
    #[tactic(auto, using(crate::proofs::Writing::sets_past, crate::proofs::Writing::sets_fit))]
    pub fn bytes(&mut self, bytes: &[u8])
        requires { self.old.at + length bytes.now < 2 ^ 64 }
        ensures { Puts self.old self.new bytes.now }
    {
        if self.at < self.out.len() {
            let n = bytes.len().min(self.out.len() - self.at);
            chunks::put(self.out, self.at, &bytes[..n]);
        }
        self.at += bytes.len();
    }

    /// Writes these bytes, for which there is room.
    #[inline(always)]
    pub fn fitting(&mut self, bytes: &[u8])
        requires { self.old.at + length bytes.now ≤ length self.old.out.now }
        ensures { Puts self.old self.new bytes.now }
    {
        chunks::put(self.out, self.at, bytes);
        self.at += bytes.len();
    }

    /// Writes one byte.
    pub fn byte(&mut self, byte: u8)
        requires { self.old.at + 1 < 2 ^ 64 }
        ensures { Puts self.old self.new (byte ∷ []) }
    {
        if self.at < self.out.len() {
            self.out[self.at] = byte;
        }
        self.at += 1;
    }
}
