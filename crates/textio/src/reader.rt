// Bytes that a source gives, with those that are read ahead.
ghost use Rattle.std.specs.Prelude.{◌≡◌, ◌≤◌, ◌<◌, ◌↔◌, ℕ, List, Option, IsTrue, OnErr, IfErr, OnOk, length, take};
ghost use Rattle.std.specs.Io.{ReadsAtMost};
ghost use Rattle.std.specs.Io.KnownBytes.{Keeps, Consumes, IsAtEnd, ReadConsumes};
ghost use Rattle.std.specs.declared.io.Error.{Error};

use std::io;

/// A source of bytes. It promises what std's `Read` promises of the bytes, and also which errors it gives.
pub trait ByteSource {
    /// The bytes that later reads give, if they are known.
    ghost remaining: { Self → Option (List ℕ) };

    /// The errors that reads give.
    ghost fails_with: { Error → Type 0 };

    /// Reads bytes into the front of `buf`, and returns their count: 0 at the end, or if `buf` is empty. An error loses
    /// no byte.
    fn read(&mut self, buf: &mut [u8]) -> io::Result<usize>
        ensures bound { ReadsAtMost result buf.new }
        ensures bytes { ReadConsumes (remaining self.old) (remaining self.new) result buf.new }
        ensures err { IfErr result fails_with };
}

const READER_ROOM: usize = 65536;

/// A source with a buffer: the bytes from `start` to `end` are read and not yet consumed.
#[derive(Drop)]
pub struct BufferedReader<R> {
    inner: R,
    bytes: [u8; READER_ROOM],
    start: usize,
    end: usize,
    ghost ordered: { start ≤ end },
    ghost in_bounds: { end ≤ 65536 },
}

impl<R: ByteSource> BufferedReader<R> {
    ghost use Rattle.textio.specs.Ahead.{ahead_of, left_in};

    /// Returns a reader of the source, with nothing read ahead.
    pub fn new(inner: R) -> BufferedReader<R>
        ensures { left_in R.remaining result ≡ R.remaining inner }
    {
        BufferedReader {
            inner,
            bytes: [0; READER_ROOM],
            start: 0,
            end: 0,
        }
    }

    /// Returns whether no byte is read ahead, so that the next line needs a read, which may wait.
    pub fn is_empty(&self) -> bool
        ensures { IsTrue result ↔ (length (ahead_of self.now) ≡ 0) }
    {
        self.start == self.end
    }

    /// Returns the bytes that are read ahead.
    pub fn ahead(&self) -> &[u8]
        ensures { result.now ≡ ahead_of self.now }
    {
        &self.bytes[self.start..self.end]
    }

    /// Reads from the source if no byte is read ahead. If there is none after it, the source is at its end.
    pub fn fill(&mut self) -> io::Result<()>
        ensures keeps { Keeps (left_in R.remaining self.old) (left_in R.remaining self.new) }
        ensures end { OnOk result (length (ahead_of self.new) ≡ 0 → IsAtEnd (left_in R.remaining self.new)) }
        ensures err { IfErr result R.fails_with }
        ensures read { OnErr result (length (ahead_of self.old) ≡ 0) }
    {
        if self.start < self.end {
            return Ok(());
        }
        let count = self.inner.read(&mut self.bytes)?;
        self.start = 0;
        self.end = count;
        Ok(())
    }

    /// Drops the first `amount` bytes that are read ahead.
    #[tactic(auto, using(crate::proofs::Known::prepend_known_taken, crate::proofs::Known::range_later))]
    pub fn consume(&mut self, amount: usize)
        requires { amount ≤ length (ahead_of self.old) }
        ensures { Consumes (left_in R.remaining self.old) (left_in R.remaining self.new)
            (take amount (ahead_of self.old)) }
    {
        self.start += amount;
    }
}
