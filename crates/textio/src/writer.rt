// Bytes that go to a sink, with those that wait in memory.
ghost use Rattle.std.specs.Prelude.{◌≡◌, ◌≤◌, ◌<◌, ◌++◌, ℕ, List, [], Option, IfOk, IfErr, OnOk, length, take};
ghost use Rattle.std.specs.Io.{WritesAtMost};
ghost use Rattle.std.specs.Io.KnownBytes.{Keeps, Appends, WriteAppends};
ghost use Rattle.textio.specs.Fronts.{WritesText};
ghost use Rattle.std.specs.declared.io.Error.{Error};

use crate::memory;
use std::io;

/// A sink of bytes. It promises what std's `Write` promises of the bytes, and also which errors it gives, and that a
/// write of some bytes takes at least one.
pub trait ByteSink {
    /// The bytes that it has got, if they are known.
    ghost contents: { Self → Option (List ℕ) };

    /// Of these, the bytes that are buffered in it, and not yet passed on.
    ghost waiting: { Self → List ℕ };

    /// The errors that it gives.
    ghost fails_with: { Error → Type 0 };

    /// Takes bytes from the front of `buf`, and returns their count: 0 only if `buf` is empty. With an error it takes
    /// none.
    fn write(&mut self, buf: &[u8]) -> io::Result<usize>
        ensures bound { WritesAtMost result buf.now }
        ensures some { IfOk result (λ n. 0 < length buf.now → 0 < n) }
        ensures bytes { WriteAppends (contents self.old) (contents self.new) result buf.now }
        ensures err { IfErr result fails_with };

    /// Flushes buffered output.
    fn flush(&mut self) -> io::Result<()>
        ensures keeps { Keeps (contents self.old) (contents self.new) }
        ensures none_waits { OnOk result (waiting self.new ≡ []) }
        ensures err { IfErr result fails_with };
}

// Writes bytes until all are written, or a write fails. Returns how many were.
fn hand_on<W: ByteSink>(to: &mut W, bytes: &[u8]) -> (usize, io::Result<()>)
    ensures bound { result.0 ≤ length bytes.now }
    ensures bytes { Appends (W.contents to.old) (W.contents to.new) (take result.0 bytes.now) }
    ensures ok { OnOk result.1 (result.0 ≡ length bytes.now) }
    ensures err { IfErr result.1 W.fails_with }
{
    let mut done = 0;
    while done < bytes.len() {
        match to.write(&bytes[done..]) {
            Ok(count) => done += count,
            Err(e) => return (done, Err(e)),
        }
    }
    (done, Ok(()))
}

/// Writes all the bytes. If a write fails, the sink has got a prefix of them.
pub fn put<W: ByteSink>(to: &mut W, bytes: &[u8]) -> io::Result<()>
    ensures { WritesText W.fails_with (W.contents to.old) (W.contents to.new) result bytes.now }
{
    let (_, told) = hand_on(to, bytes);
    told
}

const WRITER_ROOM: usize = 65536;

/// A sink with a buffer: the bytes from `start` to `end` are not yet passed on to it.
#[derive(Drop)]
pub struct BufferedWriter<W> {
    inner: W,
    bytes: [u8; WRITER_ROOM],
    start: usize,
    end: usize,
    ghost ordered: { start ≤ end },
    ghost in_bounds: { end ≤ 65536 },
}

impl<W: ByteSink> BufferedWriter<W> {
    ghost use Rattle.textio.specs.Waiting.{held_by};

    /// Returns a writer of the sink, with an empty buffer.
    pub fn new(inner: W) -> BufferedWriter<W>
        ensures { held_by W.contents result ≡ W.contents inner }
    {
        BufferedWriter {
            inner,
            bytes: [0; WRITER_ROOM],
            start: 0,
            end: 0,
        }
    }

    // Writes the buffered bytes. If a write fails, those that are left stay in the buffer.
    fn drain(&mut self) -> io::Result<()>
        ensures keeps { Keeps (held_by W.contents self.old) (held_by W.contents self.new) }
        ensures empty { OnOk result (self.new.end ≡ 0) }
        ensures err { IfErr result W.fails_with }
    {
        let (start, end) = (self.start, self.end);
        let all = &self.bytes[..];
        let (count, told) = hand_on(&mut self.inner, &all[start..end]);
        self.start += count;
        told?;
        self.start = 0;
        self.end = 0;
        Ok(())
    }

    fn make_room(&mut self) -> io::Result<()>
        ensures keeps { Keeps (held_by W.contents self.old) (held_by W.contents self.new) }
        ensures room { OnOk result (self.new.end < 65536) }
        ensures err { IfErr result W.fails_with }
    {
        if self.end < WRITER_ROOM {
            return Ok(());
        }
        self.drain()
    }
}

impl<W: ByteSink> ByteSink for BufferedWriter<W> {
    ghost use Rattle.textio.specs.Waiting.{waiting_in, held_by};

    ghost contents = { held_by W.contents };

    ghost waiting = { λ w. W.waiting w.inner ++ waiting_in w };

    ghost fails_with = { W.fails_with };

    fn write(&mut self, buf: &[u8]) -> io::Result<usize> {
        self.make_room()?;
        let held = self.end;
        self.end = memory::append(&mut self.bytes, held, buf);
        Ok(self.end - held)
    }

    fn flush(&mut self) -> io::Result<()> {
        self.drain()?;
        self.inner.flush()
    }
}
