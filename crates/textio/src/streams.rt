// Std's readers and writers as sources and sinks.
ghost use Rattle.std.specs.Prelude.{[], ◌<◌, IfOk, ⊤, length};
ghost use Rattle.std.specs.Io.{WritesAtMost};
ghost use Rattle.std.specs.Io.KnownBytes.{WriteAppends};

use crate::reader::ByteSource;
use crate::writer::ByteSink;
use std::io;
use std::io::{Error, ErrorKind, Read, Write};

/// A reader or a writer of std. Its errors are not known.
#[derive(Drop)]
pub struct Stream<T>(pub T);

impl<R: Read> ByteSource for Stream<R> {
    ghost remaining = { λ s. R.remaining s.0 };

    ghost fails_with = { λ _. ⊤ };

    // a read that a signal interrupts is made again
    fn read(&mut self, buf: &mut [u8]) -> io::Result<usize> {
        for _ in 0..u64::MAX {
            match self.0.read(buf) {
                Err(e) if e.kind() == ErrorKind::Interrupted => {}
                told => return told,
            }
        }
        self.0.read(buf)
    }
}

// Writes some of the bytes. A write that takes none of them is a failure.
fn write_some<W: Write>(to: &mut W, bytes: &[u8]) -> io::Result<usize>
    ensures bound { WritesAtMost result bytes.now }
    ensures some { IfOk result (λ n. 0 < length bytes.now → 0 < n) }
    ensures bytes { WriteAppends (W.contents to.old) (W.contents to.new) result bytes.now }
{
    match to.write(bytes) {
        Ok(0) if !bytes.is_empty() => Err(Error::from(ErrorKind::WriteZero)),
        told => told,
    }
}

impl<W: Write> ByteSink for Stream<W> {
    ghost contents = { λ s. W.contents s.0 };

    ghost waiting = { λ _. [] };

    ghost fails_with = { λ _. ⊤ };

    // a write that a signal interrupts is made again
    fn write(&mut self, buf: &[u8]) -> io::Result<usize> {
        for _ in 0..u64::MAX {
            match write_some(&mut self.0, buf) {
                Err(e) if e.kind() == ErrorKind::Interrupted => {}
                told => return told,
            }
        }
        write_some(&mut self.0, buf)
    }

    fn flush(&mut self) -> io::Result<()> {
        self.0.flush()
    }
}
