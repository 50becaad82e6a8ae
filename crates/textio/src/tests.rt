// What no clause says of std's streams: that a call which a signal interrupts is made again, that a write which takes
// nothing fails, and that a flush is passed on. The errors of std's streams, and the bytes that wait in them, are not
// known.

use crate::reader::ByteSource;
use crate::streams::Stream;
use crate::writer;
use crate::writer::ByteSink;
use std::io;
use std::io::{Error, ErrorKind, Read, Write};

// It is interrupted this many times, and then gives or takes one byte at a time.
#[derive(Drop)]
struct Interrupted {
    times: u32,
}

impl Read for Interrupted {
    fn read(&mut self, buf: &mut [u8]) -> io::Result<usize> {
        if self.times > 0 {
            self.times -= 1;
            return Err(Error::from(ErrorKind::Interrupted));
        }
        if buf.is_empty() {
            return Ok(0);
        }
        buf[0] = b'x';
        Ok(1)
    }
}

impl Write for Interrupted {
    fn write(&mut self, buf: &[u8]) -> io::Result<usize> {
        if self.times > 0 {
            self.times -= 1;
            return Err(Error::from(ErrorKind::Interrupted));
        }
        Ok(buf.len().min(1))
    }

    fn flush(&mut self) -> io::Result<()> {
        Ok(())
    }
}

#[derive(Drop)]
struct TakesNothing;

impl Write for TakesNothing {
    fn write(&mut self, _buf: &[u8]) -> io::Result<usize> {
        Ok(0)
    }

    fn flush(&mut self) -> io::Result<()> {
        Ok(())
    }
}

#[derive(Drop)]
struct Flushed {
    times: u32,
}

impl Write for Flushed {
    fn write(&mut self, buf: &[u8]) -> io::Result<usize> {
        Ok(buf.len())
    }

    fn flush(&mut self) -> io::Result<()> {
        self.times = self.times.saturating_add(1);
        Ok(())
    }
}

#[test]
fn an_interrupted_call_is_made_again(rt: HostRuntime) {
    let mut byte = [0u8; 1];
    let read = Stream(Interrupted { times: 3 }).read(&mut byte);
    assert!(rt; matches!(read, Ok(1)));
    assert_eq!(rt; byte, [b'x']);
    assert!(rt; writer::put(&mut Stream(Interrupted { times: 3 }), b"text").is_ok());
}

#[test]
fn a_write_that_takes_nothing_fails(rt: HostRuntime) {
    let told = writer::put(&mut Stream(TakesNothing), b"text");
    assert!(rt; matches!(told, Err(e) if e.kind() == ErrorKind::WriteZero));
}

#[test]
fn a_flush_is_handed_on(rt: HostRuntime) {
    let mut to = Stream(Flushed { times: 0 });
    assert!(rt; to.flush().is_ok());
    assert_eq!(rt; to.0.times, 1);
}
