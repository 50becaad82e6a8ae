// For tests: a source that gives odd pieces, or fails in mid-stream, and a sink that takes odd pieces, or fails.
ghost use Rattle.std.specs.Prelude.{◌≡◌, ◌≤◌, ⊤, Some, take, drop};

use crate::memory;
use crate::reader::ByteSource;
use crate::writer::ByteSink;
use std::io;
use std::io::{Error, ErrorKind};

/// A source for tests: it gives 1 to `most` bytes a read, and fails after `until` bytes.
#[derive(Drop)]
pub struct Pieces {
    /// The bytes still to be read.
    pub log: &'static [u8],
    /// How many bytes a read gives at most; 0 counts as 1.
    pub most: usize,
    /// How many more bytes are given before a read fails.
    pub until: usize,
}

impl ByteSource for Pieces {
    ghost remaining = { λ p. Some p.log.now };

    ghost fails_with = { λ _. ⊤ };

    fn read(&mut self, buf: &mut [u8]) -> io::Result<usize> {
        if self.until == 0 {
            return Err(Error::from(ErrorKind::Other));
        }
        let most = self.most.max(1).min(self.until).min(buf.len());
        let count = self.log.len().min(most);
        buf[..count].copy_from_slice(&self.log[..count]);
        self.log = &self.log[count..];
        self.until -= count;
        Ok(count)
    }
}

const TRIAL_ROOM: usize = 64;

/// A sink for tests: it takes at most `spare` + 1 bytes a write, and fails when it has `room` bytes, 64 at most.
#[derive(Drop)]
pub struct TrialSink {
    bytes: [u8; TRIAL_ROOM],
    count: usize,
    flushed: usize,
    spare: usize,
    room: usize,
    ghost inside: { count ≤ 64 },
}

impl TrialSink {
    /// Returns an empty sink.
    pub fn new(spare: usize, room: usize) -> TrialSink
        ensures empty { (result.count ≡ 0) × (result.flushed ≡ 0) }
        ensures limits { (result.spare ≡ spare) × (result.room ≡ room) }
    {
        TrialSink {
            bytes: [0; TRIAL_ROOM],
            count: 0,
            flushed: 0,
            spare,
            room,
        }
    }

    /// Returns the bytes that it has got.
    pub fn text(&self) -> &[u8]
        ensures { result.now ≡ take self.now.count self.now.bytes }
    {
        &self.bytes[..self.count]
    }

    /// Returns how many of its bytes it had when it was last flushed.
    pub fn flushed(&self) -> usize
        ensures { result ≡ self.now.flushed }
    {
        self.flushed
    }

    /// Changes its room.
    pub fn set_room(&mut self, room: usize)
        ensures { self.new ≡ record self.old { room = room } }
    {
        self.room = room;
    }
}

impl ByteSink for TrialSink {
    ghost contents = { λ t. Some (take t.count t.bytes) };

    ghost waiting = { λ t. drop t.flushed (take t.count t.bytes) };

    ghost fails_with = { λ _. ⊤ };

    fn write(&mut self, buf: &[u8]) -> io::Result<usize> {
        let end = self.room.min(TRIAL_ROOM);
        if self.count >= end {
            return Err(Error::from(ErrorKind::Other));
        }
        let free = (end - self.count).min(buf.len());
        let count = if free <= self.spare {
            free
        } else {
            self.spare + 1
        };
        self.count = memory::append(&mut self.bytes, self.count, &buf[..count]);
        Ok(count)
    }

    fn flush(&mut self) -> io::Result<()> {
        self.flushed = self.count;
        Ok(())
    }
}
