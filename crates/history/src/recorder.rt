// The recorder: writes the line of a header, of a call or of what a record shows to a buffer, and keeps its state for
// the next one.
ghost use Rattle.std.specs.Prelude.{◌≡◌, ◌≤◌, length, true, false};
ghost use Rattle.std.specs.Result.{is_ok};
ghost use Rattle.text.specs.Words.{over};
ghost use Rattle.text.specs.Outcomes.{with_length};
ghost use Rattle.record.specs.Legal.{is_legal};
ghost use Rattle.crc32.specs.Crc.{crc32_of};
ghost use Rattle.history.specs.Calls.{call_seen, is_sayable};
ghost use Rattle.history.specs.Entries.{time_seen, entry_seen, is_sayable_entry, entry_line, call};
ghost use Rattle.history.specs.Recording.{log_line_room, cannot_follow, counted, read_past};
ghost use Rattle.history.specs.Recording.{recorded_by, header_next, stated_next, stated_by};
ghost use Rattle.history.specs.Shown.{device_shown};

use crate::call::RecordedCall;
use crate::entry::{Entry, Header, SHOWN_MOST, Stated};
use crate::{put, shown};
use arrayvec::ArrayVec;
use lent::MemoryWriter;
use record::refusal::Refusal;
use record::types::Device;

/// The memory that any line fits in, its LF included, in bytes.
pub const LOG_LINE_ROOM: usize = 4097;

/// The state from line to line: plain numbers, which a host may keep anywhere.
#[repr(C)]
#[derive(Clone, Copy)]
pub struct Recorder {
    /// The number of the file in the chain; 0 before the first.
    pub file: u32,
    /// How many lines the file has, its header not counted.
    pub lines: u32,
    /// The CRC-32 of everything before: the stored form, and the chain so far.
    pub sum: u32,
}

// The line of an entry that can be said, and its length.
#[tactic(auto, using(crate::proofs::Fits::entry_fits))]
#[inline(always)]
fn put_line(entry: &Entry<'_>, out: &mut [u8]) -> usize
    requires sayable { is_sayable_entry (entry_seen entry.now) ≡ true }
    requires fits { log_line_room ≤ length out.old }
    ensures count { result ≡ length (entry_line (entry_seen entry.now)) }
    ensures written { out.new ≡ over (entry_line (entry_seen entry.now)) out.old }
{
    let mut writer = MemoryWriter::new(out);
    put::entry(&mut writer, entry);
    writer.byte(b'\n');
    writer.count()
}

impl Recorder {
    // Whether no such line can stand there: there is no file yet, or no line more can be counted.
    #[inline(always)]
    fn cannot_follow(&self, entry: &Entry<'_>) -> bool
        ensures { result ≡ cannot_follow self.now (entry_seen entry.now) }
    {
        match entry {
            Entry::Header(_) => false,
            _ => self.file == 0 || self.lines == u32::MAX,
        }
    }

    // What is kept after a line, where all up to its LF has this sum.
    #[inline(always)]
    fn count(&mut self, entry: &Entry<'_>, sum: u32)
        requires room { cannot_follow self.old (entry_seen entry.now) ≡ false }
        ensures { self.new ≡ counted self.old (entry_seen entry.now) sum }
    {
        self.sum = sum;
        match entry {
            Entry::Header(header) => {
                self.file = header.file;
                self.lines = 0;
            }
            _ => self.lines += 1,
        }
    }

    /// For a reader of a history, which keeps the same numbers as its recorder: counts a line that was read and adds it
    /// to the sum. The line has no LF, and says the entry.
    pub fn read_past(&mut self, entry: &Entry<'_>, line: &[u8])
        requires room { cannot_follow self.old (entry_seen entry.now) ≡ false }
        ensures { self.new ≡ read_past self.old (entry_seen entry.now) line.now }
    {
        let text = crc32::crc32_on(self.sum, line);
        self.count(entry, crc32::crc32_on(text, b"\n"));
    }

    /// Returns a recorder that has recorded nothing. `form` is the stored form of the device that was set up, or loaded
    /// from it.
    pub fn new(form: &[u8]) -> Recorder
        ensures file { result.file ≡ 0 }
        ensures lines { result.lines ≡ 0 }
        ensures sum { result.sum ≡ crc32_of form.now }
    {
        Recorder {
            file: 0,
            lines: 0,
            sum: crc32::crc32(form),
        }
    }

    // The line of an entry that can be said, while lines can be counted.
    #[tactic(auto, unfolding(crate::specs::Recording::recorded_by))]
    #[inline(always)]
    fn record(&mut self, entry: &Entry<'_>, out: &mut [u8]) -> Result<usize, Refusal>
        ensures says { result ≡ with_length (recorded_by self.old (entry_seen entry.now) (length out.old)) }
        ensures memory { out.new ≡ over (recorded_by self.old (entry_seen entry.now) (length out.old)).bytes out.old }
        ensures kept { self.new ≡ (recorded_by self.old (entry_seen entry.now) (length out.old)).leaves }
    {
        if out.len() < LOG_LINE_ROOM {
            return Err(Refusal::NoRoom);
        }
        if !entry.is_sayable() {
            return Err(Refusal::OutOfRange);
        }
        if self.cannot_follow(entry) {
            return Err(Refusal::OutOfRange);
        }
        let count = put_line(entry, out);
        self.count(entry, crc32::crc32_on(self.sum, &out[..count]));
        Ok(count)
    }

    /// Records that a file begins, with its start time, if any. Returns the length of the header line, which fills the
    /// start of `out`; the rest of `out` stays. Errors, in this order, with which the recorder and all of `out` stay:
    /// `NoRoom` under 4,097 bytes; `OutOfRange` for a time that no header can have, and past file 4,294,967,295.
    #[tactic(auto, unfolding(crate::specs::Recording::recorded_by))]
    pub fn file(&mut self, time: Option<&[u8]>, out: &mut [u8]) -> Result<usize, Refusal>
        ensures says { result
            ≡ with_length (recorded_by self.old (header_next self.old (time_seen time.entry)) (length out.old)) }
        ensures memory { out.new ≡ over
            (recorded_by self.old (header_next self.old (time_seen time.entry)) (length out.old)).bytes
            out.old }
        ensures kept { self.new
            ≡ (recorded_by self.old (header_next self.old (time_seen time.entry)) (length out.old)).leaves }
    {
        if out.len() < LOG_LINE_ROOM {
            return Err(Refusal::NoRoom);
        }
        if self.file == u32::MAX {
            return Err(Refusal::OutOfRange);
        }
        let header = Header {
            file: self.file + 1,
            sum: self.sum,
            time,
        };
        self.record(&Entry::Header(header), out)
    }

    /// Records a call. Returns the length of its line, which fills the start of `out`; the rest of `out` stays. Errors,
    /// in this order, with which the recorder and all of `out` stay: `NoRoom` under 4,097 bytes; `OutOfRange` for a
    /// call that no line can say ([`RecordedCall::is_sayable`]), before the first file, and past 4,294,967,295 lines
    /// of a file.
    #[inline(always)]
    pub fn call(&mut self, made: &RecordedCall<'_>, out: &mut [u8]) -> Result<usize, Refusal>
        ensures says { result ≡ with_length (recorded_by self.old (call (call_seen made.now)) (length out.old)) }
        ensures memory { out.new
            ≡ over (recorded_by self.old (call (call_seen made.now)) (length out.old)).bytes out.old }
        ensures kept { self.new ≡ (recorded_by self.old (call (call_seen made.now)) (length out.old)).leaves }
        ensures served { is_sayable (call_seen made.now) ≡ true → log_line_room ≤ length out.old
            → cannot_follow self.old (call (call_seen made.now)) ≡ false
            → is_ok result ≡ true }
    {
        self.record(&Entry::Call(*made), out)
    }

    /// Records what a record shows: its power and seconds, with the count of lines and the sum so far. Returns the
    /// length of the line, which fills the start of `out`; the rest of `out` stays. Errors, in this order, with which
    /// the recorder and all of `out` stay: `NotLegal`; `NoRoom` under 4,097 bytes; `OutOfRange` before the first file,
    /// and past 4,294,967,295 lines of a file, and never for what a legal record shows.
    #[tactic(auto, unfolding(crate::specs::Recording::stated_by))]
    pub fn stated(&mut self, device: &Device, out: &mut [u8]) -> Result<usize, Refusal>
        ensures says { result ≡ with_length (stated_by self.old device.now (length out.old)) }
        ensures memory { out.new ≡ over (stated_by self.old device.now (length out.old)).bytes out.old }
        ensures kept { self.new ≡ (stated_by self.old device.now (length out.old)).leaves }
        ensures served { is_legal device.now ≡ true → log_line_room ≤ length out.old
            → cannot_follow self.old (stated_next self.old (device_shown device.now)) ≡ false
            → is_ok result ≡ true }
    {
        if !device.is_legal() {
            return Err(Refusal::NotLegal);
        }
        let mut shown: ArrayVec<u8, SHOWN_MOST> = ArrayVec::new();
        shown::put_shown(device, &mut shown);
        let stated = Stated {
            lines: self.lines,
            sum: self.sum,
            shown: shown.as_slice(),
        };
        self.record(&Entry::Stated(stated), out)
    }
}
