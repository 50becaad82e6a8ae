// A chain of files, line by line: what a line says, if it belongs where the reader is, and the line made again. The
// reader keeps the recorder's three numbers.
ghost use Rattle.std.specs.Prelude.{◌≡◌, [], Ok, Err, Some, None, not, if◌then◌else◌};
ghost use Rattle.std.specs.Option.{option_map};
ghost use Rattle.text.specs.Words.{over};
ghost use Rattle.text.specs.Scans.{is_same_by, itself};
ghost use Rattle.history.specs.Entries.{entry_seen};
ghost use Rattle.history.specs.Shown.{device_shown};
ghost use Rattle.recorded.specs.Chain.{why_seen, misfit_header, misfit_line, misfit_stated, misfit};
ghost use Rattle.recorded.specs.Chain.{entry_told, entry_read, made_told, made_seen, device_made, reply_made};
ghost use Rattle.recorded.specs.Chain.{log_made, call_made, other_state};
ghost use Rattle.recorded.specs.Played.{play_told};

use crate::play::{self, OTHER_PLACE, Stray};
use arrayvec::ArrayVec;
use device::calls::REPLY_ROOM;
use history::entry::{Entry, Header, SHOWN_MOST, Stated};
use history::read::{self, Bytes};
use history::recorder::Recorder;
use history::shown;
use record::legality::Tested;
use record::refusal::Refusal;
use record::types::Device;
use std::error::Error;
use std::fmt;

/// Why a line does not belong to the history of a record.
#[derive(Clone, Copy, Debug, PartialEq, Eq)]
pub enum Why {
    /// No LF ends it.
    Unended,
    /// It says nothing: it is not one that a recorder writes.
    SaysNothing,
    /// It is the header of another file than the next, or comes before the first header.
    OtherFile,
    /// It has another sum than that of everything before it.
    OtherSum,
    /// It states another count of lines since the header, or is one more than there can be.
    OtherCount,
    /// It states something else than the record shows.
    OtherState,
    /// It is an opening that got another place than it says.
    OtherPlace,
    /// It is a call that is refused.
    Refused(Refusal),
}

// The words for each reason but a refused call.
pub(crate) const UNENDED: &str = "no line end";

pub(crate) const SAYS_NOTHING: &str = "no such line";

pub(crate) const OTHER_FILE: &str = "not the next file";

pub(crate) const OTHER_SUM: &str = "another sum";

pub(crate) const OTHER_COUNT: &str = "another count of lines";

pub(crate) const OTHER_STATE: &str = "the record shows something else";

impl fmt::Display for Why {
    fn fmt<W: fmt::Write>(&self, f: &mut fmt::Formatter<W>) -> fmt::Result {
        match self {
            Why::Unended => f.write_str(UNENDED),
            Why::SaysNothing => f.write_str(SAYS_NOTHING),
            Why::OtherFile => f.write_str(OTHER_FILE),
            Why::OtherSum => f.write_str(OTHER_SUM),
            Why::OtherCount => f.write_str(OTHER_COUNT),
            Why::OtherState => f.write_str(OTHER_STATE),
            Why::OtherPlace => f.write_str(OTHER_PLACE),
            Why::Refused(refusal) => write!(f, "{refusal}"),
        }
    }
}

impl Error for Why {}

fn shows(device: &Device, text: &[u8]) -> bool
    ensures { result ≡ is_same_by itself text.now (device_shown device.now) }
{
    let mut shown: ArrayVec<u8, SHOWN_MOST> = ArrayVec::new();
    shown::put_shown(device, &mut shown);
    text::is_same(text, shown.as_slice())
}

fn header_misfit(log: &Recorder, header: &Header<'_>) -> Option<Why>
    ensures { option_map why_seen result ≡ misfit_header log.now header.now.file header.now.sum }
{
    if header.file as u64 != log.file as u64 + 1 {
        return Some(Why::OtherFile);
    }
    if header.sum != log.sum {
        return Some(Why::OtherSum);
    }
    None
}

// Of a line that is no header: whether it can stand there.
fn line_misfit(log: &Recorder) -> Option<Why>
    ensures { option_map why_seen result ≡ misfit_line log.now }
{
    if log.file == 0 {
        return Some(Why::OtherFile);
    }
    if log.lines == u32::MAX {
        return Some(Why::OtherCount);
    }
    None
}

// Of what is stated: whether it is what the record shows.
fn state_misfit(is_shown: bool) -> Option<Why>
    ensures { option_map why_seen result ≡ (if not is_shown then Some other_state else None) }
{
    if !is_shown {
        return Some(Why::OtherState);
    }
    None
}

fn stated_misfit(log: &Recorder, device: &Device, stated: &Stated<'_>) -> Option<Why>
    ensures { option_map why_seen result
        ≡ misfit_stated log.now device.now stated.now.lines stated.now.sum stated.now.shown.now }
{
    if stated.lines != log.lines {
        return Some(Why::OtherCount);
    }
    if stated.sum != log.sum {
        return Some(Why::OtherSum);
    }
    state_misfit(shows(device, stated.shown))
}

// Why an entry does not stand where the reader is, if it does not.
#[tactic(auto, unfolding(crate::specs::Chain::misfit))]
fn misfit(log: &Recorder, device: &Device, entry: &Entry<'_>) -> Option<Why>
    ensures { option_map why_seen result ≡ misfit log.now device.now (entry_seen entry.now) }
{
    match entry {
        Entry::Header(header) => header_misfit(log, header),
        Entry::Call(_) => line_misfit(log),
        Entry::Stated(stated) => match line_misfit(log) {
            Some(why) => Some(why),
            None => stated_misfit(log, device, stated),
        },
    }
}

/// Reads what a line, without its LF, says, if it belongs where the reader is. The bytes that it says were received go
/// into `room`, which must be empty. Errors, in this order: `SaysNothing`; for a header `OtherFile` if it is not that
/// of the next file, then `OtherSum`; for another line `OtherFile` before the first header, and `OtherCount` if no
/// further line can be counted; for a stated line also `OtherCount`, then `OtherSum`, then `OtherState`.
pub fn entry<'a>(
    log: &Recorder,
    device: &Device,
    line: &'a [u8],
    room: &'a mut Bytes,
) -> Result<Entry<'a>, Why>
    requires empty { room.old.items ≡ [] }
    ensures { entry_read result ≡ entry_told log.now device.now line.now }
{
    let Some(said) = read::read(line, room) else {
        return Err(Why::SaysNothing);
    };
    match misfit(log, device, &said) {
        Some(why) => Err(why),
        None => Ok(said),
    }
}

fn stray(stray: Stray) -> Why
    ensures { call_made (play_told (Err stray)) ≡ Err (why_seen result) }
{
    match stray {
        Stray::Refused(why) => Why::Refused(why),
        Stray::OtherPlace => Why::OtherPlace,
    }
}

/// Makes the entry of a line again, as [`entry`] gave it there: makes its call, counts the line, which has no LF, and
/// adds it to the sum. Returns the length of the reply, which fills the start of `reply`; 0 for a header or a stated
/// line. Errors: `Refused` with why the call is refused, which leaves all as it was; `OtherPlace` for an opening that
/// gets another place than its line says: the record is then as the opening left it, the reply in the memory, and the
/// three numbers as they were.
#[tactic(auto, using(crate::proofs::Chained::stands_follow))]
pub fn make(
    log: &mut Recorder,
    tested: &mut Tested,
    entry: &Entry<'_>,
    line: &[u8],
    reply: &mut [u8; REPLY_ROOM],
) -> Result<usize, Why>
    requires stands { entry_told log.old tested.old.device line.now ≡ Ok (entry_seen entry.now) }
    ensures told { made_seen result ≡ made_told tested.old.device (entry_seen entry.now) }
    ensures device { tested.new.device ≡ device_made tested.old.device (entry_seen entry.now) }
    ensures reply { reply.new ≡ over (reply_made tested.old.device (entry_seen entry.now)) reply.old }
    ensures log { log.new ≡ log_made log.old tested.old.device (entry_seen entry.now) line.now }
{
    let count = match entry {
        Entry::Call(call) => match play::play(tested, call, reply) {
            Ok(count) => count,
            Err(why) => return Err(stray(why)),
        },
        _ => 0,
    };
    log.read_past(entry, line);
    Ok(count)
}
