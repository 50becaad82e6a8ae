// What set-up keeps of the slices that it is given: each at the start of a room, whose other bytes are zero (RULES, The
// legal record).
ghost use Rattle.std.specs.Prelude.{◌≡◌, ◌≤◌, length, replicate, true};
ghost use Rattle.words.specs.Texts.{input_name_most};
ghost use Rattle.record.specs.Limits.{text_room, input_room, listed_most, lamps_most};
ghost use Rattle.record.specs.Wanted.{names_in, counted_in};
ghost use Rattle.record.specs.Rules.{are_names};
ghost use Rattle.record.specs.Record.{in_room, text_of, name_of, blank_name, names_kept, all_marks, start_own};
ghost use Rattle.setup.specs.Lent.{names_lent};

use crate::wanted::Names;
use record::names;
use record::own::VOLUME_START;
use record::types::{INPUT_ROOM, InputName, Own, Text};
use text::rooms;
use words::input::INPUTS_MOST;
use words::lamp::LAMPS_MOST;

/// Returns a text of at most 64 bytes in its room.
#[tactic(auto, using(record::proofs::Kept::kept_in_room))]
pub fn text_of(bytes: &[u8]) -> Text
    requires { length bytes.now ≤ text_room }
    ensures { result ≡ text_of bytes.now }
{
    Text {
        len: bytes.len(),
        bytes: rooms::kept(bytes, 0),
    }
}

/// Returns an input's name of at most 128 bytes in its room (RULES, Class 2).
#[tactic(auto, using(record::proofs::Kept::kept_in_room))]
pub fn name_of(bytes: &[u8]) -> InputName
    requires { length bytes.now ≤ input_name_most }
    ensures { result ≡ name_of bytes.now }
{
    InputName {
        len: bytes.len(),
        bytes: rooms::kept(bytes, 0),
    }
}

/// Puts this many names into the record's list, whichever form they have (RULES, Class 2).
#[tactic(auto, using(record::proofs::CountedNames::as_many_counted))]
pub fn keep_names(list: &mut [InputName; INPUTS_MOST], lent: &Names<'_>, count: usize)
    requires named { are_names count (names_lent lent.now) ≡ true }
    requires few { count ≤ listed_most }
    ensures { list.new ≡ names_kept (names_lent lent.now) }
{
    list.fill(InputName::EMPTY);
    match *lent {
        Names::Packed { bytes, lengths } => keep_packed(list, bytes, lengths, count),
        Names::Counted(names) => keep_counted(list, names.bytes, names.count),
    }
}

// Puts this many names, each after its length in one byte, into the list.
fn keep_counted(list: &mut [InputName; INPUTS_MOST], bytes: &[u8], count: usize)
    requires empty { list.old ≡ replicate listed_most blank_name }
    requires named { are_names count (counted_in count bytes.now) ≡ true }
    requires few { count ≤ listed_most }
    ensures { list.new ≡ names_kept (counted_in count bytes.now) }
{
    let mut left = bytes;
    for i in 0..count {
        let (name, rest) = names::first_counted(left);
        list[i] = name_of(name);
        left = rest;
    }
}

// Puts this many names into the list. They follow one another in `bytes`; `lengths` has the length of each.
fn keep_packed(list: &mut [InputName; INPUTS_MOST], bytes: &[u8], lengths: &[usize], count: usize)
    requires empty { list.old ≡ replicate listed_most blank_name }
    requires named { are_names count (names_in lengths.now bytes.now) ≡ true }
    requires few { count ≤ listed_most }
    ensures { list.new ≡ names_kept (names_in lengths.now bytes.now) }
{
    let mut at = 0;
    for i in 0..count {
        let end = at + lengths[i];
        list[i] = name_of(&bytes[at..end]);
        at = end;
    }
}

/// Returns a list of at most 32 inputs, two characters each, in its room (RULES, Inputs).
#[tactic(auto, using(record::proofs::Kept::kept_in_room))]
pub fn input_room(bytes: &[u8]) -> [u8; INPUT_ROOM]
    requires { length bytes.now ≤ input_room }
    ensures { result ≡ in_room input_room bytes.now }
{
    rooms::kept(bytes, 0)
}

/// Returns the starting seconds of at most 8 lamps in their room (RULES, Lamps).
#[tactic(auto, using(record::proofs::Kept::kept_in_room))]
pub fn lamp_room(seconds: &[u32]) -> [u32; LAMPS_MOST]
    requires { length seconds.now ≤ lamps_most }
    ensures { result ≡ in_room lamps_most seconds.now }
{
    rooms::kept(seconds, 0)
}

/// Returns the marks of this many lamps, each set (RULES, Lamps).
#[tactic(auto, using(record::proofs::MarksTold::marks_kept))]
pub fn mark_room(count: usize) -> [u8; LAMPS_MOST]
    requires { count ≤ lamps_most }
    ensures { result ≡ all_marks count }
{
    rooms::kept(&[1; LAMPS_MOST][..count], 0)
}

/// Returns the own part of a fresh set-up: off, both mutes off, the first input, no fault, error status 000000, the
/// lamps' starting seconds, each lamp enabled, and both volumes half way.
pub fn start_own(lamps: &[u32]) -> Own
    requires { length lamps.now ≤ lamps_most }
    ensures { result ≡ start_own lamps.now }
{
    Own {
        lamps: lamp_room(lamps),
        enabled: mark_room(lamps.len()),
        speaker: VOLUME_START,
        microphone: VOLUME_START,
        ..Own::BLANK
    }
}
