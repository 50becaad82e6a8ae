// The call of a line, read.
ghost use Rattle.std.specs.Prelude.{◌≡◌, ◌≤◌, ◌*◌, [], length};
ghost use Rattle.std.specs.Option.{option_map};
ghost use Rattle.std.specs.List.{list_all};
ghost use Rattle.text.specs.Words.{◌from◌to◌};
ghost use Rattle.digest.specs.Hex.{is_hex_digit};
ghost use Rattle.history.specs.Calls.{call_seen, received_most};
ghost use Rattle.history.specs.Entries.{entry_seen, first_word, past_word, sum_in, summed_in, header_of, stated_of};
ghost use Rattle.history.specs.Entries.{header_in, stated_in, entry_in};
ghost use Rattle.history.specs.Reads.{rest_seen, summed_seen};
ghost use Rattle.history.specs.Lines.{is_shortest, decimal_in, opening_in, command_in, hex_bytes, hex_in, passing_in};
ghost use Rattle.history.specs.Lines.{errors_in};
ghost use Rattle.history.specs.Lines.{call_at, call_alone, placed_in, fault_in, lamp_in, kind_in, call_in};

use crate::call::{RECEIVED_MOST, RecordedCall};
use crate::entry::{self, Entry, Header, SHOWN_MOST, Stated};
use crate::put;
use arrayvec::ArrayVec;
use words::codec;
use words::errors::ErrorStatus;
use words::lamp::LAMPS_MOST;

/// Room for the bytes that a line says were received.
pub type Bytes = ArrayVec<u8, RECEIVED_MOST>;

const NUMBER_MOST: u64 = 4294967295;

// Lamps are numbered from 1.
const LAST_LAMP: u8 = b'0' + LAMPS_MOST as u8;

fn is_hex_digit(b: u8) -> bool
    ensures { result ≡ is_hex_digit b }
{
    (b'0' <= b && b <= b'9') || (b'a' <= b && b <= b'f')
}

fn are_hex_digits(s: &[u8]) -> bool
    ensures { result ≡ list_all is_hex_digit s.now }
{
    s.iter().all(|b| is_hex_digit(*b))
}

fn is_shortest(s: &[u8]) -> bool
    requires { 1 ≤ length s.now }
    ensures { result ≡ is_shortest s.now }
{
    s.len() == 1 || s[0] != b'0'
}

// One to ten decimal digits with no zero before them, of a number that a u32 can hold.
#[tactic(auto, unfolding(crate::specs::Lines::decimal_in))]
fn decimal_in(s: &[u8]) -> Option<u32>
    ensures { result ≡ decimal_in s.now }
{
    if s.len() < 1 || 10 < s.len() {
        return None;
    }
    if !is_shortest(s) {
        return None;
    }
    match numbers::read_digits(s) {
        Some(v) if v <= NUMBER_MOST => Some(v as u32),
        _ => None,
    }
}

#[tactic(auto, unfolding(crate::specs::Lines::opening_in))]
fn opening_in(place: u8, s: &[u8]) -> Option<RecordedCall<'_>>
    ensures { option_map call_seen result ≡ opening_in place s.now }
{
    if s.len() == 8 && are_hex_digits(s) {
        return Some(RecordedCall::Opens(place, digest::hex_value(s)));
    }
    None
}

#[tactic(auto, unfolding(crate::specs::Lines::command_in))]
fn command_in<'a>(place: u8, s: &[u8], room: &'a mut Bytes) -> Option<RecordedCall<'a>>
    requires { room.old.items ≡ [] }
    ensures { option_map call_seen result ≡ command_in place s.now }
{
    if s.len() < RECEIVED_MOST && put::is_plain(s) {
        room.try_extend_from_slice(s).unwrap();
        room.push(b'\r');
        return Some(RecordedCall::Receives(place, room.as_slice()));
    }
    None
}

// Two digits a byte.
#[tactic(auto, unfolding(crate::specs::Lines::hex_bytes), using(crate::proofs::Fits::hex_value_byte))]
fn put_bytes(s: &[u8], room: &mut Bytes)
    requires empty { room.old.items ≡ [] }
    requires fits { length s.now ≤ 2 * received_most }
    ensures { room.new.items ≡ hex_bytes s.now }
{
    let mut rest = s;
    for _k in 0..RECEIVED_MOST {
        let [a, b, more @ ..] = rest else {
            return;
        };
        room.push(digest::hex_value(&[*a, *b]) as u8);
        rest = more;
    }
}

#[tactic(auto, unfolding(crate::specs::Lines::hex_in))]
fn hex_in<'a>(place: u8, s: &[u8], room: &'a mut Bytes) -> Option<RecordedCall<'a>>
    requires { room.old.items ≡ [] }
    ensures { option_map call_seen result ≡ hex_in place s.now }
{
    if 2 <= s.len() && s.len() <= 2 * RECEIVED_MOST && s.len() % 2 == 0 && are_hex_digits(s) {
        put_bytes(s, room);
        if !put::is_command_line(room.as_slice()) {
            return Some(RecordedCall::Receives(place, room.as_slice()));
        }
    }
    None
}

#[tactic(auto, unfolding(crate::specs::Lines::passing_in))]
fn passing_in(s: &[u8]) -> Option<RecordedCall<'_>>
    ensures { option_map call_seen result ≡ passing_in s.now }
{
    match decimal_in(s) {
        Some(seconds) => Some(RecordedCall::Passes(seconds)),
        None => None,
    }
}

#[tactic(auto, unfolding(crate::specs::Lines::errors_in))]
fn errors_in(s: &[u8]) -> Option<RecordedCall<'_>>
    ensures { option_map call_seen result ≡ errors_in s.now }
{
    match codec::parse::<ErrorStatus>(s) {
        Some(status) => Some(RecordedCall::Errors(status)),
        None => None,
    }
}

fn is_place(b: u8) -> bool
    ensures { result ≡ (b from "0" to "3") }
{
    b'0' <= b && b <= b'3'
}

fn is_lamp(b: u8) -> bool
    ensures { result ≡ (b from "1" to "8") }
{
    b'1' <= b && b <= LAST_LAMP
}

fn is_switch(b: u8) -> bool
    ensures { result ≡ (b from "0" to "1") }
{
    b'0' <= b && b <= b'1'
}

#[tactic(auto, unfolding(crate::specs::Lines::call_at))]
fn call_at<'a>(letter: u8, place: u8, s: &'a [u8], room: &'a mut Bytes) -> Option<RecordedCall<'a>>
    requires { room.old.items ≡ [] }
    ensures { option_map call_seen result ≡ call_at letter place s.now }
{
    match letter {
        b'O' => opening_in(place, s),
        b'R' => command_in(place, s, room),
        b'B' => hex_in(place, s, room),
        _ => None,
    }
}

#[tactic(auto, unfolding(crate::specs::Lines::call_alone))]
fn call_alone<'a>(letter: u8, place: u8) -> Option<RecordedCall<'a>>
    ensures { option_map call_seen result ≡ call_alone letter place }
{
    match letter {
        b'X' => Some(RecordedCall::Closes(place)),
        b'B' => Some(RecordedCall::Receives(place, &[])),
        _ => None,
    }
}

#[tactic(auto, unfolding(crate::specs::Lines::placed_in))]
fn placed_in<'a>(letter: u8, s: &'a [u8], room: &'a mut Bytes) -> Option<RecordedCall<'a>>
    requires { room.old.items ≡ [] }
    ensures { option_map call_seen result ≡ placed_in letter s.now }
{
    match s {
        [place] if is_place(*place) => call_alone(letter, *place - b'0'),
        [place, b' ', s @ ..] if is_place(*place) => call_at(letter, *place - b'0', s, room),
        _ => None,
    }
}

#[tactic(auto, unfolding(crate::specs::Lines::fault_in))]
fn fault_in(s: &[u8]) -> Option<RecordedCall<'_>>
    ensures { option_map call_seen result ≡ fault_in s.now }
{
    match s {
        [mark] if is_switch(*mark) => Some(RecordedCall::Fault(*mark == b'1')),
        _ => None,
    }
}

#[tactic(auto, unfolding(crate::specs::Lines::lamp_in))]
fn lamp_in(s: &[u8]) -> Option<RecordedCall<'_>>
    ensures { option_map call_seen result ≡ lamp_in s.now }
{
    match s {
        [lamp, b' ', mark] if is_lamp(*lamp) && is_switch(*mark) => Some(RecordedCall::Mark(
            *lamp - b'1',
            *mark == b'1',
        )),
        _ => None,
    }
}

#[tactic(auto, unfolding(crate::specs::Lines::kind_in))]
fn kind_in<'a>(letter: u8, s: &'a [u8], room: &'a mut Bytes) -> Option<RecordedCall<'a>>
    requires { room.old.items ≡ [] }
    ensures { option_map call_seen result ≡ kind_in letter s.now }
{
    match letter {
        b'T' => passing_in(s),
        b'F' => fault_in(s),
        b'E' => errors_in(s),
        b'M' => lamp_in(s),
        _ => placed_in(letter, s, room),
    }
}

// The call of a line. The bytes that it says were received lie in the room.
#[tactic(auto, unfolding(crate::specs::Lines::call_in))]
fn call_in<'a>(line: &'a [u8], room: &'a mut Bytes) -> Option<RecordedCall<'a>>
    requires { room.old.items ≡ [] }
    ensures { option_map call_seen result ≡ call_in line.now }
{
    match line {
        [letter, b' ', s @ ..] => kind_in(*letter, s, room),
        _ => None,
    }
}

// Eight hexadecimal digits, and what follows them.
#[tactic(auto, unfolding(crate::specs::Entries::sum_in))]
fn sum_in(s: &[u8]) -> Option<(u32, &[u8])>
    ensures { option_map rest_seen result ≡ sum_in s.now }
{
    if s.len() < 8 || !are_hex_digits(&s[..8]) {
        return None;
    }
    Some((digest::hex_value(&s[..8]), &s[8..]))
}

fn first_word(s: &[u8]) -> &[u8]
    ensures { result.now ≡ first_word s.now }
{
    &s[..text::find(s, b' ')]
}

fn past_word(s: &[u8]) -> &[u8]
    ensures { result.now ≡ past_word s.now }
{
    let space = text::find(s, b' ');
    if space == s.len() {
        return &[];
    }
    &s[space + 1..]
}

// A number, a space, a sum, and what follows it.
#[derive(Clone, Copy)]
struct Summed<'a> {
    number: u32,
    sum: u32,
    rest: &'a [u8],
}

#[tactic(auto, unfolding(crate::specs::Entries::summed_in))]
fn summed_in(s: &[u8]) -> Option<Summed<'_>>
    ensures { option_map summed_seen result ≡ summed_in s.now }
{
    let number = decimal_in(first_word(s))?;
    let (sum, rest) = sum_in(past_word(s))?;
    Some(Summed { number, sum, rest })
}

#[tactic(auto, unfolding(crate::specs::Entries::header_of))]
fn header_of<'a>(file: u32, sum: u32, s: &'a [u8]) -> Option<Entry<'a>>
    ensures { option_map entry_seen result ≡ header_of file sum s.now }
{
    if file < 1 {
        return None;
    }
    match s {
        [] => Some(Entry::Header(Header {
            file,
            sum,
            time: None,
        })),
        [b' ', t @ ..] if entry::is_time(t) => Some(Entry::Header(Header {
            file,
            sum,
            time: Some(t),
        })),
        _ => None,
    }
}

#[tactic(auto, unfolding(crate::specs::Entries::stated_of))]
fn stated_of<'a>(lines: u32, sum: u32, s: &'a [u8]) -> Option<Entry<'a>>
    ensures { option_map entry_seen result ≡ stated_of lines sum s.now }
{
    match s {
        [b' ', shown @ ..] if put::is_plain(shown) && shown.len() <= SHOWN_MOST => {
            Some(Entry::Stated(Stated { lines, sum, shown }))
        }
        _ => None,
    }
}

#[tactic(auto, unfolding(crate::specs::Entries::header_in))]
fn header_in(s: &[u8]) -> Option<Entry<'_>>
    ensures { option_map entry_seen result ≡ header_in s.now }
{
    match s {
        [b'O', b'G', b' ', b'2', b' ', s @ ..] => {
            let read = summed_in(s)?;
            header_of(read.number, read.sum, read.rest)
        }
        _ => None,
    }
}

#[tactic(auto, unfolding(crate::specs::Entries::stated_in))]
fn stated_in(s: &[u8]) -> Option<Entry<'_>>
    ensures { option_map entry_seen result ≡ stated_in s.now }
{
    match s {
        [b' ', s @ ..] => {
            let read = summed_in(s)?;
            stated_of(read.number, read.sum, read.rest)
        }
        _ => None,
    }
}

/// Reads what a line, without its LF, says, if it says anything. The bytes that it says were received go into `room`,
/// which must be empty.
#[tactic(auto, unfolding(crate::specs::Entries::entry_in))]
pub fn read<'a>(line: &'a [u8], room: &'a mut Bytes) -> Option<Entry<'a>>
    requires { room.old.items ≡ [] }
    ensures { option_map entry_seen result ≡ entry_in line.now }
{
    match line {
        [b'L', s @ ..] => header_in(s),
        [b'S', s @ ..] => stated_in(s),
        [_, ..] => match call_in(line, room) {
            Some(call) => Some(Entry::Call(call)),
            None => None,
        },
        [] => None,
    }
}
