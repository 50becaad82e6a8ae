// The line of a call, put after what a writer has written.
ghost use Rattle.std.specs.Prelude.{◌≡◌, codes, ◌+◌, ◌*◌, ◌<◌, ◌^◌, ◌≤◌, ◌++◌, true, length};
ghost use Rattle.std.proofs.lemmas.List.Edits.{sets};
ghost use Rattle.lent.specs.Puts.{Puts};
ghost use Rattle.numbers.specs.Decimal.{digits};
ghost use Rattle.words.specs.ErrorDigits.{errors_text};
ghost use Rattle.history.specs.Calls.{call_seen, is_sayable, is_place_number, received_most};
ghost use Rattle.history.specs.Lines.{is_plain, is_command_line, hex_text, place_head, bytes_text};
ghost use Rattle.history.specs.Lines.{switch_figure, call_text};
ghost use Rattle.history.specs.Recording.{log_line_room};
ghost use Rattle.history.specs.Entries.{summed_text, time_text, time_seen, entry_seen, entry_text, is_sayable_entry};

use crate::call::RecordedCall;
use crate::entry::Entry;
use crate::{figures, plain};
use lent::MemoryWriter;
use words::errors::ErrorStatus;
use words::input;

/// Whether a line can end with these bytes: printable, at least one, and the last of them no space.
#[tactic(auto, unfolding(crate::specs::Lines::is_plain))]
#[inline(always)]
pub fn is_plain(bytes: &[u8]) -> bool
    ensures { result ≡ is_plain bytes.now }
{
    let n = bytes.len();
    if n < 1 || bytes[n - 1] == b' ' {
        return false;
    }
    plain::are_printable(bytes)
}

/// Whether the bytes are one line of a controller, which is written as text.
#[tactic(auto, unfolding(crate::specs::Lines::is_command_line))]
#[inline(always)]
pub fn is_command_line(bytes: &[u8]) -> bool
    ensures { result ≡ is_command_line bytes.now }
{
    let n = bytes.len();
    if n < 1 || bytes[n - 1] != b'\r' {
        return false;
    }
    is_plain(&bytes[..n - 1])
}

// Two digits a byte, with one test of the room for all.
#[inline(always)]
fn put_hex(out: &mut [u8], at: usize, s: &[u8])
    requires { at + 2 * length s.now ≤ length out.old }
    ensures { out.new ≡ sets out.old at (hex_text s.now) }
{
    for i in 0..s.len() {
        text::put(out, at + 2 * i, &digest::hex2(s[i]));
    }
}

#[inline(always)]
fn hex(w: &mut MemoryWriter<'_>, s: &[u8])
    requires { w.old.at + 2 * length s.now ≤ length w.old.out.now }
    ensures { Puts w.old w.new (hex_text s.now) }
{
    put_hex(w.out, w.at, s);
    w.at += 2 * s.len();
}

#[inline(always)]
fn errors(w: &mut MemoryWriter<'_>, status: &ErrorStatus)
    requires short { w.old.at ≤ 4 }
    ensures { Puts w.old w.new (errors_text status.now.digits) }
{
    let [fan, lamp, temperature, cover, filter, other] = status.digits;
    w.bytes(&[
        input::number_digit(fan),
        input::number_digit(lamp),
        input::number_digit(temperature),
        input::number_digit(cover),
        input::number_digit(filter),
        input::number_digit(other),
    ]);
}

// All digits. Inlined, since the compiler knows where it writes at its callers.
#[inline(always)]
fn number(w: &mut MemoryWriter<'_>, n: u32)
    requires short { w.old.at ≤ 100 }
    ensures { Puts w.old w.new (digits n) }
{
    let [a, b, c, d, e, f, g, h, i, j] = figures::ten(n);
    if 1_000_000_000 <= n {
        w.bytes(&[a, b, c, d, e, f, g, h, i, j]);
    } else if 100_000_000 <= n {
        w.bytes(&[b, c, d, e, f, g, h, i, j]);
    } else if 10_000_000 <= n {
        w.bytes(&[c, d, e, f, g, h, i, j]);
    } else if 1_000_000 <= n {
        w.bytes(&[d, e, f, g, h, i, j]);
    } else if 100_000 <= n {
        w.bytes(&[e, f, g, h, i, j]);
    } else if 10_000 <= n {
        w.bytes(&[f, g, h, i, j]);
    } else if 1_000 <= n {
        w.bytes(&[g, h, i, j]);
    } else if 100 <= n {
        w.bytes(&[h, i, j]);
    } else if 10 <= n {
        w.bytes(&[i, j]);
    } else {
        w.byte(j);
    }
}

fn switch_figure(mark: bool) -> u8
    ensures { result ≡ switch_figure mark }
{
    if mark { b'1' } else { b'0' }
}

// A letter and the number of a place or a lamp.
#[inline(always)]
fn head(w: &mut MemoryWriter<'_>, letter: u8, place: u8)
    requires first { w.old.at ≡ 0 }
    requires room { log_line_room ≤ length w.old.out.now }
    requires few { place ≤ 9 }
    ensures { Puts w.old w.new (place_head letter place) }
{
    w.fitting(&[letter, b' ', b'0' + place]);
}

// The same, and something behind it.
#[inline(always)]
fn placed(w: &mut MemoryWriter<'_>, letter: u8, place: u8)
    requires first { w.old.at ≡ 0 }
    requires room { log_line_room ≤ length w.old.out.now }
    requires few { place ≤ 9 }
    ensures { Puts w.old w.new (place_head letter place ++ codes " ") }
{
    w.fitting(&[letter, b' ', b'0' + place, b' ']);
}

#[tactic(auto, unfolding(crate::specs::Lines::bytes_text), using(crate::proofs::Writing::steps))]
#[inline(always)]
fn bytes(w: &mut MemoryWriter<'_>, place: u8, bytes: &[u8])
    requires first { w.old.at ≡ 0 }
    requires there { is_place_number place ≡ true }
    requires fits { length bytes.now ≤ received_most }
    requires room { log_line_room ≤ length w.old.out.now }
    ensures { Puts w.old w.new (bytes_text place bytes.now) }
{
    if is_command_line(bytes) {
        placed(w, b'R', place);
        w.fitting(&bytes[..bytes.len() - 1]);
        return;
    }
    if bytes.is_empty() {
        head(w, b'B', place);
        return;
    }
    placed(w, b'B', place);
    hex(w, bytes);
}

/// Writes the line of a call, without its LF.
#[tactic(auto, unfolding(crate::specs::Lines::call_text), using(crate::proofs::Writing::steps))]
#[inline(always)]
pub fn call(writer: &mut MemoryWriter<'_>, call: &RecordedCall<'_>)
    requires first { writer.old.at ≡ 0 }
    requires sayable { is_sayable (call_seen call.now) ≡ true }
    requires room { log_line_room ≤ length writer.old.out.now }
    ensures { Puts writer.old writer.new (call_text (call_seen call.now)) }
{
    match call {
        RecordedCall::Opens(place, random) => {
            placed(writer, b'O', *place);
            writer.bytes(&digest::hex8(*random));
        }
        RecordedCall::Receives(place, received) => bytes(writer, *place, received),
        RecordedCall::Passes(seconds) => {
            writer.bytes(b"T ");
            number(writer, *seconds);
        }
        RecordedCall::Closes(place) => head(writer, b'X', *place),
        RecordedCall::Fault(mark) => writer.bytes(&[b'F', b' ', switch_figure(*mark)]),
        RecordedCall::Errors(status) => {
            writer.bytes(b"E ");
            errors(writer, status);
        }
        RecordedCall::Mark(lamp, mark) => {
            placed(writer, b'M', *lamp + 1);
            writer.byte(switch_figure(*mark));
        }
    }
}

// A number, a space, a sum.
#[tactic(auto, using(crate::proofs::Writing::steps))]
fn summed(w: &mut MemoryWriter<'_>, n: u32, sum: u32)
    requires short { w.old.at ≤ 6 }
    ensures written { Puts w.old w.new (summed_text n sum) }
    ensures bound { w.new.at ≤ w.old.at + 19 }
{
    number(w, n);
    w.byte(b' ');
    w.bytes(&digest::hex8(sum));
}

// A space and the last part of a line.
#[tactic(auto, using(crate::proofs::Writing::steps))]
fn ending(w: &mut MemoryWriter<'_>, s: &[u8])
    requires { w.old.at + 1 + length s.now < 2 ^ 64 }
    ensures { Puts w.old w.new (codes " " ++ s.now) }
{
    w.byte(b' ');
    w.bytes(s);
}

fn time(w: &mut MemoryWriter<'_>, time: Option<&[u8]>)
    requires { w.old.at ≤ 25 }
    ensures { Puts w.old w.new (time_text (time_seen time.entry)) }
{
    if let Some(t) = time {
        ending(w, t);
    }
}

/// Writes the line of an entry, without its LF.
#[tactic(auto, unfolding(crate::specs::Entries::entry_text), using(crate::proofs::Writing::steps))]
#[inline(always)]
pub fn entry(writer: &mut MemoryWriter<'_>, entry: &Entry<'_>)
    requires first { writer.old.at ≡ 0 }
    requires sayable { is_sayable_entry (entry_seen entry.now) ≡ true }
    requires room { log_line_room ≤ length writer.old.out.now }
    ensures { Puts writer.old writer.new (entry_text (entry_seen entry.now)) }
{
    match entry {
        Entry::Header(header) => {
            writer.bytes(b"LOG 2 ");
            summed(writer, header.file, header.sum);
            time(writer, header.time);
        }
        Entry::Call(made) => call(writer, made),
        Entry::Stated(stated) => {
            writer.bytes(b"S ");
            summed(writer, stated.lines, stated.sum);
            ending(writer, stated.shown);
        }
    }
}
