// What a line of a log says (RULES, Floor log).
ghost use Rattle.std.specs.List.{list_all};
ghost use Rattle.std.specs.Prelude.{ℕ, List, ◌≡◌, ◌++◌, codes, length, nat_le};
ghost use Rattle.digest.specs.Hex.{is_hex_digit};
ghost use Rattle.floorlog.specs.Events.{event_said, log_line_most, random_said, seconds_said, event};

use crate::event::Event;

/// How many bytes a line has at most, without its LF.
pub const LOG_LINE_MOST: usize = 4096;

const SECONDS_MOST: u64 = 4294967295;

fn is_hex_digit(b: u8) -> bool
    ensures { result ≡ is_hex_digit b }
{
    (b'0' <= b && b <= b'9') || (b'a' <= b && b <= b'f')
}

fn are_hex_digits(s: &[u8]) -> bool
    ensures { result ≡ list_all is_hex_digit s.now }
{
    s.iter().all(|b| is_hex_digit(*b))
}

// Reads eight lowercase hexadecimal digits.
#[tactic(auto, unfolding(crate::specs::Events::random_said))]
fn random_said(s: &[u8]) -> Event<'_>
    ensures { event_said result ≡ random_said s.now }
{
    if s.len() == 8 && are_hex_digits(s) {
        return Event::Opens(digest::hex_value(s));
    }
    Event::NoSuch
}

// Reads one to ten decimal digits of a number that a u32 can hold.
#[tactic(auto, unfolding(crate::specs::Events::seconds_said))]
fn seconds_said(s: &[u8]) -> Event<'_>
    ensures { event_said result ≡ seconds_said s.now }
{
    if s.len() < 1 || 10 < s.len() {
        return Event::NoSuch;
    }
    match numbers::read_digits(s) {
        Some(v) if v <= SECONDS_MOST => Event::Passes(v as u32),
        _ => Event::NoSuch,
    }
}

// Returns whether it has no more bytes than a line can have.
fn is_short(l: &[u8]) -> bool
    ensures { result ≡ nat_le (length l.now) log_line_most }
{
    l.len() <= LOG_LINE_MOST
}

/// Returns the event of a line. `line` is the line without its LF, followed by a CR, with which a text is received.
#[tactic(auto, unfolding(crate::specs::Events::event, crate::specs::Events::form_said))]
pub fn read(line: &[u8]) -> Event<'_>
    ensures { (l : List ℕ) → line.now ≡ l ++ codes "\r" → event_said result ≡ event l }
{
    let [l @ .., _] = line else {
        return Event::NoSuch;
    };
    if !is_short(l) || !words::byte::is_cr_free(l) {
        return Event::NoSuch;
    }
    match line {
        [b'X', _] => Event::Closes,
        [b'O', b' ', s @ .., _] => random_said(s),
        [b'R', b' ', bytes @ ..] => Event::Receives(bytes),
        [b'T', b' ', s @ .., _] => seconds_said(s),
        _ => Event::NoSuch,
    }
}
