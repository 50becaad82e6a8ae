// Texts and passwords (RULES, The legal record).
ghost use Rattle.std.specs.Prelude.{◌≡◌};
ghost use Rattle.std.specs.List.{list_all};
ghost use Rattle.std.specs.Str.{is_utf8};
ghost use Rattle.text.specs.Words.{◌from◌to◌};
ghost use Rattle.words.specs.Bytes.{is_alnum};
ghost use Rattle.words.specs.Texts.{is_error_reply, is_text_byte, is_text, is_name, is_info, is_input_name};
ghost use Rattle.words.specs.Texts.{is_password};

use crate::byte;

/// How many bytes the projector's name has at most.
pub const NAME_MOST: usize = 64;

/// How many bytes maker, model, other information, serial number and version have at most.
pub const INFO_MOST: usize = 32;

/// How many bytes an input's name has at most (RULES, Class 2).
pub const INPUT_NAME_MOST: usize = 128;

/// How many characters a password has at most.
pub const PASSWORD_MOST: usize = 32;

fn is_refusal_digit(b: u8) -> bool
    ensures { result ≡ (b from "1" to "4") }
{
    b'1' <= b && b <= b'4'
}

/// Returns whether `bytes` is exactly ERR1, ERR2, ERR3 or ERR4.
#[tactic(auto, unfolding(crate::specs::Texts::is_error_reply))]
pub fn is_error_reply(bytes: &[u8]) -> bool
    ensures { result ≡ is_error_reply bytes.now }
{
    matches!(bytes, [b'E', b'R', b'R', digit] if is_refusal_digit(*digit))
}

// Returns whether each byte is 0x20 to 0xFF. No turn leaves early, so that sixteen bytes go at once.
fn are_text_bytes(s: &[u8]) -> bool
    ensures { result ≡ list_all is_text_byte s.now }
{
    let mut ok = true;
    for &b in s {
        ok = ok & byte::is_text_byte(b);
    }
    ok
}

/// Returns whether `bytes` is a text: 0 to `most` bytes, each 0x20 to 0xFF, and no error reply.
#[tactic(auto, unfolding(crate::specs::Texts::is_text))]
pub fn is_text(bytes: &[u8], most: usize) -> bool
    ensures { result ≡ is_text most bytes.now }
{
    bytes.len() <= most && are_text_bytes(bytes) && !is_error_reply(bytes)
}

/// Returns whether `bytes` is well-formed UTF-8, by the table of RFC 3629 (`theorems::bytes_and_numbers_agree`).
pub fn is_utf8(bytes: &[u8]) -> bool
    ensures { result ≡ is_utf8 bytes.now }
{
    str::from_utf8(bytes).is_ok()
}

/// Returns whether `bytes` can be the projector's name, for set-up, legality and reader alike (RULES, Texts).
pub fn is_name(bytes: &[u8]) -> bool
    ensures { result ≡ is_name bytes.now }
{
    is_text(bytes, NAME_MOST) && is_utf8(bytes)
}

/// Returns whether `bytes` can be maker, model, other information, serial number or version.
pub fn is_info(bytes: &[u8]) -> bool
    ensures { result ≡ is_info bytes.now }
{
    is_text(bytes, INFO_MOST)
}

/// Returns whether `bytes` can be an input's name (RULES, Class 2).
pub fn is_input_name(bytes: &[u8]) -> bool
    ensures { result ≡ is_input_name bytes.now }
{
    is_text(bytes, INPUT_NAME_MOST)
}

// Returns whether each byte is a letter or digit. No turn leaves early, so that sixteen bytes go at once.
fn are_alnum(s: &[u8]) -> bool
    ensures { result ≡ list_all is_alnum s.now }
{
    let mut ok = true;
    for &b in s {
        ok = ok & byte::is_alnum(b);
    }
    ok
}

/// Returns whether `bytes` is 0 to 32 ASCII letters and digits.
#[tactic(auto, unfolding(crate::specs::Texts::is_password))]
pub fn is_password(bytes: &[u8]) -> bool
    ensures { result ≡ is_password bytes.now }
{
    bytes.len() <= PASSWORD_MOST && are_alnum(bytes)
}
