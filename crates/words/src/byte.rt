// Single bytes of a line (PJLink 1.04, 2.1).
ghost use Rattle.std.specs.Prelude.{◌≡◌};
ghost use Rattle.words.specs.Bytes.{is_alnum, upper_of, is_cr_free};
ghost use Rattle.words.specs.Texts.{is_text_byte};

/// Returns whether the byte is an ASCII letter or digit. Each test is made, so that a scan takes sixteen bytes at once.
pub fn is_alnum(byte: u8) -> bool
    ensures { result ≡ is_alnum byte }
{
    ((b'0' <= byte) & (byte <= b'9'))
        | ((b'A' <= byte) & (byte <= b'Z'))
        | ((b'a' <= byte) & (byte <= b'z'))
}

/// Returns whether the byte may be in a text (RULES, Texts): any byte but those below the space.
pub fn is_text_byte(byte: u8) -> bool
    ensures { result ≡ is_text_byte byte }
{
    0x20 <= byte
}

/// Returns the upper case of a letter; any other byte as it is.
pub fn upper(byte: u8) -> u8
    ensures { result ≡ upper_of byte }
{
    if byte < b'a' {
        return byte;
    }
    if b'z' < byte {
        return byte;
    }
    byte - (b'a' - b'A')
}

/// Returns whether no byte of `bytes` is CR. The loop does not leave early, so that the compiler takes sixteen bytes at
/// once.
#[tactic(auto, unfolding(crate::specs::Bytes::is_cr_free))]
pub fn is_cr_free(bytes: &[u8]) -> bool
    ensures { result ≡ is_cr_free bytes.now }
{
    let mut ok = true;
    for &b in bytes {
        ok = ok & (b != b'\r');
    }
    ok
}
