// The mutes of video and audio (RULES, Commands; PJLink 1.04, 4.6).
ghost use Rattle.std.specs.Prelude.{◌≡◌, true};
ghost use Rattle.words.specs.Codec.{Plain};
ghost use Rattle.words.specs.Muting.{mutes_text, mutes_read};
ghost use Rattle.words.specs.Laws.{mutes_codec};

use crate::codec::{self, LineBytes, Wire};

/// What is muted.
#[derive(Clone, Copy)]
pub struct Mutes {
    /// Whether the picture is muted.
    pub video: bool,
    /// Whether the sound is muted.
    pub audio: bool,
}

fn mutes_text(m: Mutes) -> [u8; 2]
    ensures { result ≡ mutes_text m }
{
    match (m.video, m.audio) {
        (true, false) => *b"11",
        (false, true) => *b"21",
        (true, true) => *b"31",
        (false, false) => *b"30",
    }
}

impl Wire for Mutes {
    ghost legal = { λ _. true };

    ghost text = { mutes_text };

    ghost writes = { Plain (λ _. true) mutes_text };

    ghost read = { mutes_read };

    fn put(self, out: &mut LineBytes) {
        codec::put_all(&mutes_text(self), out);
    }

    fn take(bytes: &[u8]) -> Option<(Mutes, &[u8])> {
        let (video, audio, rest) = match bytes {
            [b'1', b'1', rest @ ..] => (true, false, rest),
            [b'2', b'1', rest @ ..] => (false, true, rest),
            [b'3', b'1', rest @ ..] => (true, true, rest),
            [b'3', b'0', rest @ ..] => (false, false, rest),
            _ => return None,
        };
        Some((Mutes { video, audio }, rest))
    }

    ghost codec = { mutes_codec };
}
