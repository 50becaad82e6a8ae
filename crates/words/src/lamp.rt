// A lamp: its hours, a space, and whether it is lit (RULES, Commands; PJLink 1.04, 4.8).
ghost use Rattle.words.specs.Lamps.{lamp_text, is_lamp_hours, WritesLampHours, lamp_read};
ghost use Rattle.words.specs.Laws.{lamp_codec};

use crate::codec::{LineBytes, Wire};

/// How many lamps a projector has at most (RULES, Lamps).
pub const LAMPS_MOST: usize = 8;

/// What a projector answers for one lamp.
#[derive(Clone, Copy, Default)]
pub struct LampHours {
    /// Whole hours for which the lamp has been lit, 0 to 99999.
    pub hours: u32,
    /// Whether the lamp is lit.
    pub lit: bool,
}

impl Wire for LampHours {
    ghost legal = { is_lamp_hours };

    ghost text = { lamp_text };

    ghost writes = { WritesLampHours };

    ghost read = { lamp_read };

    fn put(self, out: &mut LineBytes) {
        self.hours.put(out);
        out.push(b' ');
        self.lit.put(out);
    }

    fn take(bytes: &[u8]) -> Option<(LampHours, &[u8])> {
        let (hours, rest) = u32::take(bytes)?;
        let [b' ', rest @ ..] = rest else {
            return None;
        };
        let (lit, rest) = bool::take(rest)?;
        Some((LampHours { hours, lit }, rest))
    }

    ghost codec = { lamp_codec };
}
