// The power, and the legality of the projector's own part (RULES, The legal record).
ghost use Rattle.std.specs.Prelude.{◌≡◌, ◌≤◌};
ghost use Rattle.std.specs.List.{list_all};
ghost use Rattle.text.specs.Flags.{is_lowered};
ghost use Rattle.record.specs.Limits.{lamps_most};
ghost use Rattle.record.specs.Rules.{is_lamps, is_marks, is_error_list};
ghost use Rattle.record.specs.Legal.{fills_room, is_left, is_own};

use crate::scan;
use crate::types::{ERRORS, Own, Settings};
use text::{flag, rooms};
use words::lamp::LAMPS_MOST;

/// The most seconds that a lamp has burnt: 99,999 hours and 3,599 seconds.
pub const LAMP_LIMIT: u32 = 359_999_999;

/// The highest error digit.
pub const ERROR_MOST: u8 = 2;

/// The highest level of a volume (RULES, Class 2).
pub const VOLUME_MOST: u8 = 20;

/// The level of both volumes after set-up.
pub const VOLUME_START: u8 = 10;

/// The power as POWR answers it: off.
pub const OFF: u8 = 0;

/// On.
pub const ON: u8 = 1;

/// Cooling.
pub const COOLING: u8 = 2;

/// Warm-up.
pub const WARMING: u8 = 3;

/// 0 to 8 lamps, each within the limit.
#[tactic(auto, unfolding(crate::specs::Rules::is_lamps))]
pub fn is_lamps(seconds: &[u32]) -> bool
    ensures { result ≡ is_lamps seconds.now }
{
    seconds.len() <= LAMPS_MOST && scan::are_numbers_within(seconds, LAMP_LIMIT)
}

#[tactic(auto, unfolding(crate::specs::Legal::fills_room))]
fn is_lamp_room(room: &[u32; LAMPS_MOST], count: usize) -> bool
    ensures { result ≡ fills_room lamps_most is_lamps room.now count }
{
    rooms::used(room, count).is_some_and(|lamps| is_lamps(lamps))
}

/// Whether no lamp is enabled.
pub fn are_unmarked(marks: &[u8; LAMPS_MOST]) -> bool
    ensures { result ≡ list_all is_lowered marks.now }
{
    rooms::are_blank(marks)
}

// Flags, none of them raised past the lamps, and one at least where there are lamps (RULES, Lamps).
#[tactic(auto, using(crate::proofs::RoomsTold::marks_used))]
fn is_marks(marks: &[u8; LAMPS_MOST], count: usize) -> bool
    requires { count ≤ lamps_most }
    ensures { result ≡ is_marks count marks.now }
{
    rooms::used(marks, count).is_some()
        && flag::are_flags(marks)
        && (count == 0 || !are_unmarked(marks))
}

/// Six error digits, each 0 to 2.
#[tactic(auto, unfolding(crate::specs::Rules::is_error_list))]
pub fn is_error_list(bytes: &[u8]) -> bool
    ensures { result ≡ is_error_list bytes.now }
{
    bytes.len() == ERRORS && scan::are_bytes_within(bytes, ERROR_MOST)
}

// Seconds left: 1 to `warm` in warm-up, 1 to `cool` in cooling, else 0. Over the number, since this decides whether it
// is that of a power.
#[tactic(auto, unfolding(crate::specs::Legal::is_left))]
fn is_left(power: u8, left: u32, warm: u32, cool: u32) -> bool
    ensures { result ≡ is_left power left warm cool }
{
    match power {
        WARMING => 1 <= left && left <= warm,
        COOLING => 1 <= left && left <= cool,
        OFF | ON => left == 0,
        _ => false,
    }
}

impl Own {
    /// Whether the own part is one that calls can leave under these settings.
    #[tactic(auto, using(crate::proofs::RoomsTold::fills_inside), unfolding(crate::specs::Legal::is_own))]
    pub fn is_legal(&self, settings: &Settings) -> bool
        ensures { result ≡ is_own settings.now self.now }
    {
        is_error_list(&self.errors)
            && is_lamp_room(&self.lamps, settings.lamp_count)
            && is_marks(&self.enabled, settings.lamp_count)
            && is_left(self.power, self.left, settings.warm, settings.cool)
            && self.chosen < settings.input_count
            && self.speaker <= VOLUME_MOST
            && self.microphone <= VOLUME_MOST
            && flag::is_flag(self.video_muted)
            && flag::is_flag(self.audio_muted)
            && flag::is_flag(self.fault)
            && flag::is_flag(self.frozen)
    }
}
