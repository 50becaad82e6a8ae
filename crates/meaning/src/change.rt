// What a command that no rule refuses does to the projector (RULES, Commands).
ghost use Rattle.std.specs.Prelude.{◌≡◌};
ghost use Rattle.meaning.specs.Meaning.{after_power, after_mute, level_after, after_step, after_command};

use crate::inputs;
use pjlink::command::{Command, Half, Volume};
use record::own::{OFF, ON, VOLUME_MOST};
use record::types::{Own, Settings};
use record::views::Power;
use text::flag;

// Sets the power. POWR 1 when off starts warm-up, and POWR 0 when on starts cooling. Otherwise the power stays as it
// is, also one whose number stands for no power.
#[tactic(auto, unfolding(crate::specs::Meaning::after_power))]
fn set_power(s: &Settings, o: &mut Own, wanted: bool)
    ensures { o.new ≡ after_power s.now o.old wanted }
{
    if wanted && o.power == OFF {
        o.set_power(Power::WarmUp { left: s.warm });
    } else if !wanted && o.power == ON {
        o.set_power(Power::Cooling { left: s.cool });
    }
}

// Mutes or unmutes a half. The half that is not named stays as it is.
fn mute(o: &mut Own, half: Half, wanted: bool)
    ensures { o.new ≡ after_mute o.old half wanted }
{
    match half {
        Half::VideoHalf => o.video_muted = flag::of(wanted),
        Half::AudioHalf => o.audio_muted = flag::of(wanted),
        Half::BothHalves => {
            o.video_muted = flag::of(wanted);
            o.audio_muted = flag::of(wanted);
        }
    }
}

// Returns the level one step up or down. It stops at the ends (RULES, Class 2).
#[tactic(auto, unfolding(crate::specs::Meaning::level_after))]
fn step(up: bool, level: u8) -> u8
    ensures { result ≡ level_after up level }
{
    if up {
        if level < VOLUME_MOST {
            return level + 1;
        }
        return level;
    }
    if level == 0 {
        return 0;
    }
    level - 1
}

fn set_level(o: &mut Own, v: Volume, up: bool)
    ensures { o.new ≡ after_step o.old v up }
{
    match v {
        Volume::Speaker => o.speaker = step(up, o.speaker),
        Volume::Microphone => o.microphone = step(up, o.microphone),
    }
}

/// Does to the own part what the command says. A query changes nothing.
pub fn carry_out(settings: &Settings, own: &mut Own, command: Command)
    ensures { own.new ≡ after_command settings.now own.old command }
{
    match command {
        Command::PowerSet(wanted) => set_power(settings, own, wanted),
        Command::InputSet(_, i) => own.chosen = inputs::listed_index(settings, i),
        Command::MuteSet(half, wanted) => mute(own, half, wanted),
        Command::FreezeSet(wanted) => own.frozen = flag::of(wanted),
        Command::VolumeStep(v, up) => set_level(own, v, up),
        Command::Query(_) | Command::NameQuery(_) => (),
    }
}
