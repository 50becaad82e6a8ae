// The projector's own part after n seconds, in closed form: the cost does not grow with n.
ghost use Rattle.std.specs.Prelude.{◌≡◌, map, take, if◌then◌else◌};
ghost use Rattle.text.specs.Flags.{is_raised};
ghost use Rattle.clock.specs.Second.{one_more, changed_where, own_second, times};
ghost use Rattle.clock.specs.After.{power_after};

use record::own::LAMP_LIMIT;
use record::types::{Own, Settings};
use record::views::Power;
use text::flag;
use words::lamp::LAMPS_MOST;

fn power_after(power: Power, n: u32) -> Power
    ensures { result ≡ power_after n power }
{
    match power {
        Power::WarmUp { left } if n < left => Power::WarmUp { left: left - n },
        Power::WarmUp { .. } => Power::On,
        Power::Cooling { left } if n < left => Power::Cooling { left: left - n },
        Power::Cooling { .. } => Power::Off,
        settled => settled,
    }
}

// A lamp that burns for n seconds, stopped at the limit.
#[tactic(auto, using(crate::proofs::LampsGain::burns, crate::proofs::LampsGain::stays))]
fn lamp_after(seconds: u32, n: u32) -> u32
    ensures { result ≡ times one_more n seconds }
{
    if LAMP_LIMIT <= seconds {
        return seconds;
    }
    if LAMP_LIMIT - seconds <= n {
        return LAMP_LIMIT;
    }
    seconds + n
}

// One that burns if it is enabled (RULES, Lamps).
fn lamp_if(mark: bool, seconds: u32, n: u32) -> u32
    ensures { result ≡ (if mark then times one_more n seconds else seconds) }
{
    if mark {
        return lamp_after(seconds, n);
    }
    seconds
}

fn burn(lamps: &mut [u32; LAMPS_MOST], enabled: &[u8; LAMPS_MOST], count: usize, n: u32)
    ensures { lamps.new ≡ changed_where (times one_more n) (take count (map is_raised enabled.now)) lamps.old }
{
    for k in 0..LAMPS_MOST {
        if count <= k {
            return;
        }
        lamps[k] = lamp_if(flag::is_raised(enabled[k]), lamps[k], n);
    }
}

/// The projector's own part n seconds later: its power, and the seconds of the lamps that burn (RULES, Time).
#[tactic(auto, using(crate::proofs::InOneGo::own_passes))]
pub fn pass(settings: &Settings, own: &mut Own, seconds: u32)
    ensures { own.new ≡ times (own_second settings.now) seconds own.old }
{
    if seconds == 0 {
        return;
    }
    let power = own.power();
    if power.is_burning() {
        burn(&mut own.lamps, &own.enabled, settings.lamp_count, seconds);
    }
    own.set_power(power_after(power, seconds));
}
