//! The answer to a command that no rule refuses: the table of RULES, Commands.
ghost use Rattle.std.specs.Prelude.{◌≡◌, map, take, slice_index_or};
ghost use Rattle.text.specs.Flags.{is_raised};
ghost use Rattle.pjlink.specs.Carried.{value_said};
ghost use Rattle.record.specs.Record.{blank_name};
ghost use Rattle.meaning.specs.Meaning.{power_said, lamp_said, lamps_said, name_bytes, query_answer};
ghost use Rattle.meaning.specs.Meaning.{table_answer};

use crate::inputs;
use arrayvec::ArrayVec;
use pjlink::answer::Answer;
use pjlink::body::Body;
use pjlink::command::Command;
use record::types::{InputName, Own, Settings, Text};
use record::views;
use text::{flag, rooms};
use words::errors::ErrorStatus;
use words::input::{INPUTS_MOST, Input};
use words::lamp::{LAMPS_MOST, LampHours};
use words::mutes::Mutes;
use words::power::PowerStatus;

const HOUR: u32 = 3600;

fn power_said(power: views::Power) -> PowerStatus
    ensures { result ≡ power_said power }
{
    match power {
        views::Power::Off => PowerStatus::Off,
        views::Power::WarmUp { .. } => PowerStatus::WarmUp,
        views::Power::On => PowerStatus::On,
        views::Power::Cooling { .. } => PowerStatus::Cooling,
    }
}

// Returns a lamp with its whole hours.
fn lamp_said(lit: bool, seconds: u32) -> LampHours
    ensures { result ≡ lamp_said lit seconds }
{
    LampHours {
        hours: seconds / HOUR,
        lit,
    }
}

// Returns the first `count` lamps.
#[tactic(auto, using(crate::proofs::LampsSaid::lamps_one_by_one))]
fn lamps_said(
    seconds: &[u32; LAMPS_MOST],
    marks: &[u8; LAMPS_MOST],
    count: usize,
    lit: bool,
) -> ArrayVec<LampHours, LAMPS_MOST>
    ensures { result.items ≡ lamps_said lit (map is_raised marks.now) (take count seconds.now) }
{
    let mut lamps = ArrayVec::new();
    let most = count.min(LAMPS_MOST);
    for k in 0..most {
        lamps.push(lamp_said(lit && flag::is_raised(marks[k]), seconds[k]));
    }
    lamps
}

fn text_of(t: &Text) -> &[u8]
    ensures { result.now ≡ take t.now.len t.now.bytes }
{
    rooms::first(&t.bytes, t.len)
}

fn name_of(n: &InputName) -> &[u8]
    ensures { result.now ≡ name_bytes n.now }
{
    rooms::first(&n.bytes, n.len)
}

// Returns the name at an index. Past the list it is empty.
fn name_at(names: &[InputName; INPUTS_MOST], place: usize) -> &[u8]
    ensures { result.now ≡ name_bytes (slice_index_or names.now place blank_name) }
{
    if INPUTS_MOST <= place {
        return &[];
    }
    name_of(&names[place])
}

// Returns the answer to `?` of a body. `None` if `?` does not ask the body.
#[tactic(auto, using(record::proofs::PowerSeen::power_tests))]
fn query_answer<'a>(s: &'a Settings, o: &Own, b: Body) -> Option<Answer<'a>>
    ensures { value_said result ≡ query_answer s.now o.now b }
{
    match b {
        Body::Powr => Some(Answer::Power(power_said(o.power()))),
        Body::Inpt(_) => Some(Answer::Input(inputs::input_at(s, o.chosen))),
        Body::Avmt => Some(Answer::Mutes(Mutes {
            video: flag::is_raised(o.video_muted),
            audio: flag::is_raised(o.audio_muted),
        })),
        Body::Erst => Some(Answer::Errors(ErrorStatus { digits: o.errors })),
        Body::Lamp => {
            let lit = o.power().is_burning();
            Some(Answer::Lamps(lamps_said(&o.lamps, &o.enabled, s.lamp_count, lit)))
        }
        Body::Inst(_) => Some(Answer::Inputs(inputs::inputs_of(s))),
        Body::Name => Some(Answer::Text(text_of(&s.name))),
        Body::Inf1 => Some(Answer::Text(text_of(&s.maker))),
        Body::Inf2 => Some(Answer::Text(text_of(&s.model))),
        Body::Info => Some(Answer::Text(text_of(&s.other))),
        Body::Clss => Some(Answer::Class(s.class())),
        Body::Frez => Some(Answer::Freeze(flag::is_raised(o.frozen))),
        Body::Snum => Some(Answer::Text(text_of(&s.serial))),
        Body::Sver => Some(Answer::Text(text_of(&s.version))),
        Body::Svol | Body::Mvol | Body::Innm => None,
    }
}

/// Returns the answer to a command. The answer to a set is OK. `None` if the command is a query of a body that has
/// none.
pub fn answer<'a>(settings: &'a Settings, own: &Own, command: Command) -> Option<Answer<'a>>
    ensures { value_said result ≡ table_answer settings.now own.now command }
{
    match command {
        Command::Query(b) => query_answer(settings, own, b),
        Command::NameQuery(i) => Some(Answer::Text(name_at(
            &settings.names,
            inputs::listed_index(settings, i),
        ))),
        _ => Some(Answer::Done),
    }
}
