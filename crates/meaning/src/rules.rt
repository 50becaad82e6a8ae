//! The four rules by which a command is refused (RULES, Commands).
ghost use Rattle.std.specs.Prelude.{◌≡◌, Ok};
ghost use Rattle.meaning.specs.Rules.{is_no_query, is_undefined, is_out_of_parameter, is_failure, is_untimely};
ghost use Rattle.meaning.specs.Rules.{is_unavailable};
ghost use Rattle.record.specs.Views.{power_number};

use crate::inputs;
use pjlink::command::Command;
use record::types::{Own, Settings};
use record::views::Power;
use text::flag;

fn is_no_query(c: Command) -> bool
    ensures { result ≡ is_no_query c }
{
    match c {
        Command::Query(b) => !b.has_query(),
        _ => false,
    }
}

/// Rule 1, ERR1: returns whether the command is a query of a body that has none, or one of lamps where there are none.
pub fn is_undefined(settings: &Settings, command: Command) -> bool
    ensures { result ≡ is_undefined settings.now (Ok command) }
{
    is_no_query(command) || (command.body().row().lamps && settings.lamp_count == 0)
}

/// Rule 2, ERR2: returns whether the command names an input that is not in the set-up.
pub fn is_out_of_parameter(settings: &Settings, command: Command) -> bool
    ensures { result ≡ is_out_of_parameter settings.now (Ok command) }
{
    match command {
        Command::InputSet(_, i) | Command::NameQuery(i) => !inputs::is_listed(settings, i),
        _ => false,
    }
}

/// Rule 3, ERR4: returns whether the command is one that the fault flag refuses, and the flag is set.
pub fn is_failure(own: &Own, command: Command) -> bool
    ensures { result ≡ is_failure own.now (Ok command) }
{
    command.body().has_set() && flag::is_raised(own.fault)
}

fn is_untimely(power: Power, c: Command) -> bool
    ensures { result ≡ is_untimely (power_number power) c }
{
    match c {
        Command::PowerSet(_) => power.is_between(),
        _ => c.body().row().on && !matches!(power, Power::On),
    }
}

/// Rule 4, ERR3: returns whether the power does not allow the command now.
#[tactic(auto, using(record::proofs::PowerSeen::power_tests))]
pub fn is_unavailable(own: &Own, command: Command) -> bool
    ensures { result ≡ is_unavailable own.now (Ok command) }
{
    is_untimely(own.power(), command)
}
