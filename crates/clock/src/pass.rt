// The call that lets time pass.
ghost use Rattle.std.specs.Prelude.{◌≡◌, []};
ghost use Rattle.text.specs.Outcomes.{served_as};
ghost use Rattle.clock.specs.Passing.{time_passed};

use crate::{connections, own};
use record::legality::Legal;

/// Lets so many seconds pass, where the record lies (RULES, Time).
#[tactic(auto, using(crate::proofs::InOneGo::parts_pass, crate::proofs::Cases::passed_accepted))]
pub fn pass(legal: &mut Legal<'_>, seconds: u32)
    ensures same_reference { legal.new.device.ghost_name ≡ legal.old.device.ghost_name }
    ensures served { served_as tt [] legal.new.device.now ≡ time_passed legal.old.device.now seconds }
{
    let device = &mut *legal.device;
    own::pass(&device.settings, &mut device.own, seconds);
    connections::age(&mut device.connections, seconds);
}
