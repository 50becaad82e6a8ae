// The host's calls (RULES, Time and Lamps) on a legal record: each replaces the fault mark, the six error digits or a
// lamp's enabled mark where the record lies, and nothing else; a refused one leaves the record as it was.
ghost use Rattle.std.specs.Prelude.{◌≡◌, []};
ghost use Rattle.text.specs.Outcomes.{served_as};
ghost use Rattle.record.specs.HostCalls.{fault_set, errors_set, mark_set};

use crate::legality::Legal;
use crate::own;
use crate::own::OFF;
use crate::refusal::Refusal;
use text::flag;

impl Legal<'_> {
    /// Sets the fault mark.
    #[tactic(auto, unfolding(crate::specs::HostCalls::fault_set), using(crate::proofs::HostKept::fault_kept))]
    pub fn set_fault(&mut self, mark: bool)
        ensures same_reference { self.new.device.ghost_name ≡ self.old.device.ghost_name }
        ensures served { served_as tt [] self.new.device.now ≡ fault_set self.old.device.now mark }
    {
        let device = &mut *self.device;
        device.own.fault = flag::of(mark);
    }

    /// Sets the error status: six digits 0 to 2, of fan, lamp, temperature, cover, filter and other. Refused:
    /// `OutOfRange` for any other digits.
    #[tactic(auto, unfolding(crate::specs::HostCalls::errors_set), using(crate::proofs::HostKept::errors_kept))]
    pub fn set_errors(&mut self, digits: &[u8]) -> Result<(), Refusal>
        ensures same_reference { self.new.device.ghost_name ≡ self.old.device.ghost_name }
        ensures says { result ≡ (errors_set self.old.device.now digits.now).says }
        ensures device { self.new.device.now ≡ (errors_set self.old.device.now digits.now).leaves }
    {
        if !own::is_error_list(digits) {
            return Err(Refusal::OutOfRange);
        }
        let device = &mut *self.device;
        device.own.errors.copy_from_slice(digits);
        Ok(())
    }

    /// Whether the lamp, counted from 0, is enabled from now on. Refused: `OutOfRange` for no such lamp and for the
    /// last mark cleared, then `NotOff` unless the power is off.
    #[tactic(auto, unfolding(crate::specs::HostCalls::mark_set), using(crate::proofs::HostKept::mark_kept))]
    pub fn set_mark(&mut self, lamp: usize, mark: bool) -> Result<(), Refusal>
        ensures same_reference { self.new.device.ghost_name ≡ self.old.device.ghost_name }
        ensures says { result ≡ (mark_set self.old.device.now lamp mark).says }
        ensures device { self.new.device.now ≡ (mark_set self.old.device.now lamp mark).leaves }
    {
        let device = &mut *self.device;
        if device.settings.lamp_count <= lamp {
            return Err(Refusal::OutOfRange);
        }
        let mut marks = device.own.enabled;
        marks[lamp] = flag::of(mark);
        if own::are_unmarked(&marks) {
            return Err(Refusal::OutOfRange);
        }
        if device.own.power != OFF {
            return Err(Refusal::NotOff);
        }
        device.own.enabled = marks;
        Ok(())
    }
}
