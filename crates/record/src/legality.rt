// The legality of the whole record (RULES, The legal record): a factor a part.
ghost use Rattle.std.specs.Prelude.{◌≡◌, true, false, IfOk, IfErr};
ghost use Rattle.record.specs.Legal.{is_legal};
ghost use Rattle.record.specs.declared.refusal.Refusal.TheVariants.{NotLegal};

use crate::connections;
use crate::refusal::Refusal;
use crate::types::Device;

impl Device {
    /// Whether the record is one that set-up and calls can leave.
    #[tactic(auto, unfolding(crate::specs::Legal::is_legal))]
    pub fn is_legal(&self) -> bool
        ensures { result ≡ is_legal self.now }
    {
        self.settings.is_legal()
            && self.own.is_legal(&self.settings)
            && connections::is_connections(&self.connections)
    }
}

/// A record with the result of its one test. It need not be legal, since a log can begin with any record; where it is,
/// it is borrowed as a `Legal` for each call.
#[derive(Drop)]
pub struct Tested {
    /// The record, legal or not.
    pub device: Device,
    /// Whether it is legal (RULES, The legal record).
    pub legal: bool,
    ghost tested: { legal ≡ is_legal device },
}

impl Tested {
    /// The record, tested.
    pub fn of(device: Device) -> Tested
        ensures { result.device ≡ device }
    {
        let legal = device.is_legal();
        Tested { device, legal }
    }
}

/// A borrow of a legal record, for the calls: they keep it legal, and none tests it again.
#[derive(Drop)]
pub struct Legal<'a> {
    /// The record, legal.
    pub device: &'a mut Device,
    ghost legal: { is_legal device.now ≡ true },
}

impl<'a> Legal<'a> {
    ghost use Rattle.std.specs.Borrow.{sem};
    ghost use Rattle.record.specs.Lending.{rests_if_refused};

    /// Tests the record and borrows it. Refused: `NotLegal`.
    pub fn of(device: &'a mut Device) -> Result<Legal<'a>, Refusal>
        ensures* kept { sem 𝓛 (rests_if_refused device.entry result) }
        ensures refused { IfErr result (λ why. (why ≡ NotLegal) × (is_legal device.old ≡ false)) }
        ensures lent { IfOk result
            (λ l. (l.device.now ≡ device.old) × (l.device.ghost_name ≡ device.entry.ghost_name)) }
    {
        if !device.is_legal() {
            return Err(Refusal::NotLegal);
        }
        Ok(Legal { device })
    }
}
