// `ours`'s storing and loading.
ghost use Rattle.std.specs.Prelude.{◌≡◌};
ghost use Rattle.record.specs.Refusals.{refusal_number};
ghost use Rattle.stored.specs.Told.{load_error_number};
ghost use Rattle.ours.specs.Board.{ours, wrote_as};
ghost use Rattle.ours.specs.Tied.{made_as};

use record::refusal::Refusal;
use record::types::Device;
use stored::error::LoadError;
use stored::{loading, storing};

/// `storing::store` gives and writes what `ours.store` says.
pub fn store(device: &Device, out: &mut [u8]) -> Result<usize, Refusal>
    ensures { wrote_as refusal_number result out.new ≡ ours.store device.now out.old }
{
    storing::store(device, out)
}

/// `loading::load` gives what `ours.load` says.
#[tactic(auto, using(crate::proofs::Returned::load_returned))]
pub fn load(bytes: &[u8]) -> Result<Device, LoadError>
    ensures { made_as load_error_number result ≡ ours.load bytes.now }
{
    loading::load(bytes)
}
