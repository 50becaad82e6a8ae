// The last line that is printed for a log: what the record shows.
ghost use Rattle.std.specs.Prelude.{◌≡◌, []};
ghost use Rattle.floorlog.specs.LastLine.{last_device_line};

use crate::outcome::Printed;
use history::shown;
use record::types::Device;

/// Puts the last line for a device in `out`.
#[tactic(auto, using(history::proofs::ShownFits::shown_lengths), unfolding(crate::specs::LastLine::last_line_of))]
pub fn put_last(device: &Device, out: &mut Printed)
    requires { out.old.items ≡ [] }
    ensures { out.new.items ≡ last_device_line device.now }
{
    shown::put_shown(device, out);
    out.push(b'\n');
}
