// What a record shows: power, and the seconds of each lamp.
ghost use Rattle.std.specs.Prelude.{◌≡◌, ◌+◌, ◌*◌, ◌≤◌, ◌++◌, length};
ghost use Rattle.arrayvec.specs.ArrayVec.{array_vec_len};
ghost use Rattle.history.specs.Shown.{lamps_shown, device_shown, device_shown_most};

use arrayvec::ArrayVec;
use record::types::Device;
use text::rooms;

// A space and the seconds of each lamp.
#[tactic(auto, using(crate::proofs::ShownFits::shown_lengths))]
fn put_lamps<const N: usize>(lamps: &[u32], out: &mut ArrayVec<u8, N>)
    requires { array_vec_len out.old + 11 * length lamps.now ≤ N }
    ensures { out.new.items ≡ out.old.items ++ lamps_shown lamps.now }
{
    for lamp in lamps {
        out.push(b' ');
        numbers::put_number(*lamp, out);
    }
}

/// Writes what a device shows, as in the last line of `replay` and in a stated line: `power 1 lamps 3600`.
#[tactic(auto, using(crate::proofs::ShownFits::shown_lengths))]
pub fn put_shown<const N: usize>(device: &Device, out: &mut ArrayVec<u8, N>)
    requires { array_vec_len out.old + device_shown_most ≤ N }
    ensures shown { out.new.items ≡ out.old.items ++ device_shown device.now }
    ensures bound { array_vec_len out.new ≤ array_vec_len out.old + device_shown_most }
{
    out.try_extend_from_slice(b"power ").unwrap();
    numbers::put_number(device.own.power as u32, out);
    out.try_extend_from_slice(b" lamps").unwrap();
    put_lamps(
        rooms::first(&device.own.lamps, device.settings.lamp_count),
        out,
    );
}
