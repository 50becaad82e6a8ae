// The connections after n seconds, each for itself (RULES, Places).
ghost use Rattle.std.specs.Prelude.{◌≡◌, map};
ghost use Rattle.clock.specs.Second.{connection_second, times};

use crate::connection;
use record::types::{Connection, PLACES};

/// The connections n seconds later.
pub fn age(connections: &mut [Connection; PLACES], seconds: u32)
    ensures { connections.new ≡ map (times connection_second seconds) connections.old }
{
    for place in 0..PLACES {
        connection::age(&mut connections[place], seconds);
    }
}
