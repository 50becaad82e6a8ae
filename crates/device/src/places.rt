// The places for controllers (RULES, Places): which one opening takes.
ghost use Rattle.std.specs.Prelude.{◌≡◌};
ghost use Rattle.record.specs.Places.{is_closed, lowest_closed};

use record::connection::PHASE_CLOSED;
use record::types::{Connection, PLACES};

/// Whether the connection is closed. Over the number, since any other is none of a closed connection, one of no phase
/// too.
pub fn is_closed(connection: &Connection) -> bool
    ensures { result ≡ is_closed connection.now }
{
    connection.phase == PHASE_CLOSED
}

/// The lowest closed place, or their number where none is closed.
pub fn lowest_closed(connections: &[Connection; PLACES]) -> usize
    ensures { result ≡ lowest_closed connections.now }
{
    for (place, c) in connections.iter().enumerate() {
        if is_closed(c) {
            return place;
        }
    }
    PLACES
}
