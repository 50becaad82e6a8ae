// A connection after n seconds.
ghost use Rattle.std.specs.Prelude.{◌≡◌};
ghost use Rattle.clock.specs.Second.{connection_second, times};

use record::connection::AGE_END;
use record::types::Connection;

/// The connection n seconds later: awaiting or failed it ages, and closes at 30 seconds (RULES, Connection).
pub fn age(connection: &mut Connection, seconds: u32)
    ensures { connection.new ≡ times connection_second seconds connection.old }
{
    if !connection.phase().is_timed() {
        return;
    }
    if seconds == 0 {
        return;
    }
    if AGE_END <= seconds {
        *connection = Connection::CLOSED;
        return;
    }
    if AGE_END - seconds <= connection.age {
        *connection = Connection::CLOSED;
        return;
    }
    connection.age += seconds;
}
