// The places for controllers (RULES, Places): each place's connection is legal by itself.
ghost use Rattle.std.specs.Prelude.{◌≡◌};
ghost use Rattle.std.specs.List.{list_all};
ghost use Rattle.record.specs.Legal.{is_connection, is_connections};

use crate::types::{Connection, PLACES};

fn are_legal(connections: &[Connection]) -> bool
    ensures { result ≡ list_all is_connection connections.now }
{
    connections.iter().all(|c| c.is_legal())
}

/// Whether the connection at each place is legal.
#[tactic(auto, unfolding(crate::specs::Legal::is_connections))]
pub fn is_connections(connections: &[Connection; PLACES]) -> bool
    ensures { result ≡ is_connections connections.now }
{
    are_legal(connections)
}
