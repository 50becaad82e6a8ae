// What is proved beside the contracts of the functions. Nothing is done here: that this function has its contract is
// that the theorem stands.
ghost use Rattle.replay.specs.HostsReplayed.{HostsReplayed};

/// For a log that a host recorded, of any calls at all places, the output gives each line its number and the reply that
/// the host's board gave to that call, and then the power and lamps of that board (RULES, History of a board). For the
/// rest of the log, cut at any byte, it is that of a prefix of what the host did, and only a last line that was cut
/// does not belong.
pub fn recorded_logs_are_replayed()
    ensures { HostsReplayed }
{}
