// What is proved beside the contracts of the functions. Nothing is done here: that this function has its contract is
// that the theorem stands.
ghost use Rattle.burnt.specs.HistoryTold.{HostsTold};

/// What is written of a log that a host recorded, of any calls at all places, is demand 3's history of these calls
/// (RULES, History of a board): each lamp's stretches, and its seconds at the start, burnt and now. Of what is left of
/// the log, cut at any byte, it is that of a front of the calls.
pub fn recorded_logs_are_told()
    ensures { HostsTold }
{}
