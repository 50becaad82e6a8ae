//! Which lamp burnt when: the stretches of demand 3's history. This crate has definitions and laws only, and no code to
//! link.
#![tactic(auto)]

ghost use Rattle.std.specs.Prelude.{Bool, List, ℕ};
ghost use Rattle.record.specs.Wanted.{Wanted};
ghost use Rattle.demands.specs.History.{HistoryEvent};
ghost use Rattle.stretches.specs.LogTold.{LogsWatched, RecordedWatched};
ghost use Rattle.stretches.specs.Stretches.{StretchesTell, seconds_lit, stretches_of};

// The functions here do nothing: their contracts are that every log is watched so, and that the stretches of every
// history are reported.

/// The report of a floor log, from any accepted set-up or load, is what demand 3's history of it says (RULES, Floor
/// log).
pub fn watched_logs_tell_stretches()
    ensures { LogsWatched }
{}

/// The report of a history that records any calls, at any places, from any accepted set-up or load, is what demand 3's
/// history of these calls says (RULES, History of a board).
pub fn recorded_logs_tell_stretches()
    ensures { RecordedWatched }
{}

/// For any history, also that of no log, and any marks at its beginning: the stretches of the lamp at index k are
/// exactly its seconds, in order and apart, and add up to what it burnt.
pub fn any_history_tells_its_stretches()
    ensures { (w : Wanted) (marks : List Bool) (k : ℕ) (es : List HistoryEvent)
        → StretchesTell w marks k es (stretches_of (seconds_lit w marks k es)) }
{}
