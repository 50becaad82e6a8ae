// A log of either kind observed. Its first line says of which kind it is.
ghost use Rattle.std.specs.Prelude.{◌≡◌, ◌∷◌, [], List, MatchBool, if◌then◌else◌};
ghost use Rattle.textio.specs.Lines.{LogLine};
ghost use Rattle.floorlog.specs.KeptText.{kept_line};
ghost use Rattle.floorlog.specs.Kinds.{begins_history, is_history_from};

use crate::kept::KeptLine;
use crate::observer::Observer;
use std::io;
use textio::lines::Failure;
use textio::writer::ByteSink;

/// The kind of a log.
#[derive(Clone, Copy)]
pub enum LogKind {
    /// No line has been read yet.
    Unbegun,
    /// A floor log: events at place 0, one a line.
    Events,
    /// The second kind: the history of a board.
    History,
}

/// Two observers. The first line of a log chooses one of them: that of histories if it begins with `LOG `.
#[derive(Drop)]
pub struct ByKind<A, B> {
    /// The observer of a floor log.
    pub events: A,
    /// The observer of a history.
    pub history: B,
    kind: LogKind,
}

/// Returns whether a line begins with `LOG `, as the first line of a history does.
#[tactic(auto, unfolding(crate::specs::Kinds::begins_history))]
pub(crate) fn begins_history(line: &[u8]) -> bool
    ensures { result ≡ begins_history line.now }
{
    match line {
        [b'L', b'O', b'G', b' ', ..] => true,
        _ => false,
    }
}

impl LogKind {
    // Returns whether the log is a history if this is its next line.
    fn is_history(self, line: &KeptLine) -> bool
        ensures { (ls : List LogLine) → result ≡ is_history_from self (kept_line line.now ∷ ls) }
    {
        match self {
            LogKind::Unbegun => begins_history(line.text()),
            LogKind::Events => false,
            LogKind::History => true,
        }
    }
}

impl<A: Observer, B: Observer> ByKind<A, B> {
    /// Returns the two observers before the first line.
    pub fn new(events: A, history: B) -> ByKind<A, B>
        ensures observers { (result.events ≡ events) × (result.history ≡ history) }
        ensures kind { result.kind ≡ LogKind.Unbegun }
    {
        ByKind {
            events,
            history,
            kind: LogKind::Unbegun,
        }
    }

    /// Returns whether the log is a history. Before its first line it is none.
    pub fn is_history(&self) -> bool
        ensures { result ≡ is_history_from self.now.kind [] }
    {
        match self.kind {
            LogKind::History => true,
            _ => false,
        }
    }
}

impl<A: Observer, B: Observer> Observer for ByKind<A, B> {
    ghost output = { λ o ls.
        if is_history_from o.kind ls then B.output o.history ls else A.output o.events ls };

    ghost leaves = { λ o ls last. (is_history_from last.kind [] ≡ is_history_from o.kind ls)
        × MatchBool (is_history_from o.kind ls) (B.leaves o.history ls last.history)
        (A.leaves o.events ls last.events) };

    ghost overflows = { λ o ls.
        MatchBool (is_history_from o.kind ls) (B.overflows o.history ls) (A.overflows o.events ls) };

    fn line<W: ByteSink>(&mut self, line: &KeptLine, to: &mut W) -> Result<(), Failure> {
        if self.kind.is_history(line) {
            self.kind = LogKind::History;
            self.history.line(line, to)
        } else {
            self.kind = LogKind::Events;
            self.events.line(line, to)
        }
    }

    fn end<W: ByteSink>(&mut self, to: &mut W) -> io::Result<()> {
        if self.is_history() {
            self.history.end(to)
        } else {
            self.events.end(to)
        }
    }
}
