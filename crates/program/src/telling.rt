// What a program makes of a log.
ghost use Rattle.std.specs.Prelude.{◌≡◌, [], ℕ, List, OnOk, IfOk, IfErr, IfSome};
ghost use Rattle.std.specs.Io.KnownBytes.{Appends};
ghost use Rattle.textio.specs.Fronts.{WritesFront};
ghost use Rattle.program.specs.Joined.{joined_bytes, files_asked};
ghost use Rattle.program.specs.Telling.{CutsOff};
ghost use Rattle.command.specs.Asked.{AskedFor, asked_seen};
ghost use Rattle.formfile.specs.declared.Begun.{Begun};
ghost use Rattle.program.specs.declared.telling.Ending.{Ending};

use crate::joined::Opens;
use command::asked::Arguments;
use floorlog::unplayed::Unplayed;
use formfile::Begun;
use recorded::stray::StrayLine;
use textio::lines::Failure;
use textio::writer::ByteSink;

/// How a log ended that was read to its end.
#[derive(Clone, Copy)]
pub struct Ending {
    /// The first line of a history that did not belong to it, if any, which the output names too.
    pub stray: Option<StrayLine>,
    /// What of a log of the first kind was not played.
    pub unplayed: Unplayed,
}

/// Why a log was not reported to its end.
#[derive(Drop)]
pub enum CutCause {
    /// It was not read, not counted, or its report not written.
    Log(Failure),
    /// It was not the same each time that it was read.
    Changed,
}

/// How the report of a log was cut off.
#[derive(Drop)]
pub struct CutOff<'w> {
    /// Why.
    pub cause: CutCause,
    /// The file of the log that was read last.
    pub file: &'w str,
}

/// A program over logs.
pub trait Telling {
    /// What it reports of a log that begins with a record, for a command line.
    ghost told: { Self → AskedFor → Begun → List ℕ → List ℕ };

    /// How such a log ends.
    ghost ends: { Self → Begun → List ℕ → Ending → Type 0 };

    /// Such a log is too long, or lets more seconds pass than can be counted.
    ghost is_too_much: { List ℕ → Type 0 };

    /// Writes the report of the log in the files of a command line to a sink, as it comes. It may read the log more
    /// than once, each time from its start.
    fn tell<'w, O: Opens, W: ByteSink>(
        &self,
        begun: &Begun,
        command: &Arguments<'w>,
        opens: &O,
        to: &mut W,
    ) -> Result<Ending, CutOff<'w>>
        ensures whole { OnOk result (IfSome
            (joined_bytes (O.log_bytes opens.now) (files_asked (asked_seen command.now)))
            (λ log. Appends (W.contents to.old) (W.contents to.new)
            (told self.now (asked_seen command.now) begun.now log))) }
        ensures ending { IfOk result (λ ending.
            IfSome (joined_bytes (O.log_bytes opens.now) (files_asked (asked_seen command.now)))
            (λ log. ends self.now begun.now log ending)) }
        ensures front { IfSome (joined_bytes (O.log_bytes opens.now) (files_asked (asked_seen command.now)))
            (λ log. WritesFront (W.contents to.old) (W.contents to.new)
            (told self.now (asked_seen command.now) begun.now log)) }
        ensures none_waits { OnOk result (W.waiting to.new ≡ []) }
        ensures err { IfErr result (λ cut. CutsOff W.fails_with is_too_much
            (joined_bytes (O.log_bytes opens.now) (files_asked (asked_seen command.now))) cut.cause) };
}
