// Which lamp burnt when (RULES, Floor log and The programs): of a log the stretches of its lamps as they end, and at
// the end each lamp's seconds; or, with `--page`, one HTML document that shows them, or with `--csv` a table of them.
#![tactic(auto)]

mod chained;
mod parts;
mod telling;
#[cfg(test)]
mod tests;
pub mod theorems;

ghost use Rattle.std.specs.Prelude.{◌≡◌, option_map};
ghost use Rattle.recorded.specs.Following.{stray_seen};
ghost use Rattle.burnt.specs.LogTold.{stray_in, unplayed_in, IsTooMuch};
ghost use Rattle.burnt.specs.Parts.{asked_told};

use command::asked::Arguments;
use formfile::Begun;
use program::about::About;
use program::joined::Opens;
use program::outside::System;
use program::run;
use program::telling::{CutOff, Ending, Telling};
use std::process::ExitCode;
use textio::writer::ByteSink;

const USAGE: &str = "usage: burnt [--page | --csv] [OPTION..] [FORM] [LOG..]\n";

const HELP: &str = "
Tells which lamp burnt when: writes each stretch of a lamp as it ends, in
seconds since the log began, and at the end each lamp's seconds.

      --page             write one HTML document that shows them
      --csv              write a table of them as comma-separated values
      --began TIME       when the log began, as 2026-11-23T06:00; days and
                         hours are then those of the clock
      --long HOURS       mark stretches of more than so many hours
      --life HOURS       of a page: a lamp lives so long; say what is left,
                         and until when at this log's pace
  FORM                   the stored form that the log begins with; without
                         one it begins with the sample set-up
  LOG..                  the files of the log, in their order; - is standard
                         input, which is read where none is named
      --form FORM        the form; all other words are then files of the log
  -o, --output FILE      write into FILE, which is replaced only when all
                         is written
      --                 what follows is no option
  -h, --help             write this
  -V, --version          write the version

Status: 0 where all was read and written, 1 where a file failed or a form
does not load, 2 where the words above are not kept to, 3 where a line was
not understood, a call was refused, or a line does not belong to its
history.
";

struct Burnt;

impl Telling for Burnt {
    ghost told = { λ _ asked begun log. asked_told asked begun log };

    ghost ends = { λ _ begun log ending.
        (option_map stray_seen ending.stray ≡ stray_in begun.device begun.sum log)
        × (ending.unplayed ≡ unplayed_in begun.device log) };

    ghost is_too_much = { IsTooMuch };

    fn tell<'w, O: Opens, W: ByteSink>(
        &self,
        begun: &Begun,
        command: &Arguments<'w>,
        opens: &O,
        to: &mut W,
    ) -> Result<Ending, CutOff<'w>> {
        match parts::tell(begun, command, opens, to) {
            Ok(log) => Ok(log.ending),
            Err(cut) => Err(cut),
        }
    }
}

fn main(rt: HostRuntime) -> ExitCode {
    let about = About {
        name: "burnt",
        usage: USAGE,
        help: HELP,
        has_page: true,
    };
    ExitCode::from(run::on_system(&rt, &Burnt, &about).code())
}
