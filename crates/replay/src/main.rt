// The floor log played back (RULES, Floor log and The programs): what its lines are answered, and at the end the line
// of power and lamps, from the sample set-up or from that of a stored form.
#![tactic(auto)]

mod logs;
mod playing;
#[cfg(test)]
mod tests;
pub mod theorems;

ghost use Rattle.std.specs.Prelude.{◌≡◌, option_map};
ghost use Rattle.textio.specs.Lines.{IsTooLong};
ghost use Rattle.recorded.specs.Following.{stray_seen};
ghost use Rattle.replay.specs.LogText.{any_log_text, log_stray, log_unplayed};

use command::asked::Arguments;
use formfile::Begun;
use program::about::About;
use program::joined::{Joined, Opens};
use program::outside::System;
use program::telling::{CutCause, CutOff, Ending, Telling};
use program::{joined, run};
use std::process::ExitCode;
use textio::reader::BufferedReader;
use textio::streams::Stream;
use textio::writer::ByteSink;

const USAGE: &str = "usage: replay [-o FILE] [--form FORM] [FORM] [LOG..]\n";

const HELP: &str = "
Plays a log back: writes for each line its number and the reply, and at the
end the power and each lamp's seconds.

  FORM                   the stored form that the log begins with; without
                         one it begins with the sample set-up
  LOG..                  the files of the log, in their order; - is standard
                         input, which is read where none is named
      --form FORM        the form; all other words are then files of the log
  -o, --output FILE      write into FILE, which is replaced only when all
                         is written
      --                 what follows is no option
  -h, --help             write this
  -V, --version          write the version

Status: 0 where all was read and written, 1 where a file failed or a form
does not load, 2 where the words above are not kept to, 3 where a line was
not understood, a call was refused, or a line does not belong to its
history.
";

struct Replay;

impl Telling for Replay {
    ghost told = { λ _ _ begun log. any_log_text begun.device begun.sum log };

    ghost ends = { λ _ begun log ending.
        (option_map stray_seen ending.stray ≡ log_stray begun.device begun.sum log)
        × (ending.unplayed ≡ log_unplayed begun.device log) };

    ghost is_too_much = { IsTooLong };

    fn tell<'w, O: Opens, W: ByteSink>(
        &self,
        begun: &Begun,
        command: &Arguments<'w>,
        opens: &O,
        to: &mut W,
    ) -> Result<Ending, CutOff<'w>> {
        let mut log = Joined::new(opens, joined::files_of(command));
        let told = logs::replay_log(
            begun.device,
            begun.sum,
            &mut BufferedReader::new(Stream(&mut log)),
            to,
        );
        match told {
            Ok(ending) => Ok(ending),
            Err(failure) => Err(CutOff {
                cause: CutCause::Log(failure),
                file: log.name(),
            }),
        }
    }
}

fn main(rt: HostRuntime) -> ExitCode {
    let about = About {
        name: "replay",
        usage: USAGE,
        help: HELP,
        has_page: false,
    };
    ExitCode::from(run::on_system(&rt, &Replay, &about).code())
}
