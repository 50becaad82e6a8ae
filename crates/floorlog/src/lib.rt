//! The floor log (RULES, Floor log): what a line of it says, what its event does to the record and what is printed for
//! it; a whole log replayed, from any source of bytes to any sink; and the last line of one that cannot be replayed to
//! its end.
#![tactic(auto)]

pub mod cut;
pub mod event;
pub mod kept;
pub mod kinds;
pub mod last;
pub mod line;
pub mod observer;
pub mod outcome;
pub mod playing;
#[cfg(test)]
mod tests;
pub mod theorems;
pub mod unplayed;

ghost use Rattle.std.specs.Prelude.{◌≡◌, true, ◌≢◌, ◌<◌, [], OnOk, IfOk, IfErr, IfSome, Err, length};
ghost use Rattle.record.specs.Legal.{is_legal};
ghost use Rattle.textio.specs.Lines.{count_most, IsTooLong};
ghost use Rattle.textio.specs.Fronts.{WritesFront};
ghost use Rattle.textio.specs.Ahead.{left_in};
ghost use Rattle.textio.specs.NextLine.{FailureComesOf, OnFailedRead};
ghost use Rattle.floorlog.specs.Playing.{sample_device, replay_text};
ghost use Rattle.floorlog.specs.Replaying.{IsReplayed, IsPlayedSoFar};

use crate::playing::Player;
use record::types::Device;
use setup::wanted::Wanted;
use textio::lines::Failure;
use textio::reader::{BufferedReader, ByteSource};
use textio::writer::ByteSink;

/// Returns the sample set-up, every place closed.
#[tactic(auto, unfolding(crate::specs::Playing::sample_device), using(crate::proofs::Samples::sample))]
pub fn sample() -> Device
    ensures sample { result ≡ sample_device }
    ensures legal { is_legal result ≡ true }
{
    let wanted = Wanted::for_class_1(b"", b"", b"", b"", b"", b"11", &[0], 20, 60);
    let mut device = record::fresh::blank();
    setup::start_in(&mut device, &wanted);
    device
}

/// Replays the log that is left in a reader, from a device, which need not be legal. Writes what each line is answered,
/// and last the line of power and lamps. Flushes the sink before each read, which may wait. Returns the device after
/// the log, or the failure that ended it.
pub fn replay<R: ByteSource, W: ByteSink>(
    begun: Device,
    from: &mut BufferedReader<R>,
    to: &mut W,
) -> Result<Device, Failure>
    ensures whole { IfOk result (λ after. IfSome (left_in R.remaining from.old) (λ log.
        IsReplayed begun log (W.contents to.old) (W.contents to.new) after)) }
    ensures front { IfSome (left_in R.remaining from.old) (λ log.
        WritesFront (W.contents to.old) (W.contents to.new) (replay_text begun log)) }
    ensures none_waits { OnOk result (W.waiting to.new ≡ []) }
    ensures read { IfErr result (OnFailedRead (W.waiting to.new ≡ [])) }
    ensures broken { IfErr result (OnFailedRead (IfSome (left_in R.remaining from.old) (λ log.
        IfSome (left_in R.remaining from.new) (λ left.
        IsPlayedSoFar begun log left (W.contents to.old) (W.contents to.new))))) }
    ensures err { IfErr result
        (FailureComesOf R.fails_with W.fails_with IsTooLong (left_in R.remaining from.old)) }
    ensures short { IfSome (left_in R.remaining from.old) (λ log. length log < count_most
        → result ≢ Err Failure.TooLong) }
{
    let mut player = Player::new(begun);
    observer::follow(&mut player, from, to)?;
    Ok(player.tested.device)
}
