// A log of either kind played back.
ghost use Rattle.std.specs.Prelude.{◌≡◌, ◌≢◌, ◌<◌, [], OnOk, IfOk, IfErr, IfSome, Err, length, option_map};
ghost use Rattle.std.specs.Io.KnownBytes.{Appends};
ghost use Rattle.textio.specs.Lines.{count_most, IsTooLong};
ghost use Rattle.textio.specs.Fronts.{WritesFront};
ghost use Rattle.textio.specs.Ahead.{left_in};
ghost use Rattle.textio.specs.NextLine.{FailureComesOf, OnFailedRead};
ghost use Rattle.recorded.specs.Following.{stray_seen};
ghost use Rattle.replay.specs.LogText.{any_log_text, log_stray, log_unplayed, IsPrintedSoFar};

use crate::playing::HistoryPlayer;
use floorlog::kinds::ByKind;
use floorlog::observer;
use floorlog::playing::Player;
use floorlog::unplayed::Unplayed;
use program::telling::Ending;
use record::types::Device;
use textio::lines::Failure;
use textio::reader::{BufferedReader, ByteSource};
use textio::writer::ByteSink;

/// Replays the log that is left in a reader, of either kind, from a device, which need not be legal, and whose stored
/// form has this sum. Writes the answers to its lines, the line of power and lamps, and which line of a history does
/// not belong to `to`, and flushes it before each read, which may wait. Returns that line, if any, and what of a log of
/// the first kind was not played.
pub fn replay_log<R: ByteSource, W: ByteSink>(
    begun: Device,
    sum: u32,
    from: &mut BufferedReader<R>,
    to: &mut W,
) -> Result<Ending, Failure>
    ensures whole { OnOk result (IfSome (left_in R.remaining from.old) (λ log.
        Appends (W.contents to.old) (W.contents to.new) (any_log_text begun sum log))) }
    ensures stray { IfOk result (λ ending. IfSome (left_in R.remaining from.old) (λ log.
        option_map stray_seen ending.stray ≡ log_stray begun sum log)) }
    ensures unplayed { IfOk result (λ ending. IfSome (left_in R.remaining from.old) (λ log.
        ending.unplayed ≡ log_unplayed begun log)) }
    ensures front { IfSome (left_in R.remaining from.old) (λ log.
        WritesFront (W.contents to.old) (W.contents to.new) (any_log_text begun sum log)) }
    ensures none_waits { OnOk result (W.waiting to.new ≡ []) }
    ensures read { IfErr result (OnFailedRead (W.waiting to.new ≡ [])) }
    ensures broken { IfErr result (OnFailedRead (IfSome (left_in R.remaining from.old) (λ log.
        IfSome (left_in R.remaining from.new) (λ left.
        IsPrintedSoFar begun sum log left (W.contents to.old) (W.contents to.new))))) }
    ensures err { IfErr result
        (FailureComesOf R.fails_with W.fails_with IsTooLong (left_in R.remaining from.old)) }
    ensures short { IfSome (left_in R.remaining from.old) (λ log. length log < count_most
        → result ≢ Err Failure.TooLong) }
{
    let events = Player::new(begun);
    let history = HistoryPlayer::new(begun, sum);
    let mut players = ByKind::new(events, history);
    observer::follow(&mut players, from, to)?;
    Ok(if players.is_history() {
        Ending {
            stray: players.history.stray(),
            unplayed: Unplayed::new(),
        }
    } else {
        Ending {
            stray: None,
            unplayed: players.events.unplayed(),
        }
    })
}
