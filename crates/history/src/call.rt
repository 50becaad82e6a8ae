// A call that can change a record, as a log keeps it.
ghost use Rattle.std.specs.Prelude.{◌≡◌};
ghost use Rattle.words.specs.ErrorDigits.{is_errors};
ghost use Rattle.history.specs.Calls.{call_seen, is_sayable};

use words::errors::ErrorStatus;

/// The most bytes that one call of a log receives.
pub const RECEIVED_MOST: usize = 2046;

/// A call that can change a record. A place is 0 to 3, a lamp 0 to 7.
#[derive(Clone, Copy)]
pub enum RecordedCall<'a> {
    /// A connection opened with this random number, and got this place.
    Opens(u8, u32),
    /// These bytes were received at this place, in one call.
    Receives(u8, &'a [u8]),
    /// So many seconds passed.
    Passes(u32),
    /// The connection at this place was closed.
    Closes(u8),
    /// The fault mark was set, or cleared.
    Fault(bool),
    /// The six error digits were set.
    Errors(ErrorStatus),
    /// A lamp, counted from 0, was enabled, or disabled.
    Mark(u8, bool),
}

fn are_errors(status: &ErrorStatus) -> bool
    ensures { result ≡ is_errors status.now.digits }
{
    let [fan, lamp, temperature, cover, filter, other] = status.digits;
    fan <= 2 && lamp <= 2 && temperature <= 2 && cover <= 2 && filter <= 2 && other <= 2
}

impl RecordedCall<'_> {
    /// Whether a line can say it: the place or lamp exists, at most 2,046 bytes are received, and the error digits are
    /// 0 to 2.
    #[inline(always)]
    pub fn is_sayable(&self) -> bool
        ensures { result ≡ is_sayable (call_seen self.now) }
    {
        match self {
            RecordedCall::Opens(place, _) => *place <= 3,
            RecordedCall::Receives(place, bytes) => *place <= 3 && bytes.len() <= RECEIVED_MOST,
            RecordedCall::Passes(_) => true,
            RecordedCall::Closes(place) => *place <= 3,
            RecordedCall::Fault(_) => true,
            RecordedCall::Errors(status) => are_errors(status),
            RecordedCall::Mark(lamp, _) => *lamp <= 7,
        }
    }
}
