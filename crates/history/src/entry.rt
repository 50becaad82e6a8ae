// What a line of a log says.
ghost use Rattle.std.specs.Prelude.{◌≡◌};
ghost use Rattle.std.specs.List.{list_all};
ghost use Rattle.history.specs.Entries.{entry_seen, is_sayable_entry, is_visible, is_time};

use crate::call::RecordedCall;
use crate::put;

/// The most characters of a start time.
pub const TIME_MOST: usize = 35;

/// The most bytes of what a record shows.
pub const SHOWN_MOST: usize = 128;

/// The first line of a file of a log.
#[derive(Clone, Copy)]
pub struct Header<'a> {
    /// The number of the file in the chain, from 1.
    pub file: u32,
    /// The sum of everything before: the stored form, then the files before this one.
    pub sum: u32,
    /// When the file was begun, as the host says: 1 to 35 characters `!` to `~` (RFC 3339 is meant).
    pub time: Option<&'a [u8]>,
}

/// What the record shows at a line.
#[derive(Clone, Copy)]
pub struct Stated<'a> {
    /// How many lines came before, since the header.
    pub lines: u32,
    /// The sum of everything before.
    pub sum: u32,
    /// Power and seconds, as `replay` prints them: `power 1 lamps 3600`.
    pub shown: &'a [u8],
}

/// What a line says.
#[derive(Clone, Copy)]
pub enum Entry<'a> {
    /// A file begins.
    Header(Header<'a>),
    /// A call was made.
    Call(RecordedCall<'a>),
    /// What the record shows.
    Stated(Stated<'a>),
}

fn are_visible(s: &[u8]) -> bool
    ensures { result ≡ list_all is_visible s.now }
{
    s.iter().all(|b| b'!' <= *b && *b <= b'~')
}

/// Whether a header can have this start time: 1 to 35 characters `!` to `~`.
#[tactic(auto, unfolding(crate::specs::Entries::is_time))]
pub fn is_time(text: &[u8]) -> bool
    ensures { result ≡ is_time text.now }
{
    1 <= text.len() && text.len() <= TIME_MOST && are_visible(text)
}

impl Entry<'_> {
    /// Whether a line can say it: a header of a file from 1 on, with a start time that it can have; a call that a line
    /// can say ([`RecordedCall::is_sayable`]); of what a record shows 1 to 128 characters ` ` to `~`, the last of them
    /// no
    /// space.
    #[inline(always)]
    pub fn is_sayable(&self) -> bool
        ensures { result ≡ is_sayable_entry (entry_seen self.now) }
    {
        match self {
            Entry::Header(header) => {
                1 <= header.file
                    && match header.time {
                        Some(time) => is_time(time),
                        None => true,
                    }
            }
            Entry::Call(call) => call.is_sayable(),
            Entry::Stated(stated) => put::is_plain(stated.shown)
                && stated.shown.len() <= SHOWN_MOST,
        }
    }
}
