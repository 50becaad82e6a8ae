// A line that does not belong to the history of a record, and what is said of it.
ghost use Rattle.std.specs.Prelude.{◌≡◌, ◌+◌, ◌≤◌, ◌++◌, length, []};
ghost use Rattle.arrayvec.specs.ArrayVec.{array_vec_len};
ghost use Rattle.recorded.specs.Chain.{why_seen, refused_with};
ghost use Rattle.recorded.specs.Following.{stray_seen, misfit_words, stray_text};

use crate::chain::{self, Why};
use crate::play;
use arrayvec::ArrayVec;
use text::numbered::Numbered;

/// The most bytes of the text on a line that does not belong: its number has twenty digits at most.
pub const STRAY_MOST: usize = 64;

/// What is said of a line that does not belong.
pub type StrayText = ArrayVec<u8, STRAY_MOST>;

/// The first line of a log that does not belong.
#[derive(Clone, Copy)]
pub struct StrayLine {
    /// The number of the line in the log, from 1.
    pub line: u64,
    /// Why it does not belong.
    pub why: Why,
}

// Bytes at the end of what is said.
fn put_text(text: &[u8], out: &mut StrayText)
    requires { array_vec_len out.old + length text.now ≤ 64 }
    ensures { out.new.items ≡ out.old.items ++ text.now }
{
    out.try_extend_from_slice(text).unwrap();
}

#[tactic(auto, using(crate::proofs::Followed::stray_lengths))]
fn put_refusal(number: u32, out: &mut StrayText)
    requires { array_vec_len out.old ≤ 29 }
    ensures { out.new.items ≡ out.old.items ++ misfit_words (refused_with number) }
{
    put_text(b"refused with ", out);
    numbers::put_number(number, out);
}

fn put_words(why: &Why, out: &mut StrayText)
    requires { array_vec_len out.old ≤ 29 }
    ensures { out.new.items ≡ out.old.items ++ misfit_words (why_seen why.now) }
{
    match why {
        Why::Unended => put_text(chain::UNENDED.as_bytes(), out),
        Why::SaysNothing => put_text(chain::SAYS_NOTHING.as_bytes(), out),
        Why::OtherFile => put_text(chain::OTHER_FILE.as_bytes(), out),
        Why::OtherSum => put_text(chain::OTHER_SUM.as_bytes(), out),
        Why::OtherCount => put_text(chain::OTHER_COUNT.as_bytes(), out),
        Why::OtherState => put_text(chain::OTHER_STATE.as_bytes(), out),
        Why::OtherPlace => put_text(play::OTHER_PLACE.as_bytes(), out),
        Why::Refused(refusal) => put_refusal(refusal.number(), out),
    }
}

impl StrayLine {
    /// Writes the text on the line, without LF: `! line 5: no line end`.
    #[tactic(auto, using(crate::proofs::Followed::stray_lengths), unfolding(crate::specs::Following::stray_text))]
    pub fn put(&self, out: &mut StrayText)
        requires { out.old.items ≡ [] }
        ensures { out.new.items ≡ stray_text (stray_seen self.now) }
    {
        put_text(b"! line ", out);
        numbers::put_long(self.line, out);
        put_text(b": ", out);
        put_words(&self.why, out);
    }
}
