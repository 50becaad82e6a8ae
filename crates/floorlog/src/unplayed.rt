// What of a floor log is not played: lines that are not understood, and calls that are refused (RULES, The programs).
ghost use Rattle.std.specs.Prelude.{◌≡◌, ◌+◌, ◌<◌, ◌≤◌, ◌++◌, [], length};
ghost use Rattle.std.specs.Prelude.{IsTrue, ◌↔◌};
ghost use Rattle.arrayvec.specs.ArrayVec.{array_vec_len};
ghost use Rattle.floorlog.specs.Unplayed.{begins_opening, begins_stated, begins_as_history, has_byte_order_mark};
ghost use Rattle.floorlog.specs.Unplayed.{ends_with_cr};
ghost use Rattle.floorlog.specs.Unplayed.{why_of_letter, why_misread};
ghost use Rattle.floorlog.specs.Unplayed.{misread_words, none_unplayed, is_of_history, line_noted};
ghost use Rattle.floorlog.specs.Unplayed.{misread_text, refused_words, refused_calls_text, headless_text};
ghost use Rattle.floorlog.specs.Unplayed.{unplayed_text};

use crate::kept::KeptLine;
use crate::kinds;
use crate::line::LOG_LINE_MOST;
use arrayvec::ArrayVec;

/// Why a line is not understood: the first of these that is true of it.
#[derive(Clone, Copy)]
pub enum LineError {
    /// It begins as a header, an opening or a stated line of a history, which a floor log does not have.
    OfHistory,
    /// It has more bytes than a line can have.
    TooLong,
    /// It begins with UTF-8's byte order mark.
    ByteOrderMark,
    /// It ends with CR.
    EndsWithCr,
    /// It has a CR elsewhere.
    HasCr,
    /// It has no byte.
    Empty,
    /// It begins with a NUL.
    Nul,
    /// It is an opening whose random number is not eight lowercase hexadecimal digits.
    RandomWanted,
    /// It lets seconds pass, and their number is none.
    SecondsWanted,
    /// It is, or begins as, the line of a lamp's mark.
    Mark,
    /// It is a closing with more bytes after it.
    NotAlone,
    /// It has the letter of an event, and no space after it.
    SpaceWanted,
    /// It begins with a digit or a bracket, as a timestamp does.
    Stamped,
    /// It begins with no letter of an event.
    NoLetter,
}

/// A line that is not understood.
#[derive(Clone, Copy)]
pub struct MisreadLine {
    /// Its number in the log, from 1.
    pub line: u64,
    /// Why it is not understood.
    pub why: LineError,
}

/// A call that is refused.
#[derive(Clone, Copy)]
pub struct RefusedCall {
    /// The number of its line in the log, from 1.
    pub line: u64,
    /// The number that it gives (RULES, The numbers a call gives).
    pub number: u32,
}

/// What of a floor log is not played.
#[derive(Clone, Copy)]
pub struct Unplayed {
    /// How many lines are not understood.
    pub misread: u64,
    /// The first line that is not understood.
    pub first_misread: Option<MisreadLine>,
    /// How many calls are refused.
    pub refused: u64,
    /// The first call that is refused.
    pub first_refused: Option<RefusedCall>,
    /// Whether one of the lines that are not understood is a line of a history.
    pub has_history: bool,
}

/// How many bytes the words for it have at most. Four numbers in them have up to twenty digits each.
pub const UNPLAYED_MOST: usize = 480;

/// The words for what is not played.
pub type UnplayedText = ArrayVec<u8, UNPLAYED_MOST>;

fn begins_opening(line: &[u8]) -> bool
    ensures { result ≡ begins_opening line.now }
{
    match line {
        [b'O', b' ', place, b' ', ..] => b'0' <= *place && *place <= b'3',
        _ => false,
    }
}

fn begins_stated(line: &[u8]) -> bool
    ensures { result ≡ begins_stated line.now }
{
    match line {
        [b'S', b' ', digit, ..] => b'0' <= *digit && *digit <= b'9',
        _ => false,
    }
}

fn begins_as_history(line: &[u8]) -> bool
    ensures { result ≡ begins_as_history line.now }
{
    kinds::begins_history(line) || begins_opening(line) || begins_stated(line)
}

fn has_byte_order_mark(line: &[u8]) -> bool
    ensures { result ≡ has_byte_order_mark line.now }
{
    match line {
        [239, 187, 191, ..] => true,
        _ => false,
    }
}

fn ends_with_cr(line: &[u8]) -> bool
    ensures { result ≡ ends_with_cr line.now }
{
    match line {
        [.., last] => *last == b'\r',
        _ => false,
    }
}

#[tactic(auto, unfolding(crate::specs::Unplayed::why_of_letter))]
fn why_of_letter(line: &[u8]) -> LineError
    ensures { result ≡ why_of_letter line.now }
{
    match line {
        [] => LineError::Empty,
        [0, ..] => LineError::Nul,
        [b'O', b' ', ..] => LineError::RandomWanted,
        [b'T', b' ', ..] => LineError::SecondsWanted,
        [b'M', b' ', ..] => LineError::Mark,
        [b'X', ..] => LineError::NotAlone,
        [b'O' | b'R' | b'T' | b'M', ..] => LineError::SpaceWanted,
        [b'0'..=b'9' | b'[', ..] => LineError::Stamped,
        _ => LineError::NoLetter,
    }
}

// Returns why a line that has no form has none.
#[tactic(auto, unfolding(crate::specs::Unplayed::why_misread))]
fn why_misread(line: &[u8]) -> LineError
    ensures { result ≡ why_misread line.now }
{
    if begins_as_history(line) {
        return LineError::OfHistory;
    }
    if line.len() > LOG_LINE_MOST {
        return LineError::TooLong;
    }
    if has_byte_order_mark(line) {
        return LineError::ByteOrderMark;
    }
    if ends_with_cr(line) {
        return LineError::EndsWithCr;
    }
    if !words::byte::is_cr_free(line) {
        return LineError::HasCr;
    }
    why_of_letter(line)
}

// Appends bytes to the words.
fn put_text(text: &[u8], out: &mut UnplayedText)
    requires { array_vec_len out.old + length text.now ≤ 480 }
    ensures { out.new.items ≡ out.old.items ++ text.now }
{
    out.try_extend_from_slice(text).unwrap();
}

impl LineError {
    // Returns what is said of it, after the number of the line.
    fn words(self) -> &'static [u8]
        ensures words { result.now ≡ misread_words self }
        ensures short { length result.now ≤ 60 }
    {
        match self {
            LineError::OfHistory => b" is of a history, and no header stands before it",
            LineError::TooLong => b": longer than 4,096 bytes",
            LineError::ByteOrderMark => b": a byte order mark before it",
            LineError::EndsWithCr => b" ends with CR: is this a file with CRLF line ends?",
            LineError::HasCr => b": a CR in it",
            LineError::Empty => b" is empty",
            LineError::Nul => b" begins with a NUL: is this a text?",
            LineError::RandomWanted => b": eight lowercase hex digits wanted",
            LineError::SecondsWanted => b": one to ten digits wanted, at most 4,294,967,295",
            LineError::Mark => b": M, a lamp 1 to 9, and 0 or 1, is for burnt alone",
            LineError::NotAlone => b": X stands alone",
            LineError::SpaceWanted => b": a space wanted behind the letter",
            LineError::Stamped => b" begins with a digit: is it a time stamp?",
            LineError::NoLetter => b" begins with none of O, R, T and X",
        }
    }

    fn is_of_history(self) -> bool
        ensures { result ≡ is_of_history self }
    {
        matches!(self, LineError::OfHistory)
    }
}

impl RefusedCall {
    // Appends why it is refused, after the number of the line.
    #[tactic(auto, using(crate::proofs::UnplayedFits::words_lengths))]
    fn put_words(&self, out: &mut UnplayedText)
        requires { array_vec_len out.old ≤ 320 }
        ensures { out.new.items ≡ out.old.items ++ refused_words self.now.number }
    {
        put_text(b": ", out);
        put_text(reasons::numbers::number_text(self.number).as_bytes(), out);
        put_text(b" (", out);
        numbers::put_number(self.number, out);
        put_text(b")\n", out);
    }
}

impl Unplayed {
    /// Returns what is not played before a log: nothing.
    pub fn new() -> Unplayed
        ensures { result ≡ none_unplayed }
    {
        Unplayed {
            misread: 0,
            first_misread: None,
            refused: 0,
            first_refused: None,
            has_history: false,
        }
    }

    /// Returns whether all was played.
    pub fn is_none(&self) -> bool
        ensures { IsTrue result ↔ (self.now.misread + self.now.refused ≡ 0) }
    {
        self.misread == 0 && self.refused == 0
    }

    /// Notes the line with that number. `answer` is the number of its call, 0 if it was served; `None` if the line has
    /// no form.
    pub fn note(&mut self, number: u64, line: &[u8], answer: Option<u32>)
        requires { self.old.misread + self.old.refused < number }
        ensures noted { self.new ≡ line_noted self.old number (why_misread line.now) answer }
        ensures counted { self.new.misread + self.new.refused ≤ number }
    {
        match answer {
            None => {
                let why = why_misread(line);
                self.misread += 1;
                self.first_misread = self
                    .first_misread
                    .or(Some(MisreadLine { line: number, why }));
                self.has_history = self.has_history || why.is_of_history();
            }
            Some(0) => {}
            Some(refusal) => {
                self.refused += 1;
                self.first_refused = self.first_refused.or(Some(RefusedCall {
                    line: number,
                    number: refusal,
                }));
            }
        }
    }

    // Appends that there are lines of a history, if there are.
    fn put_headless(&self, out: &mut UnplayedText)
        requires { out.old.items ≡ [] }
        ensures text { out.new.items ≡ headless_text self.now.has_history }
        ensures short { array_vec_len out.new ≤ 90 }
    {
        if self.has_history {
            put_text(
                b"the log has lines of a history, and no header: it is read as a log of the other kind\n",
                out,
            );
        }
    }

    // Appends how many lines are not understood, if any, and the first of them.
    #[tactic(auto, using(crate::proofs::UnplayedFits::words_lengths))]
    fn put_misread(&self, out: &mut UnplayedText)
        requires { array_vec_len out.old ≤ 90 }
        ensures text { out.new.items ≡ out.old.items ++ misread_text self.now.misread self.now.first_misread }
        ensures short { array_vec_len out.new ≤ 230 }
    {
        let Some(first) = self.first_misread else {
            return;
        };
        put_text(b"lines not understood: ", out);
        numbers::put_long(self.misread, out);
        put_text(b"; line ", out);
        numbers::put_long(first.line, out);
        put_text(first.why.words(), out);
        out.push(b'\n');
    }

    // Appends how many calls are refused, if any, and the first of them.
    #[tactic(auto, using(crate::proofs::UnplayedFits::words_lengths))]
    fn put_refused(&self, out: &mut UnplayedText)
        requires { array_vec_len out.old ≤ 230 }
        ensures { out.new.items ≡ out.old.items ++ refused_calls_text self.now.refused self.now.first_refused }
    {
        let Some(first) = self.first_refused else {
            return;
        };
        put_text(b"calls refused: ", out);
        numbers::put_long(self.refused, out);
        put_text(b"; line ", out);
        numbers::put_long(first.line, out);
        first.put_words(out);
    }

    /// Puts the words for it in `out`: whether lines are of a history; how many lines are not understood; and how many
    /// calls are refused; the last two with the first of each and why. Each of the three has a line, ended by LF, if
    /// there is something to say.
    #[tactic(auto, unfolding(crate::specs::Unplayed::unplayed_text))]
    pub fn put(&self, out: &mut UnplayedText)
        requires { out.old.items ≡ [] }
        ensures { out.new.items ≡ unplayed_text self.now }
    {
        self.put_headless(out);
        self.put_misread(out);
        self.put_refused(out);
    }
}
