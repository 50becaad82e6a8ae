// What an event of a log comes to, and how it is printed (RULES, Floor log).
ghost use Rattle.std.specs.Prelude.{◌≡◌, ◌+◌, ◌≤◌, ◌++◌, [], codes, length};
ghost use Rattle.numbers.specs.Decimal.{long_digits};
ghost use Rattle.arrayvec.specs.ArrayVec.{array_vec_len};
ghost use Rattle.device.specs.Calls.{reply_room};
ghost use Rattle.floorlog.specs.Outcomes.{outcome_text, answer_of, IsReplyWithin, reply_text, refusal_shown};
ghost use Rattle.floorlog.specs.Outcomes.{printed_most};

use arrayvec::ArrayVec;
use device::calls::REPLY_ROOM;
use record::refusal::Refusal;
use text::numbered::Numbered;

/// How many bytes a printed line has at most: twenty digits, a space, a reply and LF.
pub const PRINTED_MOST: usize = 158;

/// A line that is being printed.
pub type Printed = ArrayVec<u8, PRINTED_MOST>;

/// What an event of a log comes to.
#[derive(Clone, Copy)]
pub enum EventOutcome {
    /// It was served. Its reply, CR included, has this many bytes: 0 if there is none.
    Served(usize),
    /// The call was refused.
    Refused(Refusal),
    /// The log's place is not closed, and cannot be opened again.
    AlreadyOpen,
    /// The line has none of the forms, and nothing happened.
    NoSuch,
}

// Appends bytes to a line.
pub(crate) fn put_text(text: &[u8], out: &mut Printed)
    requires { array_vec_len out.old + length text.now ≤ printed_most }
    ensures { out.new.items ≡ out.old.items ++ text.now }
{
    out.try_extend_from_slice(text).unwrap();
}

// Appends the reply without its CR, or `-` for none.
fn put_reply(reply: &[u8], out: &mut Printed)
    requires { array_vec_len out.old + length (reply_text reply.now) ≤ printed_most }
    ensures { out.new.items ≡ out.old.items ++ reply_text reply.now }
{
    if reply.is_empty() {
        out.push(b'-');
    } else {
        put_text(&reply[..reply.len() - 1], out);
    }
}

// Appends `! ` and the number of a refusal.
fn put_refusal(number: u32, out: &mut Printed)
    requires { array_vec_len out.old + length (refusal_shown number) ≤ printed_most }
    ensures { out.new.items ≡ out.old.items ++ refusal_shown number }
{
    put_text(b"! ", out);
    numbers::put_number(number, out);
}

impl EventOutcome {
    /// Returns the call's number, 0 if it was served; `None` if the line has no form.
    pub fn answer(self) -> Option<u32>
        ensures { result ≡ answer_of self }
    {
        match self {
            EventOutcome::Served(_) => Some(0),
            EventOutcome::Refused(refusal) => Some(refusal.number()),
            EventOutcome::AlreadyOpen => Some(5),
            EventOutcome::NoSuch => None,
        }
    }

    /// Appends what is printed for it to a line. Its reply is at the start of the memory.
    pub fn put(self, memory: &[u8; REPLY_ROOM], out: &mut Printed)
        requires within { IsReplyWithin self reply_room }
        requires room { array_vec_len out.old + length (outcome_text self memory.now) ≤ printed_most }
        ensures { out.new.items ≡ out.old.items ++ outcome_text self memory.now }
    {
        match self {
            EventOutcome::Served(length) => put_reply(&memory[..length], out),
            EventOutcome::Refused(refusal) => put_refusal(refusal.number(), out),
            EventOutcome::AlreadyOpen => put_refusal(5, out),
            EventOutcome::NoSuch => out.push(b'?'),
        }
    }
    /// Appends the printed line: the line's number, a space, what is printed for it, and LF.
    #[tactic(auto, using(crate::proofs::Outcomes::line_lengths))]
    pub fn put_line(self, number: u64, memory: &[u8; REPLY_ROOM], out: &mut Printed)
        requires empty { out.old.items ≡ [] }
        requires within { IsReplyWithin self reply_room }
        ensures { out.new.items
            ≡ long_digits number ++ codes " " ++ outcome_text self memory.now ++ codes "\n" }
    {
        numbers::put_long(number, out);
        out.push(b' ');
        self.put(memory, out);
        out.push(b'\n');
    }
}
