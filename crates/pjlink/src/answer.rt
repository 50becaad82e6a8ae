//! What a projector says to a command, apart from its bytes (RULES, Commands and Class 2).

use arrayvec::ArrayVec;
use words::class::ClassNumber;
use words::error_reply::ErrorReply;
use words::errors::ErrorStatus;
use words::input::{INPUTS_MOST, Input};
use words::lamp::{LAMPS_MOST, LampHours};
use words::mutes::Mutes;
use words::power::PowerStatus;

/// The answer to a command that no rule refuses (RULES, Commands).
#[derive(Drop)]
pub enum Answer<'a> {
    /// OK, the answer to a set.
    Done,
    /// The power.
    Power(PowerStatus),
    /// The input that is chosen.
    Input(Input),
    /// What is muted.
    Mutes(Mutes),
    /// Fan, lamp, temperature, cover, filter, other: 0 no error or not known, 1 a warning, 2 an error.
    Errors(ErrorStatus),
    /// The lamps, in order.
    Lamps(ArrayVec<LampHours, LAMPS_MOST>),
    /// The inputs, in order.
    Inputs(ArrayVec<Input, INPUTS_MOST>),
    /// A name, or another text.
    Text(&'a [u8]),
    /// The class.
    Class(ClassNumber),
    /// Whether the picture is frozen.
    Freeze(bool),
}

/// What a projector sends back for a command: an answer, or the error reply that refuses it.
pub type Reply<'a> = Result<Answer<'a>, ErrorReply>;
