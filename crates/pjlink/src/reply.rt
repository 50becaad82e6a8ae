//! The parameter of a reply, read for the command that it answers (RULES, Controller).
ghost use Rattle.std.specs.Prelude.{◌≡◌};
ghost use Rattle.words.specs.Refusing.{error_reply_digit};
ghost use Rattle.pjlink.specs.Carried.{value_said, parameter_said};
ghost use Rattle.pjlink.specs.CanSay.{is_set, has_own_parameter, is_refusal_to, is_text_by};
ghost use Rattle.pjlink.specs.Reading.{text_or, read_queried, read_value, read_parameter};

use crate::answer::{Answer, Reply};
use crate::body::{AnswerKind, TextRule};
use crate::command::Command;
use words::error_reply::ErrorReply;
use words::{codec, list, texts};

// Returns the text `p` if it is a legal one.
fn text_if(legal: bool, p: &[u8]) -> Option<Answer<'_>>
    ensures { value_said result ≡ text_or legal p.now }
{
    if legal { Some(Answer::Text(p)) } else { None }
}

// Returns whether a text follows a rule.
fn is_text_by(rule: TextRule, s: &[u8]) -> bool
    ensures { result ≡ is_text_by rule s.now }
{
    match rule {
        TextRule::Name => texts::is_name(s),
        TextRule::Info => texts::is_info(s),
        TextRule::InputName => texts::is_input_name(s),
    }
}

fn read_queried(kind: AnswerKind, p: &[u8]) -> Option<Answer<'_>>
    ensures { value_said result ≡ read_queried kind p.now }
{
    match kind {
        AnswerKind::Power => Some(Answer::Power(codec::parse(p)?)),
        AnswerKind::Input => Some(Answer::Input(codec::parse(p)?)),
        AnswerKind::Mutes => Some(Answer::Mutes(codec::parse(p)?)),
        AnswerKind::Errors => Some(Answer::Errors(codec::parse(p)?)),
        AnswerKind::Lamps => Some(Answer::Lamps(list::parse_list(p)?)),
        AnswerKind::Inputs => Some(Answer::Inputs(list::parse_list(p)?)),
        AnswerKind::Text(rule) => text_if(is_text_by(rule, p), p),
        AnswerKind::Class => Some(Answer::Class(codec::parse(p)?)),
        AnswerKind::Freeze => Some(Answer::Freeze(codec::parse(p)?)),
        AnswerKind::Nothing => None,
    }
}

fn is_set(c: Command) -> bool
    ensures { result ≡ is_set c }
{
    !matches!(c, Command::NameQuery(_) | Command::Query(_))
}

// Returns whether the command has a parameter other than `?`, which a projector may not know.
fn has_own_parameter(c: Command) -> bool
    ensures { result ≡ has_own_parameter c }
{
    !matches!(c, Command::Query(_))
}

fn read_value(c: Command, p: &[u8]) -> Option<Answer<'_>>
    ensures { value_said result ≡ read_value c p.now }
{
    if is_set(c) {
        if text::is_same(p, b"OK") {
            return Some(Answer::Done);
        }
        return None;
    }
    read_queried(c.body().row().kind, p)
}

// Returns whether an error reply is allowed in reply to the command: all are, but for ERR2 to `?`.
fn may_refuse(c: Command, r: ErrorReply) -> bool
    ensures { result ≡ is_refusal_to c (error_reply_digit r) }
{
    has_own_parameter(c) || r.number() != 2
}

/// Reads the parameter of a reply to the command. `None` if it is not allowed there.
#[tactic(auto, unfolding(crate::specs::Reading::read_parameter))]
pub fn read_parameter(command: Command, parameter: &[u8]) -> Option<Reply<'_>>
    ensures { parameter_said result ≡ read_parameter command parameter.now }
{
    let refusal: Option<ErrorReply> = codec::parse(parameter);
    if let Some(r) = refusal {
        return if may_refuse(command, r) {
            Some(Err(r))
        } else {
            None
        };
    }
    Some(Ok(read_value(command, parameter)?))
}
