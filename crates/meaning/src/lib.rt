//! What the projector answers to a request and what the request does to it (RULES, Commands), apart from any line.
#![tactic(auto)]

mod change;
mod inputs;
mod rules;
mod table;
pub mod theorems;

ghost use Rattle.std.specs.Prelude.{◌≡◌, Ok};
ghost use Rattle.pjlink.specs.Carried.{said_by};
ghost use Rattle.meaning.specs.Meaning.{answer_for, after_request};

use pjlink::answer::Reply;
use pjlink::command::Command;
use pjlink::request::Unasked;
use record::types::{Own, Settings};
use words::error_reply::ErrorReply;

// Answers a command, and does what it says. The first rule that applies refuses it, and then nothing changes.
#[tactic(auto, unfolding(crate::specs::Meaning::answer_for, crate::specs::Meaning::after_request))]
fn answer<'a>(s: &'a Settings, o: &mut Own, c: Command) -> Reply<'a>
    ensures said { said_by result ≡ answer_for s.now o.old (Ok c) }
    ensures own { o.new ≡ after_request s.now o.old (Ok c) }
{
    if rules::is_undefined(s, c) {
        return Err(ErrorReply::Undefined);
    }
    if rules::is_out_of_parameter(s, c) {
        return Err(ErrorReply::OutOfParameter);
    }
    if rules::is_failure(o, c) {
        return Err(ErrorReply::Failure);
    }
    if rules::is_unavailable(o, c) {
        return Err(ErrorReply::Unavailable);
    }
    // rule 1 has refused a query of a body that has none
    let Some(answer) = table::answer(s, o, c) else {
        return Err(ErrorReply::Undefined);
    };
    change::carry_out(s, o, c);
    Ok(answer)
}

/// Returns the reply of a legal projector to a request, and leaves the own part as the request does.
#[tactic(auto, unfolding(crate::specs::Meaning::answer_for, crate::specs::Meaning::after_request))]
pub fn decide<'a>(
    settings: &'a Settings,
    own: &mut Own,
    request: Result<Command, Unasked>,
) -> Reply<'a>
    ensures said { said_by result ≡ answer_for settings.now own.old request }
    ensures own { own.new ≡ after_request settings.now own.old request }
{
    match request {
        Ok(c) => answer(settings, own, c),
        Err(Unasked::Unlisted(b)) => {
            if b.has_parameters() {
                Err(ErrorReply::OutOfParameter)
            } else {
                Err(ErrorReply::Undefined)
            }
        }
        Err(Unasked::UnknownBody) => Err(ErrorReply::Undefined),
    }
}
