//! The parameter of a reply, as it is written (RULES, Commands).
ghost use Rattle.std.specs.Prelude.{◌≡◌, ◌+◌, ◌≤◌, ◌++◌, length};
ghost use Rattle.arrayvec.specs.ArrayVec.{array_vec_len};
ghost use Rattle.pjlink.specs.Said.{said_bytes};
ghost use Rattle.pjlink.specs.Carried.{answer_said, said_by};

use crate::answer::{Answer, Reply};
use words::codec::{LINE_MOST, LineBytes, Wire};
use words::{codec, list};

#[tactic(auto, unfolding(crate::specs::Said::said_bytes))]
fn put_answer(a: &Answer<'_>, out: &mut LineBytes)
    requires { array_vec_len out.old + length (said_bytes (answer_said a.now)) ≤ LINE_MOST }
    ensures { out.new.items ≡ out.old.items ++ said_bytes (answer_said a.now) }
{
    match a {
        Answer::Done => codec::put_all(b"OK", out),
        Answer::Power(p) => p.put(out),
        Answer::Input(i) => i.put(out),
        Answer::Mutes(mutes) => mutes.put(out),
        Answer::Errors(errors) => errors.put(out),
        Answer::Lamps(lamps) => list::put_list(lamps.as_slice(), out),
        Answer::Inputs(inputs) => list::put_list(inputs.as_slice(), out),
        Answer::Text(text) => codec::put_all(text, out),
        Answer::Class(class) => class.put(out),
        Answer::Freeze(on) => on.put(out),
    }
}

/// Appends the reply's parameter to `out`.
#[tactic(auto, unfolding(crate::specs::Said::said_bytes))]
pub fn put_parameter(reply: &Reply<'_>, out: &mut LineBytes)
    requires { array_vec_len out.old + length (said_bytes (said_by reply.now)) ≤ LINE_MOST }
    ensures { out.new.items ≡ out.old.items ++ said_bytes (said_by reply.now) }
{
    match reply {
        Ok(answer) => put_answer(answer, out),
        Err(refusal) => refusal.put(out),
    }
}
