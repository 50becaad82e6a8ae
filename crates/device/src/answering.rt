//! A line on an open connection: decided over what it asks, then written.
ghost use Rattle.std.specs.Prelude.{◌≡◌, ◌≤◌, length, []};
ghost use Rattle.words.specs.Classes.{class_code};
ghost use Rattle.pjlink.specs.Forms.{reply_line};
ghost use Rattle.pjlink.specs.Said.{parameter_most, said_bytes};
ghost use Rattle.pjlink.specs.Carried.{said_by};
ghost use Rattle.device.specs.Ready.{IsReady};
ghost use Rattle.device.specs.Answering.{line_answer};

use pjlink::answer::Reply;
use pjlink::{form, request, write};
use record::types::{Own, Settings};
use words::class::ClassNumber;
use words::codec;
use words::codec::LineBytes;

// Puts the reply to a line of this class and these letters.
fn put_reply(class: ClassNumber, letters: [u8; 4], reply: &Reply<'_>, out: &mut LineBytes)
    requires fits { length (said_bytes (said_by reply.now)) ≤ parameter_most }
    requires empty { out.old.items ≡ [] }
    ensures { out.new.items ≡ reply_line (class_code class) letters (said_bytes (said_by reply.now)) }
{
    let [a, b, c, d] = letters;
    codec::put_all(&[b'%', class.code(), a, b, c, d, b'='], out);
    write::put_parameter(reply, out);
    out.push(b'\r');
}

/// Decides what the line asks, and puts the reply to it; a line not of the form is swallowed.
#[tactic(auto, using(meaning::proofs::CanBeSaid::meant_fits), unfolding(crate::specs::Answering::line_answer))]
pub fn answer_line(settings: &Settings, own: &mut Own, bytes: &[u8], out: &mut LineBytes)
    requires ready { IsReady settings.now own.old }
    requires empty { out.old.items ≡ [] }
    ensures reply { out.new.items ≡ (line_answer settings.now own.old bytes.now).reply }
    ensures own { own.new ≡ (line_answer settings.now own.old bytes.now).own }
{
    let Some(line) = form::command(settings.class(), bytes) else {
        return;
    };
    let asked = request::request(line.class, line.letters, line.parameter);
    let reply = meaning::decide(settings, own, asked);
    put_reply(line.class, line.letters, &reply, out);
}
