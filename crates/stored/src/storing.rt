// Storing a record (RULES, Stored form, Lamps and Class 2): its settings, each lamp's seconds as they are now, and its
// enabled mark. The parts stand in the order of the form.
ghost use Rattle.std.specs.Prelude.{◌≡◌, ◌+◌, ◌^◌, ◌<◌, ◌≤◌, length};
ghost use Rattle.text.specs.Words.{over};
ghost use Rattle.text.specs.Outcomes.{with_length};
ghost use Rattle.lent.specs.Puts.{Puts};
ghost use Rattle.record.specs.Legal.{is_legal};
ghost use Rattle.record.specs.Facts.{IsSettings, IsLegal};
ghost use Rattle.stored.specs.Form.{parts_written, parts_with_class, said_stored, stored_form, stored_by};

use crate::putting;
use lent::MemoryWriter;
use record::refusal::Refusal;
use record::types::Device;

/// The newest version, which is written: it has a class (RULES, Class 2).
pub const VERSION: u8 = 3;

/// No form of a record is longer: memory that has room for so many bytes is not measured.
pub const FORM_MOST: usize = 4504;

// The class, and what Class 2 alone has.
fn class_part(w: &mut MemoryWriter<'_>, d: &Device)
    requires legal { IsSettings d.now.settings }
    requires short { w.old.at + 4300 < 2 ^ 64 }
    ensures { Puts w.old w.new (parts_written parts_with_class (said_stored d.now)) }
{
    let s = &d.settings;
    w.byte(s.class_number);
    if s.class_number != 2 {
        return;
    }
    putting::text(w, &s.serial);
    putting::text(w, &s.version);
    putting::names(w, &s.names[..s.input_count]);
}

// The form of a legal record.
fn form(w: &mut MemoryWriter<'_>, d: &Device)
    requires legal { IsLegal d.now }
    requires first { w.old.at ≡ 0 }
    ensures { Puts w.old w.new (stored_form d.now) }
{
    let s = &d.settings;
    let inputs = &s.inputs[..2 * s.input_count];
    w.byte(VERSION);
    putting::text(w, &s.name);
    putting::text(w, &s.maker);
    putting::text(w, &s.model);
    putting::text(w, &s.other);
    putting::text(w, &s.password);
    putting::section(w, inputs.len() / 2, inputs);
    putting::seconds(w, &d.own.lamps[..s.lamp_count]);
    putting::section(w, s.lamp_count, &d.own.enabled[..s.lamp_count]);
    putting::number(w, s.warm);
    putting::number(w, s.cool);
    class_part(w, d);
}

// The length of the form of a legal record.
fn form_length(d: &Device) -> usize
    requires { IsLegal d.now }
    ensures { result ≡ length (stored_form d.now) }
{
    let mut none = [];
    let mut counting = MemoryWriter::new(&mut none);
    form(&mut counting, d);
    counting.count()
}

/// The form of a legal record, from the start of memory that has room for it; its length.
#[tactic(auto, using(lent::proofs::Writing::written_over))]
pub fn put_form(device: &Device, out: &mut [u8]) -> usize
    requires legal { IsLegal device.now }
    requires fits { length (stored_form device.now) ≤ length out.old }
    ensures count { result ≡ length (stored_form device.now) }
    ensures written { out.new ≡ over (stored_form device.now) out.old }
{
    let mut writer = MemoryWriter::new(out);
    form(&mut writer, device);
    writer.count()
}

/// The form of a record, from the start of lent memory; its length. Refused, in that order: `NotLegal`, and `NoRoom`
/// for memory shorter than the form; then nothing is written.
#[tactic(auto, using(crate::proofs::FormMost::stored_fits), unfolding(crate::specs::Form::stored_by))]
pub fn store(device: &Device, out: &mut [u8]) -> Result<usize, Refusal>
    ensures says { result ≡ with_length (stored_by device.now (length out.old)) }
    ensures written { out.new ≡ over (stored_by device.now (length out.old)).bytes out.old }
{
    if !device.is_legal() {
        return Err(Refusal::NotLegal);
    }
    if out.len() < FORM_MOST && out.len() < form_length(device) {
        return Err(Refusal::NoRoom);
    }
    Ok(put_form(device, out))
}
