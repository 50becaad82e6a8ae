// The fields of a stored form (RULES, Stored form), each put after what a writer has written.
ghost use Rattle.std.specs.Prelude.{◌+◌, ◌*◌, ◌^◌, ◌<◌, ◌≤◌, All, length, map};
ghost use Rattle.lent.specs.Puts.{Puts};
ghost use Rattle.numbers.specs.HighestFirst.{highest_first};
ghost use Rattle.words.specs.Texts.{input_name_most};
ghost use Rattle.record.specs.Limits.{text_room, lamps_most};
ghost use Rattle.stored.specs.Sections.{section, text_section, seconds_bytes, texts_bytes};
ghost use Rattle.stored.specs.Form.{text_stored, name_stored};

use lent::MemoryWriter;
use numbers::highest;
use record::types::{InputName, Text};

/// Puts a number of two bytes, the highest first.
pub fn number(writer: &mut MemoryWriter<'_>, value: u32)
    requires { writer.old.at + 2 < 2 ^ 64 }
    ensures written { Puts writer.old writer.new (highest_first 2 value) }
    ensures bound { writer.new.at ≤ writer.old.at + 2 }
{
    writer.bytes(&highest::two_bytes(value));
}

/// Puts what is counted, after its count.
pub fn section(writer: &mut MemoryWriter<'_>, count: usize, items: &[u8])
    requires few { count < 256 }
    requires short { writer.old.at + 1 + length items.now < 2 ^ 64 }
    ensures written { Puts writer.old writer.new (section count items.now) }
    ensures bound { writer.new.at ≤ writer.old.at + 1 + length items.now }
{
    writer.byte(count as u8);
    writer.bytes(items);
}

/// Puts a text.
pub fn text(writer: &mut MemoryWriter<'_>, text: &Text)
    requires inside { text.now.len ≤ text_room }
    requires short { writer.old.at + 65 < 2 ^ 64 }
    ensures written { Puts writer.old writer.new (text_section (text_stored text.now)) }
    ensures bound { writer.new.at ≤ writer.old.at + 65 }
{
    let s = &text.bytes[..text.len];
    section(writer, s.len(), s);
}

// Puts an input's name.
fn input_name(w: &mut MemoryWriter<'_>, t: &InputName)
    requires inside { t.now.len ≤ input_name_most }
    requires short { w.old.at + 129 < 2 ^ 64 }
    ensures written { Puts w.old w.new (text_section (name_stored t.now)) }
    ensures bound { w.new.at ≤ w.old.at + 129 }
{
    let s = &t.bytes[..t.len];
    section(w, s.len(), s);
}

/// Puts names, one after the other.
pub fn names(writer: &mut MemoryWriter<'_>, names: &[InputName])
    requires inside { All (λ t. t.len ≤ input_name_most) names.now }
    requires short { writer.old.at + 129 * length names.now < 2 ^ 64 }
    ensures { Puts writer.old writer.new (texts_bytes (map name_stored names.now)) }
{
    for name in names {
        input_name(writer, name);
    }
}

/// Puts the seconds of lamps.
pub fn seconds(writer: &mut MemoryWriter<'_>, lamps: &[u32])
    requires few { length lamps.now ≤ lamps_most }
    requires short { writer.old.at + 33 < 2 ^ 64 }
    ensures written { Puts writer.old writer.new (section (length lamps.now) (seconds_bytes lamps.now)) }
    ensures bound { writer.new.at ≤ writer.old.at + 33 }
{
    writer.byte(lamps.len() as u8);
    for &x in lamps {
        writer.bytes(&highest::four_bytes(x));
    }
}
