// The commands that the writer can write, and their lines (PJLink 1.04, 2.1 and 4.1 to 4.14; RULES, Class 2).
ghost use Rattle.std.specs.Prelude.{◌≡◌, ◌++◌, ◌+◌, ◌≤◌, true};
ghost use Rattle.arrayvec.specs.ArrayVec.{array_vec_len};
ghost use Rattle.words.specs.Classes.{class_as_number};
ghost use Rattle.words.specs.Codec.{Plain};
ghost use Rattle.pjlink.specs.Commands.{volume_body, body_of, command_class, parameter_of, is_command, command_line};
ghost use Rattle.pjlink.specs.Commands.{half_code, half_named, half_text, half_read};
ghost use Rattle.pjlink.specs.Laws.{half_codec};

use crate::body::Body;
use words::class::ClassNumber;
use words::codec::{LINE_MOST, LineBytes, Wire};
use words::input::Input;
use words::{codec, input};

/// What AVMT mutes.
#[derive(Clone, Copy)]
pub enum Half {
    /// The picture: `1` in AVMT's parameter (PJLink 1.04, 4.5).
    VideoHalf,
    /// The sound: `2` in AVMT's parameter.
    AudioHalf,
    /// Both: `3` in AVMT's parameter.
    BothHalves,
}

/// The level that a step changes.
#[derive(Clone, Copy)]
pub enum Volume {
    /// The speaker's level, which SVOL steps (RULES, Class 2).
    Speaker,
    /// The microphone's level, which MVOL steps (RULES, Class 2).
    Microphone,
}

/// A command that the writer can write: a set, the query of an input's name, or `?` to any body that has it.
#[derive(Clone, Copy)]
pub enum Command {
    /// POWR: power on if true, off if false (PJLink 1.04, 4.1).
    PowerSet(bool),
    /// INPT under the class: chooses the input (PJLink 1.04, 4.3; RULES, Class 2).
    InputSet(ClassNumber, Input),
    /// AVMT: mutes the half if true, unmutes it if false. The half that is not named stays as it is (PJLink 1.04, 4.5).
    MuteSet(Half, bool),
    /// FREZ: freezes the picture if true, unfreezes it if false (RULES, Class 2).
    FreezeSet(bool),
    /// SVOL or MVOL: a step up if true, down if false (RULES, Class 2).
    VolumeStep(Volume, bool),
    /// INNM: asks the name of the input (RULES, Class 2).
    NameQuery(Input),
    /// `?` to the body, any but SVOL, MVOL and INNM (RULES, Commands and Class 2).
    Query(Body),
}

impl Command {
    /// Returns the body that the command is about.
    pub fn body(self) -> Body
        ensures { result ≡ body_of self }
    {
        match self {
            Command::PowerSet(_) => Body::Powr,
            Command::InputSet(k, _) => Body::Inpt(k),
            Command::MuteSet(_, _) => Body::Avmt,
            Command::FreezeSet(_) => Body::Frez,
            Command::VolumeStep(v, _) => volume_body(v),
            Command::NameQuery(_) => Body::Innm,
            Command::Query(b) => b,
        }
    }

    /// Returns the class of its line.
    pub fn class(self) -> ClassNumber
        ensures { class_as_number result ≡ command_class self }
    {
        self.body().row().class
    }

    /// Returns whether its line can be written: two characters can name its input, and `?` asks the body that it
    /// queries.
    pub fn is_legal(self) -> bool
        ensures { result ≡ is_command self }
    {
        match self {
            Command::InputSet(_, i) | Command::NameQuery(i) => input::is_input(i),
            Command::Query(b) => b.has_query(),
            _ => true,
        }
    }

    fn put_parameter(self, out: &mut LineBytes)
        requires { array_vec_len out.old + 3 ≤ LINE_MOST }
        ensures { out.new.items ≡ out.old.items ++ parameter_of self }
    {
        match self {
            Command::PowerSet(on) | Command::FreezeSet(on) | Command::VolumeStep(_, on) => {
                on.put(out)
            }
            Command::InputSet(_, i) => i.put(out),
            Command::MuteSet(half, on) => {
                half.put(out);
                on.put(out);
            }
            Command::NameQuery(i) => {
                out.push(b'?');
                i.put(out);
            }
            Command::Query(_) => out.push(b'?'),
        }
    }

    /// Appends its line to `out`, with its CR: 11 bytes at most.
    pub fn put(self, out: &mut LineBytes)
        requires { array_vec_len out.old + 11 ≤ LINE_MOST }
        ensures { out.new.items ≡ out.old.items ++ command_line self }
    {
        let row = self.body().row();
        out.push(b'%');
        row.class.put(out);
        codec::put_all(&row.letters, out);
        out.push(b' ');
        self.put_parameter(out);
        out.push(b'\r');
    }
}

fn volume_body(v: Volume) -> Body
    ensures { result ≡ volume_body v }
{
    match v {
        Volume::Speaker => Body::Svol,
        Volume::Microphone => Body::Mvol,
    }
}

fn half_code(h: Half) -> u8
    ensures { result ≡ half_code h }
{
    match h {
        Half::VideoHalf => b'1',
        Half::AudioHalf => b'2',
        Half::BothHalves => b'3',
    }
}

fn half_named(b: u8) -> Option<Half>
    ensures { result ≡ half_named b }
{
    match b {
        b'1' => Some(Half::VideoHalf),
        b'2' => Some(Half::AudioHalf),
        b'3' => Some(Half::BothHalves),
        _ => None,
    }
}

impl Wire for Half {
    ghost legal = { λ _. true };

    ghost text = { half_text };

    ghost writes = { Plain (λ _. true) half_text };

    ghost read = { half_read };

    fn put(self, out: &mut LineBytes) {
        out.push(half_code(self));
    }

    fn take(bytes: &[u8]) -> Option<(Half, &[u8])> {
        codec::letter(bytes, half_named)
    }

    ghost codec = { half_codec };
}
