// The table of the bodies of both classes, a row for each (RULES, Commands; PJLink 1.04, 4.1 to 4.14; RULES, Class 2).
ghost use Rattle.std.specs.Prelude.{◌≡◌, ◌==◌};
ghost use Rattle.words.specs.Classes.{class_as_number};
ghost use Rattle.pjlink.specs.Bodies.{row_of, is_named, is_body, body_named, has_set, has_parameters, has_query};

use self::AnswerKind::{Class, Errors, Freeze, Input, Inputs, Lamps, Mutes, Nothing, Power, Text};
use self::Sets::{
    NamesInput, QueryOnly, SetsFreeze, SetsInput, SetsMute, SetsPower, StepsMicrophone,
    StepsSpeaker,
};
use self::TextRule::{Info, InputName, Name};
use words::byte;
use words::class::ClassNumber;
use words::class::ClassNumber::{One, Two};

/// A body: the four letters that name what a command is about. Each body is of one class; INPT and INST are a body of
/// each.
#[derive(Clone, Copy, Debug, PartialEq, Eq)]
pub enum Body {
    /// POWR: the power (PJLink 1.04, 4.1, 4.2).
    Powr,
    /// INPT under the class: the chosen input (PJLink 1.04, 4.3, 4.4; RULES, Class 2).
    Inpt(ClassNumber),
    /// AVMT: the mutes of video and audio (PJLink 1.04, 4.5, 4.6).
    Avmt,
    /// ERST: the six error digits (PJLink 1.04, 4.7).
    Erst,
    /// LAMP: each lamp's hours, and whether it is lit (PJLink 1.04, 4.8).
    Lamp,
    /// INST under the class: the inputs (PJLink 1.04, 4.9; RULES, Class 2).
    Inst(ClassNumber),
    /// NAME: the projector's name (PJLink 1.04, 4.10).
    Name,
    /// INF1: the maker (PJLink 1.04, 4.11).
    Inf1,
    /// INF2: the model (PJLink 1.04, 4.12).
    Inf2,
    /// INFO: other information (PJLink 1.04, 4.13).
    Info,
    /// CLSS: the class (PJLink 1.04, 4.14).
    Clss,
    /// FREZ: whether the picture is frozen (RULES, Class 2).
    Frez,
    /// SVOL: a step of the speaker's level, which has no query (RULES, Class 2).
    Svol,
    /// MVOL: a step of the microphone's level, which has no query (RULES, Class 2).
    Mvol,
    /// SNUM: the serial number (RULES, Class 2).
    Snum,
    /// SVER: the version of the software (RULES, Class 2).
    Sver,
    /// INNM: the name of the input that follows its `?` (RULES, Class 2).
    Innm,
}

/// What a body sets, if anything. INNM sets nothing; its parameter names an input after the `?`.
#[derive(Clone, Copy)]
pub enum Sets {
    /// POWR: `0` off, `1` on.
    SetsPower,
    /// INPT: chooses the input of its parameter.
    SetsInput,
    /// AVMT: `1` video, `2` audio or `3` both, then `0` off or `1` on.
    SetsMute,
    /// FREZ: `0` off, `1` on.
    SetsFreeze,
    /// SVOL: `0` a step down, `1` a step up.
    StepsSpeaker,
    /// MVOL: `0` a step down, `1` a step up.
    StepsMicrophone,
    /// INNM: nothing; its parameter is `?` and an input.
    NamesInput,
    /// Every other body sets nothing, and `?` is its only parameter.
    QueryOnly,
}

/// The rule that a text follows (RULES, Texts).
#[derive(Clone, Copy)]
pub enum TextRule {
    /// The projector's name: at most 64 bytes, in UTF-8.
    Name,
    /// Maker, model, other information, serial number and version: at most 32 bytes.
    Info,
    /// An input's name: at most 128 bytes.
    InputName,
}

/// The kind of a body's answer: how it is read and written.
#[derive(Clone, Copy)]
pub enum AnswerKind {
    /// Off, on, cooling or warm-up.
    Power,
    /// An input.
    Input,
    /// What is muted.
    Mutes,
    /// Six error digits.
    Errors,
    /// One to eight lamps.
    Lamps,
    /// One to 32 inputs.
    Inputs,
    /// A text that follows a rule. The name of an input is not asked by `?` alone.
    Text(TextRule),
    /// The class.
    Class,
    /// Whether the picture is frozen.
    Freeze,
    /// No answer: `?` does not ask the body.
    Nothing,
}

/// The properties of a body. Rules 1 to 4 (RULES, Commands), its reader and its writer use nothing else of it.
#[derive(Clone, Copy)]
pub struct BodyRow {
    /// The body whose row it is.
    pub body: Body,
    /// The class of the lines that ask for it.
    pub class: ClassNumber,
    /// Its letters, in upper case.
    pub letters: [u8; 4],
    /// What it sets.
    pub set: Sets,
    /// The kind of its answer.
    pub kind: AnswerKind,
    /// Whether it is defined only where there are lamps (rule 1).
    pub lamps: bool,
    /// Whether it is available, for a set or a query, only while the power is on (rule 4).
    pub on: bool,
}

/// Every body: those of Class 1 in the order of RULES, then those of Class 2. It is a static: a constant would be put
/// together on the stack at each look-up.
#[rattlefmt::skip]
pub static BODIES: [BodyRow; 19] = [
    BodyRow { body: Body::Powr, class: One, letters: *b"POWR", set: SetsPower, kind: Power, lamps: false, on: false },
    BodyRow { body: Body::Inpt(One), class: One, letters: *b"INPT", set: SetsInput, kind: Input, lamps: false, on: true
        },
    BodyRow { body: Body::Avmt, class: One, letters: *b"AVMT", set: SetsMute, kind: Mutes, lamps: false, on: true },
    BodyRow { body: Body::Erst, class: One, letters: *b"ERST", set: QueryOnly, kind: Errors, lamps: false, on: false },
    BodyRow { body: Body::Lamp, class: One, letters: *b"LAMP", set: QueryOnly, kind: Lamps, lamps: true, on: false },
    BodyRow { body: Body::Inst(One), class: One, letters: *b"INST", set: QueryOnly, kind: Inputs, lamps: false, on:
        false },
    BodyRow { body: Body::Name, class: One, letters: *b"NAME", set: QueryOnly, kind: Text(Name), lamps: false, on:
        false },
    BodyRow { body: Body::Inf1, class: One, letters: *b"INF1", set: QueryOnly, kind: Text(Info), lamps: false, on:
        false },
    BodyRow { body: Body::Inf2, class: One, letters: *b"INF2", set: QueryOnly, kind: Text(Info), lamps: false, on:
        false },
    BodyRow { body: Body::Info, class: One, letters: *b"INFO", set: QueryOnly, kind: Text(Info), lamps: false, on:
        false },
    BodyRow { body: Body::Clss, class: One, letters: *b"CLSS", set: QueryOnly, kind: Class, lamps: false, on: false },
    BodyRow { body: Body::Frez, class: Two, letters: *b"FREZ", set: SetsFreeze, kind: Freeze, lamps: false, on: true },
    BodyRow { body: Body::Svol, class: Two, letters: *b"SVOL", set: StepsSpeaker, kind: Nothing, lamps: false, on: true
        },
    BodyRow { body: Body::Mvol, class: Two, letters: *b"MVOL", set: StepsMicrophone, kind: Nothing, lamps: false,
          on: true },
    BodyRow { body: Body::Snum, class: Two, letters: *b"SNUM", set: QueryOnly, kind: Text(Info), lamps: false, on:
        false },
    BodyRow { body: Body::Sver, class: Two, letters: *b"SVER", set: QueryOnly, kind: Text(Info), lamps: false, on:
        false },
    BodyRow { body: Body::Innm, class: Two, letters: *b"INNM", set: NamesInput, kind: Text(InputName), lamps: false,
          on: false },
    BodyRow { body: Body::Inpt(Two), class: Two, letters: *b"INPT", set: SetsInput, kind: Input, lamps: false, on: true
        },
    BodyRow { body: Body::Inst(Two), class: Two, letters: *b"INST", set: QueryOnly, kind: Inputs, lamps: false, on:
        false },
];

fn is_same_class(a: ClassNumber, b: ClassNumber) -> bool
    ensures { result ≡ (class_as_number a == class_as_number b) }
{
    a.number() == b.number()
}

impl BodyRow {
    /// Returns whether four letters name the body in a line of the class, whatever their case.
    fn is_named(&self, class: ClassNumber, letters: [u8; 4]) -> bool
        ensures { result ≡ is_named (class_as_number class) letters self.now }
    {
        let [a, b, c, d] = letters;
        let [w, x, y, z] = self.letters;
        is_same_class(class, self.class)
            && byte::upper(a) == w
            && byte::upper(b) == x
            && byte::upper(c) == y
            && byte::upper(d) == z
    }
}

impl Body {
    /// Returns its row of the table.
    pub fn row(self) -> BodyRow
        ensures { result ≡ row_of self }
    {
        match self {
            Body::Powr => BODIES[0],
            Body::Inpt(One) => BODIES[1],
            Body::Avmt => BODIES[2],
            Body::Erst => BODIES[3],
            Body::Lamp => BODIES[4],
            Body::Inst(One) => BODIES[5],
            Body::Name => BODIES[6],
            Body::Inf1 => BODIES[7],
            Body::Inf2 => BODIES[8],
            Body::Info => BODIES[9],
            Body::Clss => BODIES[10],
            Body::Frez => BODIES[11],
            Body::Svol => BODIES[12],
            Body::Mvol => BODIES[13],
            Body::Snum => BODIES[14],
            Body::Sver => BODIES[15],
            Body::Innm => BODIES[16],
            Body::Inpt(Two) => BODIES[17],
            Body::Inst(Two) => BODIES[18],
        }
    }

    /// Returns the body that four letters name in a line of the class, whatever their case. `None` if they name no
    /// body.
    pub fn named(class: ClassNumber, letters: [u8; 4]) -> Option<Body>
        ensures { result ≡ body_named (class_as_number class) letters }
    {
        let row = BODIES.iter().find(|row| row.is_named(class, letters))?;
        Some(row.body)
    }

    /// Returns whether four letters name it in a line of the class, whatever their case.
    pub fn is_named(self, class: ClassNumber, letters: [u8; 4]) -> bool
        ensures { result ≡ is_body (class_as_number class) letters self }
    {
        self.row().is_named(class, letters)
    }

    /// Returns whether it sets something (rule 3).
    pub fn has_set(self) -> bool
        ensures { result ≡ has_set self }
    {
        !matches!(self.row().set, Sets::NamesInput | Sets::QueryOnly)
    }

    /// Returns whether it has a parameter other than `?`. One that it does not know is out of parameter (rules 1 and
    /// 2).
    pub fn has_parameters(self) -> bool
        ensures { result ≡ has_parameters self }
    {
        !matches!(self.row().set, Sets::QueryOnly)
    }

    /// Returns whether `?` asks it.
    pub fn has_query(self) -> bool
        ensures { result ≡ has_query self }
    {
        !matches!(self.row().kind, Text(InputName) | Nothing)
    }
}
