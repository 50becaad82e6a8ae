// The device record (RULES, The legal record): numbers, arrays and structs of these, so that it can cross to C, and any
// bytes are a record. A flag is a number too: 0 or 1 in a legal record, and raised where it is not 0 (`text::flag`).
use words::input::INPUTS_MOST;
use words::lamp::LAMPS_MOST;
use words::texts::INPUT_NAME_MOST;

/// The room of a text, in bytes.
pub const TEXT_ROOM: usize = 64;

/// The room of a list of inputs, two characters each.
pub const INPUT_ROOM: usize = 2 * INPUTS_MOST;

/// A password that secures has this many characters and more (RULES, Passwords).
pub const PASSWORD_LEAST: usize = 8;

/// The most bytes of a line before its CR: a digest of 32 and a command of 135.
pub const LINE_ROOM: usize = 167;

/// The error digits: of fan, lamp, temperature, cover, filter and other.
pub const ERRORS: usize = 6;

/// The places for controllers: so many are connected at once (RULES, Places).
pub const PLACES: usize = 4;

/// A text in its room. Here and in every array: what is not used is zero.
#[repr(C)]
#[derive(Clone, Copy)]
pub struct Text {
    /// How many bytes it has; the field that holds it says how many it may have.
    pub len: usize,
    /// Its bytes at the start, and zero after them.
    pub bytes: [u8; TEXT_ROOM],
}

/// The name of an input in its room (RULES, Class 2).
#[repr(C)]
#[derive(Clone, Copy)]
pub struct InputName {
    /// How many bytes it has, 0 to 128.
    pub len: usize,
    /// Its bytes at the start, each 0x20 to 0xFF (RULES, Texts), and zero after them.
    pub bytes: [u8; INPUT_NAME_MOST],
}

/// What set-up was given, but for the lamps' starting seconds. An input is two ASCII characters.
/// What Class 2 alone has, serial, version and a name for each input, is all zero in Class 1 (RULES, Class 2).
#[repr(C)]
#[derive(Clone, Copy)]
pub struct Settings {
    /// What NAME answers: the projector's name, 0 to 64 bytes in UTF-8 (RULES, Texts; PJLink 1.04, 4.10).
    pub name: Text,
    /// What INF1 answers: the maker, 0 to 32 bytes (RULES, Texts; PJLink 1.04, 4.11).
    pub maker: Text,
    /// What INF2 answers: the model, 0 to 32 bytes (RULES, Texts; PJLink 1.04, 4.12).
    pub model: Text,
    /// What INFO answers: other information, 0 to 32 bytes (RULES, Texts; PJLink 1.04, 4.13).
    pub other: Text,
    /// 0 to 32 ASCII letters and digits, and not 1 to 7; length 0 means no security (RULES, Passwords).
    pub password: Text,
    /// How many inputs are listed, 1 to 32 (RULES, Inputs).
    pub input_count: usize,
    /// Two ASCII characters an input, `11` or `59`, of Class 2 also `6A`: all different, in the order of INST.
    pub inputs: [u8; INPUT_ROOM],
    /// How many lamps there are, 0 to 8 (RULES, Lamps).
    pub lamp_count: usize,
    /// W, the seconds of warm-up: 1 to 600.
    pub warm: u32,
    /// C, the seconds of cooling: 1 to 600.
    pub cool: u32,
    /// The class of the set-up, 1 or 2 (RULES, Class 2).
    pub class_number: u8,
    /// What SNUM answers: the serial number, 0 to 32 bytes, in Class 1 none (RULES, Texts).
    pub serial: Text,
    /// What SVER answers: the version of the software, 0 to 32 bytes, in Class 1 none (RULES, Texts).
    pub version: Text,
    /// What INNM answers: a name for each input, in the inputs' order; all zero past the inputs, and in Class 1.
    pub names: [InputName; INPUTS_MOST],
}

/// The projector's own part, which no connection touches but by a command.
#[repr(C)]
#[derive(Clone, Copy)]
pub struct Own {
    /// As POWR answers it: 0 off, 1 on, 2 cooling, 3 warm-up (PJLink 1.04, 4.2).
    pub power: u8,
    /// Seconds left of warm-up, 1 to W, or of cooling, 1 to C; else 0.
    pub left: u32,
    /// The place of the chosen input in the list, from 0: below the count of inputs.
    pub chosen: usize,
    /// A flag: the picture is muted (AVMT; PJLink 1.04, 4.5).
    pub video_muted: u8,
    /// A flag: the sound is muted (AVMT; PJLink 1.04, 4.5).
    pub audio_muted: u8,
    /// A flag, the host's fault mark: with it POWR, INPT, AVMT, FREZ, SVOL and MVOL answer ERR4 (RULES, Commands,
    /// Class 2).
    pub fault: u8,
    /// What ERST answers of fan, lamp, temperature, cover, filter and other, as numbers and not characters:
    /// 0 no error or not known, 1 a warning, 2 an error (PJLink 1.04, 4.7).
    pub errors: [u8; ERRORS],
    /// The seconds that each lamp has burnt, at most 359,999,999 (RULES, Lamps); zero past the lamps.
    pub lamps: [u32; LAMPS_MOST],
    /// A flag for each lamp, its mark: without it the lamp stays dark. At least one is raised where there are lamps,
    /// none past them.
    pub enabled: [u8; LAMPS_MOST],
    /// A flag: the picture stands still, and FREZ alone changes it (RULES, Class 2).
    pub frozen: u8,
    /// The level of the speaker, 0 to 20, 10 at set-up: SVOL alone changes it (RULES, Class 2).
    pub speaker: u8,
    /// The level of the microphone, 0 to 20, 10 at set-up: MVOL alone changes it (RULES, Class 2).
    pub microphone: u8,
}

/// What is collected of a line.
#[repr(C)]
#[derive(Clone, Copy)]
pub struct CollectedLine {
    /// A flag: the line is longer than its phase allows, and nothing is collected of it (RULES, Connection).
    pub overlong: u8,
    /// How many bytes are collected: at most 167 while awaiting, 135 while open, else 0; 0 under the overlong mark.
    pub held: usize,
    /// The collected bytes at the start, none of them CR, and zero after them.
    pub bytes: [u8; LINE_ROOM],
}

/// What is kept of the controller at a place.
#[repr(C)]
#[derive(Clone, Copy)]
pub struct Connection {
    /// 0 closed, 1 awaiting the first line, 2 open, 3 failed (RULES, The legal record).
    pub phase: u8,
    /// Seconds since it began to await, or failed: 0 to 29, since at 30 it is closed. 0 while closed or open.
    pub age: u32,
    /// The random number that the host lent at its opening; 0 while closed.
    pub random: u32,
    /// What is collected of the line under way: nothing, and no mark, between lines.
    pub line: CollectedLine,
}

/// The device record: what a host keeps of a projector, and lends to each call.
#[repr(C)]
#[derive(Clone, Copy)]
pub struct Device {
    /// What set-up was given, or a stored form had: no other call changes it.
    pub settings: Settings,
    /// What all controllers share.
    pub own: Own,
    /// One a place, 0 to 3: the host keeps one socket a place (RULES, Places).
    pub connections: [Connection; PLACES],
}

impl Text {
    /// The text of no bytes.
    pub const EMPTY: Text = Text {
        len: 0,
        bytes: [0; TEXT_ROOM],
    };
}

impl InputName {
    /// The name of no bytes.
    pub const EMPTY: InputName = InputName {
        len: 0,
        bytes: [0; INPUT_NAME_MOST],
    };
}

impl Own {
    /// All zero: off, both mutes off, the first input, no fault, error status 000000, no lamp enabled, not frozen, no
    /// volume.
    pub const BLANK: Own = Own {
        power: 0,
        left: 0,
        chosen: 0,
        video_muted: 0,
        audio_muted: 0,
        fault: 0,
        errors: [0; ERRORS],
        lamps: [0; LAMPS_MOST],
        enabled: [0; LAMPS_MOST],
        frozen: 0,
        speaker: 0,
        microphone: 0,
    };
}

impl Connection {
    /// All zero: closed, with nothing collected of a line.
    pub const CLOSED: Connection = Connection {
        phase: 0,
        age: 0,
        random: 0,
        line: CollectedLine {
            overlong: 0,
            held: 0,
            bytes: [0; LINE_ROOM],
        },
    };
}

impl Device {
    /// All zero: what a refused set-up returns. It has no input, so it is not legal.
    pub const BLANK: Device = Device {
        settings: Settings {
            name: Text::EMPTY,
            maker: Text::EMPTY,
            model: Text::EMPTY,
            other: Text::EMPTY,
            password: Text::EMPTY,
            input_count: 0,
            inputs: [0; INPUT_ROOM],
            lamp_count: 0,
            warm: 0,
            cool: 0,
            class_number: 0,
            serial: Text::EMPTY,
            version: Text::EMPTY,
            names: [InputName::EMPTY; INPUTS_MOST],
        },
        own: Own::BLANK,
        connections: [Connection::CLOSED; PLACES],
    };
}

/// What a set-up is given, in the order in which it is tested (RULES, The legal record and Class 2).
#[derive(Clone, Copy, Debug, PartialEq, Eq)]
pub enum Setting {
    /// Place 1: the projector's name, 0 to 64 bytes in UTF-8 (RULES, Texts).
    Name,
    /// Place 2: the maker, 0 to 32 bytes (RULES, Texts).
    Maker,
    /// Place 3: the model, 0 to 32 bytes (RULES, Texts).
    Model,
    /// Place 4: other information, 0 to 32 bytes (RULES, Texts).
    Other,
    /// Place 5: 0 to 32 ASCII letters and digits; here 1 to 7 are in range too (RULES, Passwords).
    Password,
    /// Place 6: 1 to 32 inputs of the class, all different (RULES, Inputs).
    Inputs,
    /// Place 7: the starting seconds of 0 to 8 lamps, each at most 359,999,999 (RULES, Lamps).
    Lamps,
    /// Place 8: W, 1 to 600 seconds.
    WarmUp,
    /// Place 9: C, 1 to 600 seconds.
    Cooling,
    /// Place 10: the serial number, 0 to 32 bytes; in Class 1 none (RULES, Texts).
    Serial,
    /// Place 11: the version of the software, 0 to 32 bytes; in Class 1 none (RULES, Texts).
    Version,
    /// Place 12: a name of 0 to 128 bytes for each input; in Class 1 none (RULES, Texts).
    Names,
}
