// The panel's record (RULES, Panel): numbers, arrays and structs of these, so that C can pass it and any bytes of it
// are a panel. A flag is 0 or 1 in a legal panel, and set if it is not 0 (`text::flag`). What is not known, not under
// way or past a count is zero. `talk` says what its numbers mean.
use codes::command::Coded;
use words::lamp::LAMPS_MOST;

/// How many bytes the array of a password has (`pj_text`).
pub const PASSWORD_ROOM: usize = 64;

/// How many projectors a panel has at most.
pub const PANEL_MOST: usize = 8;

/// How many hours a lamp has at most.
pub const HOURS_MOST: u32 = 99_999;

/// The count of strays stops here.
pub const STRAYS_MOST: u32 = 65_535;

/// A password in its room: the unused part is zero.
#[repr(C)]
#[derive(Clone, Copy)]
pub struct Password {
    /// The number of its characters, 0 to 32; 0 if the projector has none (RULES, Passwords).
    pub len: usize,
    /// ASCII letters and digits at the start, and zero after them.
    pub bytes: [u8; PASSWORD_ROOM],
}

/// One projector (`pj_entry`).
#[repr(C)]
#[derive(Clone, Copy)]
pub struct PanelEntry {
    /// The projector's password. One of 1 to 7 characters is accepted too.
    pub password: Password,
    /// The greeting that it has sent: 0 none yet, 1 `PJLINK 0`, 2 `PJLINK 1` (`enum pj_awaited`).
    pub greeting: u8,
    /// The random number of `PJLINK 1`; 0 with any other greeting.
    pub random: u32,
    /// A flag: the digest was sent since that greeting; 0 with any but `PJLINK 1`.
    pub led: u8,
    /// A flag: a command was sent and its reply is awaited; 0 without a greeting.
    pub under_way: u8,
    /// That command, as it was given; all three numbers are 0 if there is none.
    pub command: Coded,
    /// A flag: a reply gave the power, and no ERRA has made all unknown since.
    pub power_known: u8,
    /// A flag: a reply gave the chosen input, and no ERRA has made all unknown since.
    pub input_known: u8,
    /// A flag: a reply gave the lamps, and no ERRA has made all unknown since.
    pub lamps_known: u8,
    /// 0 off, 1 on, 2 cooling, 3 warm-up; 0 if it is not known.
    pub power: u8,
    /// The type of the chosen input, 1 to 6; 0 if it is not known.
    pub input_type: u8,
    /// The number of the chosen input, 1 to 35; 0 if it is not known.
    pub input_number: u8,
    /// How many lamps it has, 1 to 8; 0 if they are not known.
    pub lamp_count: usize,
    /// The whole hours of each lamp, at most 99,999; 0 past the count.
    pub hours: [u32; LAMPS_MOST],
    /// A flag for each lamp: it is lit; 0 past the count.
    pub lit: [u8; LAMPS_MOST],
    /// How many late, foreign or malformed lines it has sent; the count stops at 65,535.
    pub strays: u32,
}

/// The panel (`pj_panel`): its projectors are the first entries.
#[repr(C)]
#[derive(Clone, Copy)]
pub struct Panel {
    /// How many projectors it drives, 0 to 8.
    pub count: usize,
    /// The projectors, in the order in which they were added; all zero past the count.
    pub entries: [PanelEntry; PANEL_MOST],
}

/// The value of a command if none is under way.
pub const NO_COMMAND: Coded = Coded {
    code: 0,
    first: 0,
    second: 0,
};
