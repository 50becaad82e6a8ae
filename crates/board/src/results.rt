// The results of the calls, as C has them: an exported call returns no enum, so a refusal is its number.
ghost use Rattle.std.specs.Prelude.{◌≡◌};
ghost use Rattle.board.specs.Results.{receiving_said, opening_said};

use codes::readings::FlatReading;
use device::calls;
use panel::types::Panel;
use record::refusal::Refusal;
use record::types::Device;
use text::numbered::Numbered;

/// What receiving returns besides the record: its number, the bytes taken, the length of the reply.
#[repr(C)]
#[derive(Clone, Copy)]
pub struct Receiving {
    /// 0, or the number of the refusal: 1, 2, 3 or 4 (RULES, The numbers a call gives).
    pub number: u32,
    /// Bytes taken: up to and including the first CR, or all; 0 with a refusal.
    pub taken: usize,
    /// Bytes of the reply; 0 if none is due, and with a refusal.
    pub length: usize,
}

/// What opening returns besides the record: its number, the length of the greeting, the place.
#[repr(C)]
#[derive(Clone, Copy)]
pub struct Opening {
    /// 0, or the number of the refusal: 1, 2 or 6 (RULES, The numbers a call gives).
    pub number: u32,
    /// Bytes of the greeting; 0 with a refusal.
    pub length: usize,
    /// The place of the new connection, 0 to 3; 0 with a refusal.
    pub place: usize,
}

/// What receiving returns by value.
#[repr(C)]
#[derive(Clone, Copy)]
pub struct ReceivedByValue {
    /// 0, or the number of the refusal: 1, 2, 3 or 4 (RULES, The numbers a call gives).
    pub number: u32,
    /// Bytes taken: up to and including the first CR, or all; 0 with a refusal.
    pub taken: usize,
    /// Bytes of the reply; 0 if none is due, and with a refusal.
    pub length: usize,
    /// The changed record; with a refusal the one that was given.
    pub device: Device,
}

/// What opening returns by value.
#[repr(C)]
#[derive(Clone, Copy)]
pub struct OpenedByValue {
    /// 0, or the number of the refusal: 1, 2 or 6 (RULES, The numbers a call gives).
    pub number: u32,
    /// Bytes of the greeting; 0 with a refusal.
    pub length: usize,
    /// The place of the new connection, 0 to 3; 0 with a refusal.
    pub place: usize,
    /// The changed record; with a refusal the one that was given.
    pub device: Device,
}

/// What a panel's call returns by value: its number, and the panel (`pj_panel_changed`).
#[repr(C)]
#[derive(Clone, Copy)]
pub struct PanelChanged {
    /// 0, or the number of the refusal: 1 or 3 (RULES, The numbers a call gives).
    pub number: u32,
    /// The changed panel; with a refusal the one that was given.
    pub panel: Panel,
}

/// What a panel's command returns by value: its number, the length of its line, and the panel (`pj_panel_sent`).
#[repr(C)]
#[derive(Clone, Copy)]
pub struct PanelSent {
    /// 0, or the number of the refusal: 1, 2, 3 or 9 (RULES, The numbers a call gives).
    pub number: u32,
    /// Bytes of the line, with its CR; 0 with a refusal.
    pub length: usize,
    /// The changed panel; with a refusal the one that was given.
    pub panel: Panel,
}

/// What hearing a line returns besides the panel: its number, what the line was, and its reading (`pj_heard`).
#[repr(C)]
#[derive(Clone, Copy)]
pub struct PanelHeard {
    /// 0, or the number of the refusal: 1 or 3 (RULES, The numbers a call gives).
    pub number: u32,
    /// What the line was, 1 to 6, by `enum pj_heard_kind`; 0 with a refusal.
    pub kind: u8,
    /// Its reading, if it was read as a reply; else all zero.
    pub reading: FlatReading,
}

/// What set-up, loading, closing, passing time and the host's three calls return by value.
#[repr(C)]
#[derive(Clone, Copy)]
pub struct Changed {
    /// 0, or the number of the refusal: 1, 3, 4, 7, of set-up 3 or 8, of loading 20 to 23.
    pub number: u32,
    /// The changed record; with a refusal the one that was given, of set-up and loading the blank one.
    pub device: Device,
}

/// The outcome of receiving in numbers; for a refusal its number, and all else 0.
impl From<Result<calls::Received, Refusal>> for Receiving {
    ghost from_gives = { λ outcome told. told ≡ receiving_said outcome };

    fn from(outcome: Result<calls::Received, Refusal>) -> Receiving {
        match outcome {
            Ok(received) => Receiving {
                number: 0,
                taken: received.taken,
                length: received.length,
            },
            Err(refusal) => Receiving {
                number: refusal.number(),
                taken: 0,
                length: 0,
            },
        }
    }
}

/// The outcome of opening in numbers; for a refusal its number, and all else 0.
impl From<Result<calls::Opened, Refusal>> for Opening {
    ghost from_gives = { λ outcome told. told ≡ opening_said outcome };

    fn from(outcome: Result<calls::Opened, Refusal>) -> Opening {
        match outcome {
            Ok(opened) => Opening {
                number: 0,
                length: opened.length,
                place: opened.place,
            },
            Err(refusal) => Opening {
                number: refusal.number(),
                length: 0,
                place: 0,
            },
        }
    }
}
