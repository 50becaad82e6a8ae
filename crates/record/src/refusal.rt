// Why a call is refused (RULES, The numbers a call gives).
ghost use Rattle.std.proofs.Common.{arith};
ghost use Rattle.record.specs.Refusals.{refusal_number};

use reasons::numbers;
use std::error::Error;
use std::fmt;
use text::numbered::Numbered;

/// Why a call on a device record is refused. The record, and the reply memory, are then as they were.
#[derive(Clone, Copy, Debug, PartialEq, Eq)]
pub enum Refusal {
    /// 1: the record is not legal.
    NotLegal,
    /// 2: the lent memory is too short.
    NoRoom,
    /// 3: a place, a lamp or a digit that there is not, or the last mark of a lamp cleared.
    OutOfRange,
    /// 4: the connection is closed.
    Closed,
    /// 6: no place is closed, so that none can be opened.
    NoPlace,
    /// 7: the power is not off.
    NotOff,
}

impl Numbered for Refusal {
    ghost number = { refusal_number };

    ghost refuses = { λ why. Prim.grind arith };

    fn number(self) -> u32 {
        match self {
            Refusal::NotLegal => 1,
            Refusal::NoRoom => 2,
            Refusal::OutOfRange => 3,
            Refusal::Closed => 4,
            Refusal::NoPlace => 6,
            Refusal::NotOff => 7,
        }
    }
}

/// What its number says.
impl fmt::Display for Refusal {
    fn fmt<W: fmt::Write>(&self, f: &mut fmt::Formatter<W>) -> fmt::Result {
        f.write_str(numbers::number_text(self.number()))
    }
}

impl Error for Refusal {}
