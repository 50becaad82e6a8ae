// Why a call on a panel is refused (RULES, The numbers a call gives).
ghost use Rattle.std.proofs.Common.{arith};
ghost use Rattle.panel.specs.Refusals.{panel_refusal_number};

use reasons::numbers;
use std::error::Error;
use std::fmt;
use text::numbered::Numbered;

/// Why a call on a panel is refused. The panel and the buffer for a line then stay as they were.
#[derive(Clone, Copy, Debug, PartialEq, Eq)]
pub enum PanelRefusal {
    /// 1: the panel is not legal.
    NotLegal,
    /// 2: the buffer is too short for a command's line.
    NoRoom,
    /// 3: there is no such projector or no such command, a password is out of its range, or it is a ninth projector.
    OutOfRange,
    /// 9: a command before the projector's greeting, or while another is under way.
    NotReady,
}

impl Numbered for PanelRefusal {
    ghost number = { panel_refusal_number };

    ghost refuses = { λ why. Prim.grind arith };

    fn number(self) -> u32 {
        match self {
            PanelRefusal::NotLegal => 1,
            PanelRefusal::NoRoom => 2,
            PanelRefusal::OutOfRange => 3,
            PanelRefusal::NotReady => 9,
        }
    }
}

/// Writes the meaning of its number.
impl fmt::Display for PanelRefusal {
    fn fmt<W: fmt::Write>(&self, f: &mut fmt::Formatter<W>) -> fmt::Result {
        f.write_str(numbers::number_text(self.number()))
    }
}

impl Error for PanelRefusal {}
