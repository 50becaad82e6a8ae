// What the record's numbers mean: a total view of each, and how it is written back.
ghost use Rattle.std.specs.Prelude.{◌≡◌};
ghost use Rattle.record.specs.Limits.{is_between};
ghost use Rattle.record.specs.Legal.{is_timed, is_collecting, held_most};
ghost use Rattle.record.specs.Views.{power_of, power_number, with_power, is_burning};
ghost use Rattle.record.specs.Views.{phase_of, phase_number, with_phase, class_seen};

use crate::connection::{COMMAND_MOST, PHASE_AWAITING, PHASE_CLOSED, PHASE_FAILED, PHASE_OPEN};
use crate::own::{COOLING, OFF, ON, WARMING};
use crate::types::{Connection, LINE_ROOM, Own, Settings};
use words::class::ClassNumber;

/// The power, with the seconds that are left of it.
#[derive(Clone, Copy)]
pub enum Power {
    /// 0: no lamp burns.
    Off,
    /// 3: enabled lamps burn. It is on after so many seconds, 1 to W in a legal record.
    WarmUp { left: u32 },
    /// 1: enabled lamps burn.
    On,
    /// 2: no lamp burns. It is off after so many seconds, 1 to C in a legal record.
    Cooling { left: u32 },
}

/// The phase of a connection, with its age and its random number.
#[derive(Clone, Copy)]
pub enum Phase {
    /// 0: there is no connection, and the place is free.
    Closed,
    /// 1: greeted; the first line, led by the digest, has not come. Its age in seconds is 0 to 29 in a legal record.
    Awaiting { age: u32, random: u32 },
    /// 2: commands are served.
    Open { random: u32 },
    /// 3: the digest did not match, and what comes is ignored. Its age, since then, is 0 to 29 in a legal record.
    Failed { age: u32, random: u32 },
}

impl Power {
    /// The lamps burn in it.
    pub fn is_burning(self) -> bool
        ensures { result ≡ is_burning self }
    {
        matches!(self, Power::WarmUp { .. } | Power::On)
    }

    /// Seconds are left of it.
    pub fn is_between(self) -> bool
        ensures { result ≡ is_between (power_number self) }
    {
        matches!(self, Power::WarmUp { .. } | Power::Cooling { .. })
    }
}

impl Phase {
    /// A connection ages in it.
    pub fn is_timed(self) -> bool
        ensures { result ≡ is_timed (phase_number self) }
    {
        matches!(self, Phase::Awaiting { .. } | Phase::Failed { .. })
    }

    /// It collects bytes in it.
    pub fn is_collecting(self) -> bool
        ensures { result ≡ is_collecting (phase_number self) }
    {
        matches!(self, Phase::Awaiting { .. } | Phase::Open { .. })
    }

    /// The most bytes that it collects of a line.
    #[tactic(auto, unfolding(crate::specs::Legal::held_most))]
    pub fn held_most(self) -> usize
        ensures { result ≡ held_most (phase_number self) }
    {
        match self {
            Phase::Awaiting { .. } => LINE_ROOM,
            Phase::Open { .. } => COMMAND_MOST,
            Phase::Closed | Phase::Failed { .. } => 0,
        }
    }
}

impl Own {
    /// The power, with the seconds that are left of it; a number of none is `Off`.
    pub fn power(&self) -> Power
        ensures { result ≡ power_of self.now.power self.now.left }
    {
        match self.power {
            WARMING => Power::WarmUp { left: self.left },
            ON => Power::On,
            COOLING => Power::Cooling { left: self.left },
            _ => Power::Off,
        }
    }

    /// Sets the power and the seconds that are left of it, 0 where it has none.
    pub fn set_power(&mut self, power: Power)
        ensures { self.new ≡ with_power self.old power }
    {
        let (number, left) = match power {
            Power::Off => (OFF, 0),
            Power::WarmUp { left } => (WARMING, left),
            Power::On => (ON, 0),
            Power::Cooling { left } => (COOLING, left),
        };
        self.power = number;
        self.left = left;
    }
}

impl Connection {
    /// The phase, with its age and its random number; a number of none is `Closed`.
    pub fn phase(&self) -> Phase
        ensures { result ≡ phase_of self.now.phase self.now.age self.now.random }
    {
        let age = self.age;
        let random = self.random;
        match self.phase {
            PHASE_AWAITING => Phase::Awaiting { age, random },
            PHASE_OPEN => Phase::Open { random },
            PHASE_FAILED => Phase::Failed { age, random },
            _ => Phase::Closed,
        }
    }

    /// Sets the phase, its age and its random number, 0 where it has none; the line stays.
    pub fn set_phase(&mut self, phase: Phase)
        ensures { self.new ≡ with_phase self.old phase }
    {
        let (number, age, random) = match phase {
            Phase::Closed => (PHASE_CLOSED, 0, 0),
            Phase::Awaiting { age, random } => (PHASE_AWAITING, age, random),
            Phase::Open { random } => (PHASE_OPEN, 0, random),
            Phase::Failed { age, random } => (PHASE_FAILED, age, random),
        };
        self.phase = number;
        self.age = age;
        self.random = random;
    }
}

impl Settings {
    /// The class of the set-up.
    pub fn class(&self) -> ClassNumber
        ensures { result ≡ class_seen self.now }
    {
        match self.class_number {
            2 => ClassNumber::Two,
            _ => ClassNumber::One,
        }
    }
}
