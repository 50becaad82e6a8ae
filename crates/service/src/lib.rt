// The monthly service: the seconds of all lamps at two readings, compared (RULES, Service).
#![tactic(auto)]

#[cfg(test)]
mod tests;
pub mod theorems;

ghost use Rattle.std.specs.Prelude.{◌≡◌, ◌≤◌, ◌++◌, length, drop, All, MatchOption, OnOk, OnErr};
ghost use Rattle.service.specs.Differences.{IsForwards, difference_of, differences};
ghost use Rattle.service.specs.ComparedHolds.{IsFirstBack, ComparedHolds};

use std::error::Error;
use std::fmt;

/// How many lamps a table has at most.
pub const TABLE_MOST: usize = 64;

/// A lamp's seconds at two readings.
#[derive(Clone, Copy, Debug, PartialEq, Eq)]
pub struct LampSeconds {
    /// Seconds at the earlier reading, any 32-bit number.
    pub earlier: u32,
    /// Seconds at the later reading, any 32-bit number; below the earlier if the lamp went backwards.
    pub later: u32,
}

/// Why readings are not compared.
#[derive(Clone, Copy, Debug, PartialEq, Eq)]
pub enum CompareError {
    /// There are more readings than a table may have.
    TooMany,
    /// The list for the differences is shorter than the readings.
    NoRoom,
}

impl fmt::Display for CompareError {
    fn fmt<W: fmt::Write>(&self, f: &mut fmt::Formatter<W>) -> fmt::Result {
        match self {
            CompareError::TooMany => f.write_str("more readings than a table has"),
            CompareError::NoRoom => f.write_str("too few places for the differences"),
        }
    }
}

impl Error for CompareError {}

impl LampSeconds {
    /// Returns the later seconds minus the earlier: negative if the lamp went backwards, as a replaced lamp does.
    pub fn difference(self) -> i64
        ensures { result ≡ difference_of self }
    {
        self.later as i64 - self.earlier as i64
    }
}

fn put_differences(readings: &[LampSeconds], out: &mut [i64])
    requires { length readings.now ≤ length out.old }
    ensures { out.new ≡ differences readings.now ++ drop (length readings.now) out.old }
{
    for (i, reading) in readings.iter().enumerate() {
        out[i] = reading.difference();
    }
}

fn first_backwards(readings: &[LampSeconds]) -> Option<usize>
    ensures { MatchOption result (All IsForwards readings.now) (IsFirstBack readings.now) }
{
    readings.iter().position(|r| r.later < r.earlier)
}

/// Writes each lamp's difference to the start of `out`. Returns the index of the first lamp that went backwards, if
/// any. What follows in `out` stays as it was; with an error all of it does. Errors, in this order: `TooMany`,
/// `NoRoom`.
pub fn compare(readings: &[LampSeconds], out: &mut [i64]) -> Result<Option<usize>, CompareError>
    ensures told { ComparedHolds readings.now (length out.old) result }
    ensures written { OnOk result (out.new ≡ differences readings.now ++ drop (length readings.now) out.old) }
    ensures kept { OnErr result (out.new ≡ out.old) }
{
    if TABLE_MOST < readings.len() {
        return Err(CompareError::TooMany);
    }
    if out.len() < readings.len() {
        return Err(CompareError::NoRoom);
    }
    put_differences(readings, out);
    Ok(first_backwards(readings))
}
