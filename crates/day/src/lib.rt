// A cutting day, planned and checked (RULES, Cutting day). Rigs are numbered from 0, in the order of their slice.
#![tactic(auto)]

ghost use Rattle.std.specs.Prelude.{◌≡◌, ◌+◌, ◌≤◌, ◌<◌, ◌↔◌, IsTrue, All, length, slice_get};
ghost use Rattle.day.specs.Days.{IsJob, IsRig};
ghost use Rattle.day.specs.Rules.{MayUse, HasRig, InTime, Meet, Share};

pub mod check;
pub mod plan;
#[cfg(test)]
mod tests;
pub mod theorems;

/// How many jobs a day has at most.
pub const JOBS_MOST: usize = 64;

/// How many rigs a day has at most.
pub const RIGS_MOST: usize = 8;

/// The seconds of a day: no job ends later.
pub const DAY_END: u32 = 86_400;

/// How many seconds a rig's W has at most, and its C.
pub const WARM_OR_COOL_MOST: u32 = 600;

/// A job: its lines burn from its start on.
#[derive(Clone, Copy, Debug, PartialEq, Eq)]
pub struct Job {
    /// The second of the day at which it starts, from 0.
    pub start: u32,
    /// Its seconds, at least 1; start plus length is at most `DAY_END`.
    pub length: u32,
    /// The rigs that it may use: bit k is set for rig k. A bit of no rig is ignored.
    pub allowed: u8,
}

/// A rig: a projector at a table.
#[derive(Clone, Copy, Debug, PartialEq, Eq)]
pub struct Rig {
    /// W, its seconds of warm-up: 1 to `WARM_OR_COOL_MOST`.
    pub warm_up: u32,
    /// C, its seconds of cooling: 1 to `WARM_OR_COOL_MOST`.
    pub cooling: u32,
    /// The seconds of lamp life that it has left.
    pub life: u32,
}

/// A job on a rig. A plan is a slice of placements, in the order of the jobs.
#[derive(Clone, Copy, Debug, PartialEq, Eq)]
pub struct Placement {
    /// The job that is placed, whether or not it may use the rig.
    pub job: Job,
    /// The number of the rig, from 0, which may be none of the day's.
    pub rig: u8,
}

impl Job {
    fn is_in_range(self) -> bool
        ensures { IsTrue result ↔ IsJob self }
    {
        1 <= self.length && self.start as u64 + self.length as u64 <= DAY_END as u64
    }

    fn may_use(self, rig: u8) -> bool
        requires { rig < 8 }
        ensures { IsTrue result ↔ MayUse self rig }
    {
        (self.allowed >> rig) % 2 == 1
    }
}

impl Rig {
    fn is_in_range(self) -> bool
        ensures { IsTrue result ↔ IsRig self }
    {
        1 <= self.warm_up
            && self.warm_up <= WARM_OR_COOL_MOST
            && 1 <= self.cooling
            && self.cooling <= WARM_OR_COOL_MOST
    }

    // Returns whether the stretches of the two jobs on the rig share a second: each begins before the other ends.
    #[tactic(auto, using(crate::proofs::Meeting::meet_from_starts, crate::proofs::Meeting::starts_from_meet))]
    fn meets(self, job: Job, other: Job) -> bool
        requires job_lasts { 1 ≤ job.length }
        requires other_lasts { 1 ≤ other.length }
        ensures { IsTrue result ↔ Meet self job other }
    {
        let between = self.cooling as u64 + self.warm_up as u64;
        (job.start as u64) < other.start as u64 + other.length as u64 + between
            && (other.start as u64) < job.start as u64 + job.length as u64 + between
    }
}

fn are_rigs(rigs: &[Rig]) -> bool
    ensures { IsTrue result ↔ All IsRig rigs.now }
{
    rigs.iter().all(|rig| rig.is_in_range())
}

// Returns the rig of this number, if there is one.
fn rig_at(rigs: &[Rig], number: u8) -> Option<Rig>
    ensures { result ≡ slice_get rigs.now number }
{
    rigs.get(number as usize).copied()
}

impl Placement {
    // Returns whether the rig exists and the job may use it.
    fn has_rig(self, rigs: &[Rig]) -> bool
        requires { length rigs.now ≤ 8 }
        ensures { IsTrue result ↔ HasRig rigs.now self }
    {
        (self.rig as usize) < rigs.len() && self.job.may_use(self.rig)
    }

    // Returns whether the job does not start before its rig's W.
    fn is_in_time(self, rigs: &[Rig]) -> bool
        ensures { IsTrue result ↔ InTime rigs.now self }
    {
        match rig_at(rigs, self.rig) {
            Some(rig) => rig.warm_up <= self.job.start,
            None => true,
        }
    }

    // Returns whether the two placements are on one rig and their stretches there share a second.
    fn shares(self, other: Placement, rigs: &[Rig]) -> bool
        requires job_lasts { 1 ≤ self.job.length }
        requires other_lasts { 1 ≤ other.job.length }
        ensures { IsTrue result ↔ Share rigs.now self other }
    {
        match rig_at(rigs, self.rig) {
            Some(rig) => self.rig == other.rig && rig.meets(self.job, other.job),
            None => false,
        }
    }
}
