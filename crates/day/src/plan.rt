// The planner places jobs in the order given, each on the lowest rig on which every rule is kept with those already
// placed.
ghost use Rattle.std.specs.Prelude.{◌≡◌, ◌↔◌, ◌<◌, ◌≤◌, length, IsTrue, List, [], ◌∷◌, ◌++◌, take, All};
ghost use Rattle.std.specs.Prelude.{MatchOption};
ghost use Rattle.day.specs.Days.{IsDay, IsJob};
ghost use Rattle.day.specs.Rules.{AreApart, Lasts, Keeps};
ghost use Rattle.day.specs.Plans.{IsLowestRig, FindsNone, PlanHolds};

use crate::check::burnt_on;
use crate::{JOBS_MOST, Job, Placement, RIGS_MOST, Rig, are_rigs, rig_at};
use std::error::Error;
use std::fmt;
use std::marker::Model;

/// Why no plan is made.
#[derive(Clone, Copy, Debug, PartialEq, Eq)]
pub enum PlanError {
    /// More jobs or rigs than a day has, or one of them out of its ranges.
    OutOfRange,
    /// The first job for which there is no rig.
    NoRig { job: usize },
}

impl fmt::Display for PlanError {
    fn fmt<W: fmt::Write>(&self, f: &mut fmt::Formatter<W>) -> fmt::Result {
        match self {
            PlanError::OutOfRange => f.write_str(
                "no day: too many jobs or rigs, or one out of its ranges",
            ),
            PlanError::NoRig { job } => write!(f, "job {job}: finds no rig"),
        }
    }
}

impl Error for PlanError {}

/// Jobs that are placed, in their order.
#[derive(Drop)]
pub struct Plan {
    placements: [Placement; JOBS_MOST],
    count: usize,
}

impl Model for Plan {
    ghost use Rattle.std.specs.Prelude.{◌≤◌, List, take};
    ghost use Rattle.day.specs.declared.Placement.{Placement};
    ghost use Rattle.day.specs.declared.TheConstants.{JOBS_MOST};

    ghost Value = { List Placement };

    ghost view = { λ p. take p.count p.placements };

    ghost invariant = { λ p. p.count ≤ JOBS_MOST };
}

impl Plan {
    fn empty() -> Plan
        ensures { result ≡ [] }
    {
        let job = Job {
            start: 0,
            length: 0,
            allowed: 0,
        };
        Plan {
            placements: [Placement { job, rig: 0 }; JOBS_MOST],
            count: 0,
        }
    }

    fn push(&mut self, placement: Placement)
        requires { length self.old < JOBS_MOST }
        ensures { self.new ≡ self.old ++ placement ∷ [] }
    {
        self.placements[self.count] = placement;
        self.count += 1;
    }

    /// Returns the placements, one for each job.
    pub fn placements(&self) -> &[Placement]
        ensures { result.now ≡ self.now }
    {
        &self.placements[..self.count]
    }
}

impl Placement {
    // Returns whether it shares no second on its rig with those placed.
    fn is_free(self, placed: &[Placement], rigs: &[Rig]) -> bool
        requires in_range { IsJob self.job }
        requires all_in_range { All (λ p. IsJob p.job) placed.now }
        ensures { IsTrue result ↔ All (λ p. AreApart rigs.now p self) placed.now }
    {
        placed.iter().all(|p| !p.shares(self, rigs))
    }

    // Returns whether its rig burns no more than it has left, with those placed.
    fn is_lasting(self, placed: &[Placement], rigs: &[Rig]) -> bool
        requires { length placed.now ≤ JOBS_MOST }
        ensures { IsTrue result ↔ Lasts rigs.now (placed.now ++ self ∷ []) self.rig }
    {
        match rig_at(rigs, self.rig) {
            Some(rig) => {
                let burnt = burnt_on(placed, self.rig as usize, rig);
                burnt + (rig.warm_up as u64 + self.job.length as u64) <= rig.life as u64
            }
            None => true,
        }
    }

    // Returns whether a job placed after others, which keep the rules, keeps them too.
    fn is_joining(self, placed: &[Placement], rigs: &[Rig]) -> bool
        requires few_rigs { length rigs.now ≤ RIGS_MOST }
        requires few_jobs { length placed.now ≤ JOBS_MOST }
        requires in_range { IsJob self.job }
        requires all_in_range { All (λ p. IsJob p.job) placed.now }
        requires keeping { Keeps rigs.now placed.now }
        ensures { IsTrue result ↔ Keeps rigs.now (placed.now ++ self ∷ []) }
    {
        self.has_rig(rigs)
            && self.is_in_time(rigs)
            && self.is_free(placed, rigs)
            && self.is_lasting(placed, rigs)
    }
}

// Returns the lowest rig for the next job.
fn lowest_rig(job: Job, placed: &[Placement], rigs: &[Rig]) -> Option<u8>
    requires few_rigs { length rigs.now ≤ RIGS_MOST }
    requires few_jobs { length placed.now ≤ JOBS_MOST }
    requires in_range { IsJob job }
    requires all_in_range { All (λ p. IsJob p.job) placed.now }
    requires keeping { Keeps rigs.now placed.now }
    ensures { MatchOption result (FindsNone rigs.now placed.now job) (IsLowestRig rigs.now placed.now job) }
{
    for rig in 0..rigs.len() as u8 {
        if (Placement { job, rig }).is_joining(placed, rigs) {
            return Some(rig);
        }
    }
    None
}

fn are_jobs(jobs: &[Job]) -> bool
    ensures { IsTrue result ↔ All IsJob jobs.now }
{
    jobs.iter().all(|job| job.is_in_range())
}

fn is_day(jobs: &[Job], rigs: &[Rig]) -> bool
    ensures { IsTrue result ↔ IsDay jobs.now rigs.now }
{
    jobs.len() <= JOBS_MOST && rigs.len() <= RIGS_MOST && are_jobs(jobs) && are_rigs(rigs)
}

/// Places the jobs one after the other, each on the lowest rig on which every rule is kept with those already placed.
/// Errors, in this order: `OutOfRange`, `NoRig`.
pub fn plan_day(jobs: &[Job], rigs: &[Rig]) -> Result<Plan, PlanError>
    ensures { PlanHolds jobs.now rigs.now result }
{
    if !is_day(jobs, rigs) {
        return Err(PlanError::OutOfRange);
    }
    let mut plan = Plan::empty();
    for (j, &job) in jobs.iter().enumerate() {
        match lowest_rig(job, plan.placements(), rigs) {
            Some(rig) => plan.push(Placement { job, rig }),
            None => return Err(PlanError::NoRig { job: j }),
        }
    }
    Ok(plan)
}
