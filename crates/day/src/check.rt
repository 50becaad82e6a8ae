// The checker: the first rule that is broken, and the lowest job or rig concerned.
ghost use Rattle.std.specs.Prelude.{◌≡◌, ◌↔◌, ◌*◌, ◌<◌, ◌≤◌, ◌^◌, ℕ, length, IsTrue, All, AllPairs, MatchOption};
ghost use Rattle.day.specs.Days.{IsJob};
ghost use Rattle.day.specs.Rules.{HasRig, InTime, AreApart, Lasts, burnt_together};
ghost use Rattle.day.specs.Verdicts.{InRange, IsLowestBreaking, IsAloneAt, IsLowestPartner, IsLowestClash};
ghost use Rattle.day.specs.Verdicts.{IsLowestSpent};
ghost use Rattle.day.specs.Verdicts.{VerdictHolds};

use crate::{JOBS_MOST, Placement, RIGS_MOST, Rig, are_rigs};
use std::error::Error;
use std::fmt;

/// Why a plan is not accepted: it is out of its ranges, or the first rule that it breaks, with the lowest job or rig
/// concerned. Jobs are numbered from 0, in the order of the plan.
#[derive(Clone, Copy, Debug, PartialEq, Eq)]
pub enum CheckError {
    /// More jobs or rigs than a day has, or one of them out of its ranges.
    OutOfRange,
    /// The job has no rig that exists and that it may use.
    NoRig { job: usize },
    /// The job starts before its rig's W.
    TooEarly { job: usize },
    /// The job shares a second with the other, a later one, on one rig.
    Clash { job: usize, other: usize },
    /// The rig burns more than it has left.
    Spent { rig: usize },
}

impl fmt::Display for CheckError {
    fn fmt<W: fmt::Write>(&self, f: &mut fmt::Formatter<W>) -> fmt::Result {
        match self {
            CheckError::OutOfRange => f.write_str(
                "no day: too many jobs or rigs, or one out of its ranges",
            ),
            CheckError::NoRig { job } => write!(f, "job {job}: no such rig, or not allowed"),
            CheckError::TooEarly { job } => write!(f, "job {job}: starts before its rig is warm"),
            CheckError::Clash { job, other } => write!(
                f,
                "jobs {job} and {other}: on one rig at once"
            ),
            CheckError::Spent { rig } => write!(f, "rig {rig}: burns more than it has left"),
        }
    }
}

impl Error for CheckError {}

fn are_jobs(plan: &[Placement]) -> bool
    ensures { IsTrue result ↔ All (λ p. IsJob p.job) plan.now }
{
    plan.iter().all(|p| p.job.is_in_range())
}

fn is_in_range(plan: &[Placement], rigs: &[Rig]) -> bool
    ensures { IsTrue result ↔ InRange rigs.now plan.now }
{
    plan.len() <= JOBS_MOST && rigs.len() <= RIGS_MOST && are_jobs(plan) && are_rigs(rigs)
}

// Returns the lowest job that has no rig which exists and is allowed.
fn without_rig(plan: &[Placement], rigs: &[Rig]) -> Option<usize>
    requires { length rigs.now ≤ RIGS_MOST }
    ensures { MatchOption result (All (HasRig rigs.now) plan.now) (IsLowestBreaking (HasRig rigs.now) plan.now) }
{
    plan.iter().position(|p| !p.has_rig(rigs))
}

// Returns the lowest job that starts before its rig's W.
fn too_early(plan: &[Placement], rigs: &[Rig]) -> Option<usize>
    ensures { MatchOption result (All (InTime rigs.now) plan.now) (IsLowestBreaking (InTime rigs.now) plan.now) }
{
    plan.iter().position(|p| !p.is_in_time(rigs))
}

// Returns the lowest job after job `i` that shares a second with it.
fn partner(plan: &[Placement], rigs: &[Rig], i: usize) -> Option<usize>
    requires inside { i < length plan.now }
    requires in_range { All (λ p. IsJob p.job) plan.now }
    ensures { MatchOption result (IsAloneAt rigs.now plan.now i) (IsLowestPartner rigs.now plan.now i) }
{
    let first = plan[i];
    for j in i + 1..plan.len() {
        if first.shares(plan[j], rigs) {
            return Some(j);
        }
    }
    None
}

// Returns the lowest job that shares a second with a later one, and the lowest such later one.
fn clash(plan: &[Placement], rigs: &[Rig]) -> Option<(usize, usize)>
    requires { All (λ p. IsJob p.job) plan.now }
    ensures { MatchOption result (AllPairs (AreApart rigs.now) plan.now)
        (λ pair. IsLowestClash rigs.now plan.now pair.0 pair.1) }
{
    for i in 0..plan.len() {
        if let Some(j) = partner(plan, rigs, i) {
            return Some((i, j));
        }
    }
    None
}

// Returns the seconds that the jobs burn on the rig of this number together: at most 64 jobs, each less than 2^33.
pub(crate) fn burnt_on(plan: &[Placement], number: usize, rig: Rig) -> u64
    requires { length plan.now ≤ JOBS_MOST }
    ensures sum { result ≡ burnt_together number rig plan.now }
    ensures fits { result ≤ 2 ^ 33 * JOBS_MOST }
{
    let mut total: u64 = 0;
    for p in plan {
        if p.rig as usize == number {
            total += rig.warm_up as u64 + p.job.length as u64;
        }
    }
    total
}

// Returns the lowest rig that burns more than it has left.
fn spent(plan: &[Placement], rigs: &[Rig]) -> Option<usize>
    requires { length plan.now ≤ JOBS_MOST }
    ensures { MatchOption result ((k : ℕ) → Lasts rigs.now plan.now k) (IsLowestSpent rigs.now plan.now) }
{
    for k in 0..rigs.len() {
        if (rigs[k].life as u64) < burnt_on(plan, k, rigs[k]) {
            return Some(k);
        }
    }
    None
}

/// Checks a plan against the four rules, in their order. Errors: `OutOfRange` before any rule, then the first rule that
/// is broken.
pub fn check_day(plan: &[Placement], rigs: &[Rig]) -> Result<(), CheckError>
    ensures { VerdictHolds rigs.now plan.now result }
{
    if !is_in_range(plan, rigs) {
        return Err(CheckError::OutOfRange);
    }
    if let Some(job) = without_rig(plan, rigs) {
        return Err(CheckError::NoRig { job });
    }
    if let Some(job) = too_early(plan, rigs) {
        return Err(CheckError::TooEarly { job });
    }
    if let Some((job, other)) = clash(plan, rigs) {
        return Err(CheckError::Clash { job, other });
    }
    if let Some(rig) = spent(plan, rigs) {
        return Err(CheckError::Spent { rig });
    }
    Ok(())
}
