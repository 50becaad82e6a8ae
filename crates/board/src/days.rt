// A cutting day, checked and planned.
ghost use Rattle.std.specs.Prelude.{◌≡◌, ◌≤◌, length, map};
ghost use Rattle.text.specs.Words.{over};
ghost use Rattle.board.specs.Lists.{lists};
ghost use Rattle.board.specs.Lent.{day_lists};
ghost use Rattle.board.specs.Days.{flat_verdict, flat_plan, Checks, ChecksInto, Plans, PlansInto};

use crate::lists::{DayLists, NO_JOB, NO_PLACEMENT, NO_RIG};
use day::check::{CheckError, check_day};
use day::plan::{Plan, PlanError, plan_day};
use day::{JOBS_MOST, Placement, RIGS_MOST};

/// The result of a check: the number of the call, the rule broken, and the jobs or the rig concerned, 0 if there is
/// none.
#[repr(C)]
#[derive(Clone, Copy)]
pub struct FlatVerdict {
    /// 0; 3 if the lists are no day (RULES, Cutting day).
    pub number: u32,
    /// The first rule that is broken, 1 to 4 (`enum pj_rule`); 0 if none is, or the call was refused.
    pub rule: u8,
    /// The lowest job concerned, from 0, or for rule 4 the lowest rig; 0 if there is none.
    pub first: usize,
    /// For rule 3 the lowest job with which the first one clashes; else 0.
    pub second: usize,
}

/// The result of planning: the number of the call, whether all jobs have a rig, and else the first job that finds none.
#[repr(C)]
#[derive(Clone, Copy)]
pub struct FlatPlan {
    /// 0, also if some job finds no rig; 3 if the lists are no day (RULES, Cutting day).
    pub number: u32,
    /// Whether every job has a rig; false if the call was refused.
    pub planned: bool,
    /// The first job that finds none, from 0; else 0.
    pub job: usize,
}

impl FlatVerdict {
    fn broken(rule: u8, first: usize, second: usize) -> FlatVerdict
        ensures { result ≡ record { number = 0; rule = rule; first = first; second = second } }
    {
        FlatVerdict {
            number: 0,
            rule,
            first,
            second,
        }
    }
}

/// The verdict in numbers.
impl From<Result<(), CheckError>> for FlatVerdict {
    ghost from_gives = { λ verdict flat. flat ≡ flat_verdict verdict };

    fn from(verdict: Result<(), CheckError>) -> FlatVerdict {
        match verdict {
            Ok(()) => FlatVerdict::broken(0, 0, 0),
            Err(CheckError::OutOfRange) => FlatVerdict {
                number: 3,
                rule: 0,
                first: 0,
                second: 0,
            },
            Err(CheckError::NoRig { job }) => FlatVerdict::broken(1, job, 0),
            Err(CheckError::TooEarly { job }) => FlatVerdict::broken(2, job, 0),
            Err(CheckError::Clash { job, other }) => FlatVerdict::broken(3, job, other),
            Err(CheckError::Spent { rig }) => FlatVerdict::broken(4, rig, 0),
        }
    }
}

/// The planner's answer in numbers; the rigs are in the call's result list.
impl From<Result<(), PlanError>> for FlatPlan {
    ghost from_gives = { λ answer flat. flat ≡ flat_plan answer };

    fn from(answer: Result<(), PlanError>) -> FlatPlan {
        match answer {
            Ok(()) => FlatPlan {
                number: 0,
                planned: true,
                job: 0,
            },
            Err(PlanError::OutOfRange) => FlatPlan {
                number: 3,
                planned: false,
                job: 0,
            },
            Err(PlanError::NoRig { job }) => FlatPlan {
                number: 0,
                planned: false,
                job,
            },
        }
    }
}

impl DayLists<'_> {
    // The verdict on the jobs, each on its rig of the list.
    #[tactic(auto, using(crate::proofs::FitsADay::in_range_fits))]
    fn check(&self, rigs: &[u8]) -> Result<(), CheckError>
        ensures { Checks (day_lists self.now) rigs.now result }
    {
        if !self.have_one_length() || rigs.len() != self.starts.len() {
            return Err(CheckError::OutOfRange);
        }
        // no room below for so many
        if !self.can_be_a_day() {
            return Err(CheckError::OutOfRange);
        }
        let mut plan = [NO_PLACEMENT; JOBS_MOST];
        self.put_plan(rigs, &mut plan);
        let mut fleet = [NO_RIG; RIGS_MOST];
        self.put_rigs(&mut fleet);
        check_day(&plan[..self.starts.len()], &fleet[..self.warm.len()])
    }

    // The jobs planned, where there is room for their rigs.
    fn plan(&self, room: usize) -> Result<Plan, PlanError>
        ensures { Plans (day_lists self.now) room result }
    {
        if !self.have_one_length() || room < self.starts.len() {
            return Err(PlanError::OutOfRange);
        }
        // no room below for so many
        if !self.can_be_a_day() {
            return Err(PlanError::OutOfRange);
        }
        let mut jobs = [NO_JOB; JOBS_MOST];
        self.put_jobs(&mut jobs);
        let mut fleet = [NO_RIG; RIGS_MOST];
        self.put_rigs(&mut fleet);
        plan_day(&jobs[..self.starts.len()], &fleet[..self.warm.len()])
    }
}

/// Checks a day for which each job has a rig (RULES, Cutting day). Error: 3.
#[unsafe(no_mangle)]
pub extern "C" fn pj_check_day(
    starts: &[u32],
    lengths: &[u32],
    allowed: &[u8],
    rigs: &[u8],
    warm: &[u32],
    cool: &[u32],
    life: &[u32],
) -> FlatVerdict
    ensures { ChecksInto (lists starts.now lengths.now allowed.now warm.now cool.now life.now) rigs.now result }
{
    let lists = DayLists {
        starts,
        lengths,
        allowed,
        warm,
        cool,
        life,
    };
    FlatVerdict::from(lists.check(rigs))
}

// The rigs of a plan, over the start of `out`.
fn put_rigs_of(plan: &[Placement], out: &mut [u8])
    requires { length plan.now ≤ length out.old }
    ensures { out.new ≡ over (map (λ p. p.rig) plan.now) out.old }
{
    for (j, placement) in plan.iter().enumerate() {
        out[j] = placement.rig;
    }
}

/// Plans a day, and writes the rigs to the start of `out` (RULES, Cutting day). Error: 3.
#[unsafe(no_mangle)]
pub extern "C" fn pj_plan_day(
    starts: &[u32],
    lengths: &[u32],
    allowed: &[u8],
    warm: &[u32],
    cool: &[u32],
    life: &[u32],
    out: &mut [u8],
) -> FlatPlan
    ensures { PlansInto (lists starts.now lengths.now allowed.now warm.now cool.now life.now) out.old result out.new }
{
    let lists = DayLists {
        starts,
        lengths,
        allowed,
        warm,
        cool,
        life,
    };
    match lists.plan(out.len()) {
        Ok(plan) => {
            put_rigs_of(plan.placements(), out);
            FlatPlan::from(Ok(()))
        }
        Err(error) => FlatPlan::from(Err(error)),
    }
}
