// What is proved of verdicts and plans beside the contracts of their functions. These functions do only what those do,
// and their contracts are the theorems.
ghost use Rattle.std.specs.Prelude.{◌≡◌, List, Result, Ok};
ghost use Rattle.day.specs.Verdicts.{VerdictHolds};
ghost use Rattle.day.specs.Plans.{PlanHolds};
ghost use Rattle.day.specs.declared.Job.{Job};
ghost use Rattle.day.specs.declared.Rig.{Rig};
ghost use Rattle.day.specs.declared.Placement.{Placement};
ghost use Rattle.day.specs.declared.check.CheckError.{CheckError};
ghost use Rattle.day.specs.declared.plan.PlanError.{PlanError};

use crate::check::{CheckError, check_day};
use crate::plan::{Plan, PlanError, plan_day};
use crate::{DAY_END, JOBS_MOST, Job, Placement, RIGS_MOST, Rig, WARM_OR_COOL_MOST};

/// The checker's verdict is true of the plan, and a verdict that is true is the checker's: exactly one verdict is true.
#[tactic(auto, using(crate::proofs::OneVerdict::one_verdict))]
pub fn the_verdict_told_holds(plan: &[Placement], rigs: &[Rig]) -> Result<(), CheckError>
    ensures told_holds { VerdictHolds rigs.now plan.now result }
    ensures holds_told { (v : Result (Unit {0}) CheckError) → VerdictHolds rigs.now plan.now v → result ≡ v }
    ensures one_holds { (rs : List Rig) (ps : List Placement) (v w : Result (Unit {0}) CheckError)
        → VerdictHolds rs ps v → VerdictHolds rs ps w → v ≡ w }
{
    check_day(plan, rigs)
}

/// The planner's answer is true of the jobs and rigs, and an answer that is true is the planner's: exactly one answer
/// is true.
#[tactic(auto, using(crate::proofs::OnePlan::one_plan))]
pub fn the_plan_answered_holds(jobs: &[Job], rigs: &[Rig]) -> Result<Plan, PlanError>
    ensures told_holds { PlanHolds jobs.now rigs.now result }
    ensures holds_told { (p : Result (List Placement) PlanError) → PlanHolds jobs.now rigs.now p → result ≡ p }
    ensures one_holds { (js : List Job) (rs : List Rig) (p q : Result (List Placement) PlanError)
        → PlanHolds js rs p → PlanHolds js rs q → p ≡ q }
{
    plan_day(jobs, rigs)
}

/// The checker accepts what the planner plans.
#[tactic(auto, using(crate::proofs::OnePlan::planned_accepted))]
pub fn a_plan_is_accepted()
    ensures { (jobs : List Job) (rigs : List Rig) (plan : List Placement)
        → PlanHolds jobs rigs (Ok plan) → VerdictHolds rigs plan (Ok tt) }
{}

/// The limits of a day in numbers (RULES, Cutting day).
pub fn a_day_has_these_limits()
    ensures jobs { JOBS_MOST ≡ 64 }
    ensures rigs { RIGS_MOST ≡ 8 }
    ensures seconds { DAY_END ≡ 86400 }
    ensures warm_or_cool { WARM_OR_COOL_MOST ≡ 600 }
{}
