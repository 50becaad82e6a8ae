// Each verdict, and each answer of the planner, at the last second that decides it. Two rigs with W 10 and C 5, jobs of
// ten seconds that may use any rig. On one rig they follow one another from 25 seconds on, and each burns 20.
use crate::check::{CheckError, check_day};
use crate::plan::{PlanError, plan_day};
use crate::{Job, Placement, Rig};

fn job(start: u32) -> Job {
    Job {
        start,
        length: 10,
        allowed: 255,
    }
}

fn rigs(life: u32) -> [Rig; 2] {
    let rig = Rig {
        warm_up: 10,
        cooling: 5,
        life,
    };
    [rig, Rig { life: 20, ..rig }]
}

fn checked(starts: [u32; 3], on: [u8; 3], life: u32) -> Result<(), CheckError> {
    let plan = [
        Placement {
            job: job(starts[0]),
            rig: on[0],
        },
        Placement {
            job: job(starts[1]),
            rig: on[1],
        },
        Placement {
            job: job(starts[2]),
            rig: on[2],
        },
    ];
    check_day(&plan, &rigs(life))
}

#[test]
fn touching_accepted(rt: HostRuntime) {
    assert_eq!(rt; checked([10, 35, 86_390], [0, 0, 0], 60), Ok(()));
}

#[test]
fn shared_second_clashes(rt: HostRuntime) {
    assert_eq!(rt;
        checked([10, 34, 86_390], [0, 0, 0], 60),
        Err(CheckError::Clash { job: 0, other: 1 })
    );
}

// three jobs that share a second, each with each other
#[test]
fn lowest_pair(rt: HostRuntime) {
    assert_eq!(rt;
        checked([34, 10, 20], [0, 0, 0], 60),
        Err(CheckError::Clash { job: 0, other: 1 })
    );
}

#[test]
fn one_second_short(rt: HostRuntime) {
    assert_eq!(rt;
        checked([10, 35, 86_390], [0, 0, 0], 59),
        Err(CheckError::Spent { rig: 0 })
    );
}

#[test]
fn early_before_clash(rt: HostRuntime) {
    assert_eq!(rt;
        checked([10, 34, 9], [0, 0, 0], 0),
        Err(CheckError::TooEarly { job: 2 })
    );
}

#[test]
fn no_rig_before_early(rt: HostRuntime) {
    assert_eq!(rt;
        checked([9, 34, 35], [0, 2, 2], 0),
        Err(CheckError::NoRig { job: 1 })
    );
}

#[test]
fn end_past_the_day(rt: HostRuntime) {
    assert_eq!(rt;
        checked([9, 34, 86_391], [0, 2, 2], 0),
        Err(CheckError::OutOfRange)
    );
}

// the second job would share a second with the first, and gets the other rig; the third follows the first
#[test]
fn lowest_that_fits(rt: HostRuntime) {
    let jobs = [job(10), job(34), job(35)];
    match plan_day(&jobs, &rigs(40)) {
        Ok(plan) => assert_eq!(rt;
            plan.placements(),
            [
                Placement {
                    job: job(10),
                    rig: 0
                },
                Placement {
                    job: job(34),
                    rig: 1
                },
                Placement {
                    job: job(35),
                    rig: 0
                },
            ]
            .as_slice()
        ),
        Err(error) => panic!(rt; "{error:?}"),
    }
}

// the first rig lacks a second of life, and on the second the jobs would share a second
#[test]
fn third_finds_none(rt: HostRuntime) {
    let jobs = [job(10), job(34), job(35)];
    match plan_day(&jobs, &rigs(39)) {
        Ok(_) => panic!(rt; "planned"),
        Err(error) => assert_eq!(rt; error, PlanError::NoRig { job: 2 }),
    }
}
