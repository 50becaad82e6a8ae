// The lists of a call, one for each field, as jobs, rigs, placements and readings: the element at a place has the
// number there of each list.
ghost use Rattle.std.specs.Prelude.{◌≡◌, ◌≤◌, ◌<◌, ◌↔◌, IsTrue, length, take, drop};
ghost use Rattle.board.specs.Lists.{HaveOneLength, CanBeADay, job_at, jobs_in, rigs_in, plan_in, readings_in};
ghost use Rattle.board.specs.Lent.{day_lists};

use day::{JOBS_MOST, Job, Placement, RIGS_MOST, Rig};
use service::LampSeconds;

/// All zero: the job at the places of an array that a call does not fill.
pub const NO_JOB: Job = Job {
    start: 0,
    length: 0,
    allowed: 0,
};

/// All zero: the rig at the places of an array that a call does not fill.
pub const NO_RIG: Rig = Rig {
    warm_up: 0,
    cooling: 0,
    life: 0,
};

/// `NO_JOB` on the first rig: the placement at the places of an array that a call does not fill.
pub const NO_PLACEMENT: Placement = Placement {
    job: NO_JOB,
    rig: 0,
};

/// All zero: the reading at the places of an array that a call does not fill.
pub const NO_LAMP_SECONDS: LampSeconds = LampSeconds {
    earlier: 0,
    later: 0,
};

/// The lists of a day: one for each field of its jobs, and of its rigs.
#[derive(Clone, Copy)]
pub struct DayLists<'a> {
    /// The second of the day at which each job starts.
    pub starts: &'a [u32],
    /// The seconds of each job, at least 1 in a day; start plus length is at most 86,400 there.
    pub lengths: &'a [u32],
    /// The rigs that each job may use: bit k is set for rig k.
    pub allowed: &'a [u8],
    /// W of each rig in seconds, 1 to 600 in a day.
    pub warm: &'a [u32],
    /// C of each rig in seconds, 1 to 600 in a day.
    pub cool: &'a [u32],
    /// The seconds of lamp life that each rig has left.
    pub life: &'a [u32],
}

impl DayLists<'_> {
    /// Whether the lists of the jobs are of one length, and those of the rigs.
    pub fn have_one_length(&self) -> bool
        ensures { IsTrue result ↔ HaveOneLength (day_lists self.now) }
    {
        self.lengths.len() == self.starts.len()
            && self.allowed.len() == self.starts.len()
            && self.cool.len() == self.warm.len()
            && self.life.len() == self.warm.len()
    }

    /// Whether there are no more jobs and rigs than a day has.
    pub fn can_be_a_day(&self) -> bool
        ensures { IsTrue result ↔ CanBeADay (day_lists self.now) }
    {
        self.starts.len() <= JOBS_MOST && self.warm.len() <= RIGS_MOST
    }

    // The job at a place.
    fn job(&self, j: usize) -> Job
        requires alike { HaveOneLength (day_lists self.now) }
        requires inside { j < length self.now.starts.now }
        ensures { result ≡ job_at (day_lists self.now) j }
    {
        Job {
            start: self.starts[j],
            length: self.lengths[j],
            allowed: self.allowed[j],
        }
    }

    /// Writes the jobs to the start of `jobs`.
    pub fn put_jobs(&self, jobs: &mut [Job])
        requires alike { HaveOneLength (day_lists self.now) }
        requires room { length self.now.starts.now ≤ length jobs.old }
        ensures filled { take (length self.now.starts.now) jobs.new ≡ jobs_in (day_lists self.now) }
        ensures rest { drop (length self.now.starts.now) jobs.new ≡ drop (length self.now.starts.now) jobs.old }
    {
        for j in 0..self.starts.len() {
            jobs[j] = self.job(j);
        }
    }

    /// Writes the jobs, each on its rig of the list, to the start of `plan`.
    pub fn put_plan(&self, rigs: &[u8], plan: &mut [Placement])
        requires alike { HaveOneLength (day_lists self.now) }
        requires one_each { length rigs.now ≡ length self.now.starts.now }
        requires room { length self.now.starts.now ≤ length plan.old }
        ensures filled { take (length self.now.starts.now) plan.new ≡ plan_in (day_lists self.now) rigs.now }
        ensures rest { drop (length self.now.starts.now) plan.new ≡ drop (length self.now.starts.now) plan.old }
    {
        for j in 0..self.starts.len() {
            plan[j] = Placement {
                job: self.job(j),
                rig: rigs[j],
            };
        }
    }

    /// Writes the rigs to the start of `rigs`.
    pub fn put_rigs(&self, rigs: &mut [Rig])
        requires alike { HaveOneLength (day_lists self.now) }
        requires room { length self.now.warm.now ≤ length rigs.old }
        ensures filled { take (length self.now.warm.now) rigs.new ≡ rigs_in (day_lists self.now) }
        ensures rest { drop (length self.now.warm.now) rigs.new ≡ drop (length self.now.warm.now) rigs.old }
    {
        for k in 0..self.warm.len() {
            rigs[k] = Rig {
                warm_up: self.warm[k],
                cooling: self.cool[k],
                life: self.life[k],
            };
        }
    }
}

/// Writes the lamps' seconds at both readings to the start of `readings`.
pub fn put_readings(earlier: &[u32], later: &[u32], readings: &mut [LampSeconds])
    requires alike { length later.now ≡ length earlier.now }
    requires room { length earlier.now ≤ length readings.old }
    ensures filled { take (length earlier.now) readings.new ≡ readings_in earlier.now later.now }
    ensures rest { drop (length earlier.now) readings.new ≡ drop (length earlier.now) readings.old }
{
    for k in 0..earlier.len() {
        readings[k] = LampSeconds {
            earlier: earlier[k],
            later: later[k],
        };
    }
}
