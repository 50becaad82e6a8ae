//! A log watched for its lamps: which of them burnt when (RULES, Floor log, History of a board). The lines of a floor
//! log are those that `floorlog` plays, and `M`, which sets or clears a lamp's mark. The lines of a history are those
//! of `recorded`.
#![tactic(auto)]

mod marking;

ghost use Rattle.std.specs.Prelude.{◌≡◌, true, not, ◌&&◌, nat_lt, if◌then◌else◌};
ghost use Rattle.std.specs.Prelude.{ℕ, ◌+◌, ◌-◌, ◌^◌, ◌<◌, ◌≤◌, slice_index_or};
ghost use Rattle.history.specs.Entries.{entry_seen};
ghost use Rattle.watch.specs.CallSteps.{seconds_of_entry};
ghost use Rattle.watch.specs.Watching.{is_burning_in, gained_by, is_sound};

use device::calls::REPLY_ROOM;
use floorlog::kept::KeptLine;
use history::call::RecordedCall;
use history::entry::Entry;
use history::read::Bytes;
use history::recorder::Recorder;
use record::legality::Tested;
use record::types::Device;
use recorded::chain::{self, Why};
use text::flag;
use words::lamp::LAMPS_MOST;

/// A log as it is watched: its record, tested where the log began; the seconds since the log began; the second at which
/// the lamps last began to burn; and the seconds that each lamp burnt in stretches that have ended.
#[derive(Drop)]
pub struct Watch {
    tested: Tested,
    time: u64,
    from: u64,
    burnt: [u64; LAMPS_MOST],
    ghost sound: { is_sound (record { device = tested.device; time = time; from = from; burnt = burnt }) ≡ true },
}

#[tactic(auto, using(record::proofs::PowerSeen::power_tests))]
fn is_burning_in(device: &Device) -> bool
    ensures { result ≡ is_burning_in device.now }
{
    device.own.power().is_burning()
}

// Adds n seconds to each lamp whose mark is set.
fn burn(burnt: &mut [u64; LAMPS_MOST], device: &Device, n: u64)
    requires { (k : ℕ) → slice_index_or burnt.old k 0 + n < 2 ^ 64 }
    ensures { burnt.new ≡ gained_by device.now n burnt.old }
{
    for k in 0..device.settings.lamp_count.min(LAMPS_MOST) {
        let is_enabled = flag::is_raised(device.own.enabled[k]);
        if is_enabled {
            burnt[k] += n;
        }
    }
}

// Updates the stretch under way at `time`, when a step has left the device as it is. If the lamps begin to burn, a
// stretch begins. If they end, each lamp whose mark is set gains the seconds from `from` to `time`; returns whether
// these are any.
fn follow(
    from: &mut u64,
    burnt: &mut [u64; LAMPS_MOST],
    was: bool,
    device: &Device,
    time: u64,
) -> bool
    requires begun { from.old ≤ time }
    requires fits { was ≡ true → (k : ℕ) → slice_index_or burnt.old k 0 + (time - from.old) < 2 ^ 64 }
    ensures from { from.new ≡ (if not was && is_burning_in device.now then time else from.old) }
    ensures burnt { burnt.new ≡ (if was && not (is_burning_in device.now)
        then gained_by device.now (time - from.old) burnt.old else burnt.old) }
    ensures told { result ≡ ((was && not (is_burning_in device.now)) && nat_lt from.new time) }
{
    match (was, is_burning_in(device)) {
        (false, true) => {
            *from = time;
            false
        }
        (true, false) => {
            burn(burnt, device, time - *from);
            *from < time
        }
        _ => false,
    }
}

// Returns the seconds that what a line says lets pass.
fn seconds_of(entry: &Entry<'_>) -> u32
    ensures { result ≡ seconds_of_entry (entry_seen entry.now) }
{
    match entry {
        Entry::Call(RecordedCall::Passes(seconds)) => *seconds,
        _ => 0,
    }
}

/// The result of a line of a floor log.
#[derive(Clone, Copy)]
pub struct Played {
    /// Whether it ended stretches.
    pub ended: bool,
    /// The number of its call, 0 if it was served; `None` if the line has no form.
    pub answer: Option<u32>,
}

impl Watch {
    ghost use Rattle.std.specs.Prelude.{IfSome, None, Ok};
    ghost use Rattle.recorded.specs.Chain.{entry_told, made_told, log_made};
    ghost use Rattle.watch.specs.CallSteps.{entry_step, said_seconds};
    ghost use Rattle.floorlog.specs.KeptText.{kept_text, kept_line};
    ghost use Rattle.floorlog.specs.Told.{Drives};
    ghost use Rattle.watch.specs.Marking.{floor_event, floor_step, seconds_by, watched_answer};
    ghost use Rattle.watch.specs.Watching.{watching_from, is_burning_in, is_long, burnt_by};
    ghost use Rattle.watch.specs.States.{state_of, IsWatched, IsMade, misfit_made, misfit_seen, LineLeaves};

    /// Returns a watch before a log that begins with a device, which need not be legal.
    pub fn new(device: Device) -> Watch
        ensures { state_of result ≡ watching_from device }
    {
        Watch {
            tested: Tested::of(device),
            time: 0,
            from: 0,
            burnt: [0; LAMPS_MOST],
        }
    }

    /// Plays a line of a floor log. Returns the number of its call, and whether it ended stretches: those of the lamps
    /// whose marks are set, from `from` to `time`. Returns `None` and changes nothing if 64 bits cannot count the
    /// seconds that would then have passed.
    pub fn play(&mut self, line: &KeptLine) -> Option<Played>
        ensures watched { IfSome result (λ p. IsWatched (state_of self.old)
            (floor_step self.old.tested.device (floor_event (kept_text line.now))) (state_of self.new) p.ended) }
        ensures answer { IfSome result (λ p. p.answer
            ≡ watched_answer self.old.tested.device (floor_event (kept_text line.now))) }
        ensures kept { result ≡ None → state_of self.new ≡ state_of self.old }
        ensures uncounted { result ≡ None → 2 ^ 64 ≤ self.old.time + seconds_by (floor_event (kept_text line.now)) }
        ensures places { IfSome result (λ _. Drives (seconds_by (floor_event (kept_text line.now)))
            self.old.tested.device self.new.tested.device) }
    {
        let event = marking::read(line);
        let seconds = marking::seconds_of(&event);
        let time = self.time.checked_add(seconds as u64)?;
        let was = is_burning_in(&self.tested.device);
        let answer = marking::call(&mut self.tested, &event);
        self.time = time;
        let ended = follow(
            &mut self.from,
            &mut self.burnt,
            was,
            &self.tested.device,
            time,
        );
        Some(Played { ended, answer })
    }

    /// Makes the call of a line of a history again, counts the line, and adds it to the sum. `line` is without its LF,
    /// and `entry` is what [`chain::entry`] read of it there. Returns whether it ended stretches, as [`Watch::play`]
    /// does. Returns `None` and changes nothing if 64 bits cannot count the seconds that would then have passed.
    /// Errors: those of [`chain::make`]: the line does not belong, and nothing but the places of the record has
    /// changed.
    pub fn make(
        &mut self,
        log: &mut Recorder,
        entry: &Entry<'_>,
        line: &[u8],
    ) -> Option<Result<bool, Why>>
        requires stands { entry_told log.old self.old.tested.device line.now ≡ Ok (entry_seen entry.now) }
        ensures made { IfSome result (IsMade (state_of self.old)
            (entry_step self.old.tested.device (entry_seen entry.now)) (state_of self.new)) }
        ensures told { IfSome result (λ r. misfit_seen r
            ≡ misfit_made (made_told self.old.tested.device (entry_seen entry.now))) }
        ensures log { IfSome result (λ _. log.new
            ≡ log_made log.old self.old.tested.device (entry_seen entry.now) line.now) }
        ensures kept { result ≡ None → (state_of self.new ≡ state_of self.old) × (log.new ≡ log.old) }
        ensures uncounted { result ≡ None → 2 ^ 64 ≤ self.old.time + seconds_of_entry (entry_seen entry.now) }
    {
        let seconds = seconds_of(entry);
        let time = self.time.checked_add(seconds as u64)?;
        let was = is_burning_in(&self.tested.device);
        let mut reply = [0; REPLY_ROOM];
        if let Err(why) = chain::make(log, &mut self.tested, entry, line, &mut reply) {
            return Some(Err(why));
        }
        self.time = time;
        Some(Ok(follow(
            &mut self.from,
            &mut self.burnt,
            was,
            &self.tested.device,
            time,
        )))
    }

    /// Reads the next line of a history with [`chain::entry`], and makes its call again with [`Watch::make`]. The bytes
    /// that the line says were received are put in the room. Returns whether it ended stretches. Returns `None` and
    /// changes nothing if 64 bits cannot count the seconds that would then have passed. Errors, in this order:
    /// `Unended` for a line that no LF ended, those of [`chain::entry`], those of [`chain::make`]: the line does not
    /// belong, and nothing but the places of the record has changed.
    pub fn make_line(
        &mut self,
        log: &mut Recorder,
        room: &mut Bytes,
        line: &KeptLine,
    ) -> Option<Result<bool, Why>>
        ensures made { IfSome result (LineLeaves (state_of self.old) log.old (kept_line line.now)
            (state_of self.new) log.new) }
        ensures kept { result ≡ None → (state_of self.new ≡ state_of self.old) × (log.new ≡ log.old) }
        ensures uncounted { result ≡ None → 2 ^ 64 ≤ self.old.time + said_seconds (kept_text line.now) }
    {
        if !line.is_ended() {
            return Some(Err(Why::Unended));
        }
        room.clear();
        match chain::entry(log, &self.tested.device, line.text(), room) {
            Ok(entry) => self.make(log, &entry, line.text()),
            Err(why) => Some(Err(why)),
        }
    }

    /// Returns the record after the lines watched so far.
    pub fn device(&self) -> &Device
        ensures { result.now ≡ self.now.tested.device }
    {
        &self.tested.device
    }

    /// Returns the seconds since the log began.
    pub fn time(&self) -> u64
        ensures { result ≡ self.now.time }
    {
        self.time
    }

    /// Returns the second at which the lamps last began to burn.
    pub fn from(&self) -> u64
        ensures { result ≡ self.now.from }
    {
        self.from
    }

    /// Returns whether stretches are under way, which the end of the log would end.
    pub fn is_underway(&self) -> bool
        ensures { result ≡ (is_burning_in self.now.tested.device && is_long (state_of self.now)) }
    {
        is_burning_in(&self.tested.device) && self.from < self.time
    }

    /// Returns the seconds that each lamp burnt, if the log ends here.
    pub fn burnt(&self) -> [u64; LAMPS_MOST]
        ensures { result ≡ burnt_by (state_of self.now) }
    {
        let mut burnt = self.burnt;
        if is_burning_in(&self.tested.device) {
            burn(&mut burnt, &self.tested.device, self.time - self.from);
        }
        burnt
    }
}
