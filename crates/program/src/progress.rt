// How far a log is read, for a person at a terminal (RULES, The programs). What is written there bypasses the output
// for errors of `run`, and no contract speaks of it: nothing reads a terminal, and where standard error is
// none, nothing is written.
use std::io::IsTerminal;
use std::time::Instant;

// At most so many seconds lie between two lines.
const INTERVAL_MOST: u64 = 16;

const LF: u8 = b'\n';

/// Whether a program's progress is shown, and since when the program runs.
#[derive(Clone, Copy)]
pub struct ProgressShown {
    begun: Option<Instant>,
}

/// How far a file of a log has been read.
#[derive(Drop)]
pub struct Progress<'a> {
    rt: &'a HostRuntime,
    shown: ProgressShown,
    name: Option<String>,
    length: Option<u64>,
    bytes: u64,
    lines: u64,
    // the second at which the next line is due
    due: u64,
}

impl ProgressShown {
    /// Returns what is shown from now on: progress, if standard error is a terminal.
    pub fn of(rt: &HostRuntime) -> ProgressShown {
        let begun = if rt.stderr().is_terminal() {
            Instant::now(rt).ok()
        } else {
            None
        };
        ProgressShown { begun }
    }
}

impl<'a> Progress<'a> {
    /// Returns the progress of a file with that name, and that length if it is known.
    pub fn of(
        rt: &'a HostRuntime,
        shown: ProgressShown,
        name: &str,
        length: Option<u64>,
    ) -> Progress<'a> {
        Progress {
            rt,
            shown,
            name: String::from_str(rt.alloc(), name).ok(),
            length,
            bytes: 0,
            lines: 0,
            due: 1,
        }
    }

    /// Counts these bytes as read, and reports progress if it is due.
    pub fn read(&mut self, bytes: &[u8]) {
        let Some(begun) = self.shown.begun else {
            return;
        };
        self.bytes = self.bytes.saturating_add(bytes.len() as u64);
        self.lines = self.lines.saturating_add(ends_in(bytes));
        let Ok(since) = begun.elapsed(self.rt) else {
            return;
        };
        let seconds = since.as_secs();
        if seconds >= self.due {
            self.due = seconds.saturating_add(seconds.min(INTERVAL_MOST));
            self.say();
        }
    }

    fn say(&self) {
        let name = match &self.name {
            Some(name) => name.as_str(),
            None => "-",
        };
        let (bytes, lines) = (self.bytes, self.lines);
        let _said = match self.length {
            Some(length) if length > 0 => {
                let share = bytes.saturating_mul(100) / length;
                eprintln!(self.rt;
                    "{name}: {bytes} of {length} bytes ({share} %), {lines} lines"
                ).is_ok()
            }
            _ => eprintln!(self.rt; "{name}: {bytes} bytes, {lines} lines").is_ok(),
        };
    }
}

// How many lines end there.
fn ends_in(bytes: &[u8]) -> u64 {
    let mut ends: u64 = 0;
    for byte in bytes {
        if *byte == LF {
            ends = ends.saturating_add(1);
        }
    }
    ends
}
