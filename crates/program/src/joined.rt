// Several files of a log, read as one.
ghost use Rattle.std.specs.Prelude.{◌≡◌, ◌<◌, true, false, Ok, length, IfOk, List, ℕ, Option};
ghost use Rattle.std.specs.Io.{ReadsAtMost};
ghost use Rattle.std.specs.Io.KnownBytes.{Keeps, IsAtEnd, ReadConsumes};
ghost use Rattle.program.specs.Joined.{join_known, joined_bytes, source_left, names_seen, joined_left, files_asked};
ghost use Rattle.command.specs.Asked.{asked_seen};

use command::asked::Arguments;
use std::io;
use std::io::Read;

/// Where files of a log are opened by their names.
pub trait Opens {
    /// An opened file of a log.
    type Source: Read + Drop;

    /// The bytes of the file with that name, if they are known.
    ghost log_bytes: { Self → List ℕ → Option (List ℕ) };

    /// Opens the file with that name, at its start; each time anew.
    fn open_log(&self, name: &str) -> io::Result<Self::Source>
        ensures { IfOk result (λ source. Self.Source.remaining source ≡ log_bytes self.now name.now) };
}

// The files of a log where none is named.
const UNNAMED: &[&str] = &["-"];

/// Returns the files of the log that a command line asks for; standard input where it names none.
pub fn files_of<'c, 'w>(command: &'c Arguments<'w>) -> &'c [&'w str]
    ensures { names_seen result.now ≡ files_asked (asked_seen command.now) }
{
    if command.logs.is_empty() {
        return UNNAMED;
    }
    command.logs.as_slice()
}

/// Files one after the other, each opened when the one before it has ended. A file that cannot be opened is a failed
/// read.
#[derive(Drop)]
pub struct Joined<'a, 'w, O: Opens> {
    opens: &'a O,
    // the file that is read, or was read last
    name: &'w str,
    source: Option<O::Source>,
    later: &'a [&'w str],
}

impl<'a, 'w, O: Opens> Joined<'a, 'w, O> {
    /// Returns these files joined, from the start of the first.
    pub fn new(opens: &'a O, names: &'a [&'w str]) -> Joined<'a, 'w, O>
        ensures { joined_left O.Source.remaining (O.log_bytes result.opens.now) result.source result.later.now
            ≡ joined_bytes (O.log_bytes opens.now) (names_seen names.now) }
    {
        Joined {
            opens,
            name: "-",
            source: None,
            later: names,
        }
    }

    /// Returns the name of the file that is read, or was read last.
    pub fn name(&self) -> &'w str {
        self.name
    }

    // Whether there is another file; it is opened.
    fn open_next(&mut self) -> io::Result<bool>
        requires { IsAtEnd (source_left O.Source.remaining self.old.source) }
        ensures keeps { Keeps (join_known (source_left O.Source.remaining self.old.source)
            (joined_bytes (O.log_bytes self.old.opens.now) (names_seen self.old.later.now)))
            (join_known (source_left O.Source.remaining self.new.source)
            (joined_bytes (O.log_bytes self.new.opens.now) (names_seen self.new.later.now))) }
        ensures opens { self.new.opens ≡ self.old.opens }
        ensures end { result ≡ Ok false → IsAtEnd (join_known (source_left O.Source.remaining self.new.source)
            (joined_bytes (O.log_bytes self.new.opens.now) (names_seen self.new.later.now))) }
        ensures fewer { result ≡ Ok true → length self.new.later.now < length self.old.later.now }
    {
        match self.later {
            [] => Ok(false),
            [name, later @ ..] => {
                self.name = *name;
                self.source = Some(self.opens.open_log(*name)?);
                self.later = later;
                Ok(true)
            }
        }
    }

    // Reads of the file that is open; nothing where none is.
    fn read_open(&mut self, buf: &mut [u8]) -> io::Result<usize>
        ensures bound { ReadsAtMost result buf.new }
        ensures bytes { ReadConsumes (source_left O.Source.remaining self.old.source)
            (source_left O.Source.remaining self.new.source) result buf.new }
        ensures later { self.new.later ≡ self.old.later }
        ensures opens { self.new.opens ≡ self.old.opens }
    {
        match &mut self.source {
            None => Ok(0),
            Some(source) => source.read(buf),
        }
    }
}

impl<'a, 'w, O: Opens> Read for Joined<'a, 'w, O> {
    ghost remaining = { λ j. join_known (source_left O.Source.remaining j.source)
        (joined_bytes (O.log_bytes j.opens.now) (names_seen j.later.now)) };

    #[tactic(auto, using(crate::proofs::JoinedReads::joined_reads))]
    fn read(&mut self, buf: &mut [u8]) -> io::Result<usize> {
        let mut count = self.read_open(buf)?;
        while count == 0 && !buf.is_empty() {
            if !self.open_next()? {
                return Ok(0);
            }
            count = self.read_open(buf)?;
        }
        Ok(count)
    }
}
