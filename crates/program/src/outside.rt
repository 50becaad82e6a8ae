// The files that a program reads and writes.
ghost use Rattle.std.specs.Prelude.{◌≡◌, [], None, ⊤, ℕ, List, Option, OnOk, IfOk, IfSome};

use crate::joined::Opens;
use crate::progress::{Progress, ProgressShown};
use crate::said::shown;
use std::fs::File;
use std::io::{Error, ErrorKind, Read, Seek, SeekFrom, Stdin};
use std::os::unix::fs::OpenOptionsExt;
use std::{env, fs, io};
use textio::lines::Failure;
use textio::reader::ByteSource;
use textio::streams::Stream;
use textio::writer::{self, BufferedWriter, ByteSink};

/// Why a file of a log that can be read only once is not kept.
#[derive(Drop)]
pub enum NotKept<'w> {
    /// The file with that name could not be read.
    Unread(&'w str, Error),
    /// The temporary file with that name could not be made, or not be written.
    Unwritten(String, Error),
}

/// What a program uses besides its two output streams.
pub trait Outside: Opens {
    /// An opened form.
    type Form: Read + Drop;
    /// An output's file.
    type Sink: ByteSink;

    /// The bytes of the form in the file with that name, if they are known.
    ghost form_bytes: { Self → List ℕ → Option (List ℕ) };

    /// The bytes of an output's file when it is begun, if they are known.
    ghost fresh: { Self → Option (List ℕ) };

    /// The file with that name has these bytes.
    ghost stands: { Self → List ℕ → List ℕ → Type 0 };

    /// Opens the file of a form, at its start.
    fn open_form(&self, name: &str) -> io::Result<Self::Form>
        ensures { IfOk result (λ form. Self.Form.remaining form ≡ form_bytes self.now name.now) };

    /// Keeps what of these files of a log can be read only once, as standard input, so that each opening from now on
    /// gives it from its start. Errors: `Unread`, `Unwritten`, at the first that fails.
    fn keep_input<'w>(&mut self, names: &[&'w str]) -> Result<(), NotKept<'w>>
        ensures logs { Self.log_bytes self.new ≡ Self.log_bytes self.old }
        ensures fresh { fresh self.new ≡ fresh self.old }
        ensures stands { (name text : List ℕ) → stands self.new name text → stands self.old name text };

    /// Begins an output's file beside the file with that name, which stays as it is.
    fn create(&self, name: &str) -> io::Result<Self::Sink>
        ensures { IfOk result (λ sink. Self.Sink.contents sink ≡ fresh self.now) };

    /// Puts the output's file in the place of the file with that name, beside which it was begun.
    fn keep(&self, name: &str, sink: Self::Sink) -> io::Result<()>
        ensures { OnOk result (IfSome (Self.Sink.contents sink) (λ text. stands self.now name.now text)) };

    /// Removes the output's file.
    fn discard(&self, sink: Self::Sink);
}

/// The files of the system.
#[derive(Drop)]
pub struct System<'a> {
    rt: &'a HostRuntime,
    shown: ProgressShown,
    kept: Vec<KeptInput>,
}

// What could be read only once, in a file that has no name any more.
#[derive(Drop)]
struct KeptInput {
    // the name of what it was read from
    name: String,
    file: File,
}

/// Standard input, or a file of a log; reading it shows progress at a terminal.
#[derive(Drop)]
pub struct LogInput<'a> {
    from: From,
    progress: Progress<'a>,
}

#[derive(Drop)]
enum From {
    Standard(Stdin),
    File(File),
}

impl Read for LogInput<'_> {
    fn read(&mut self, buf: &mut [u8]) -> io::Result<usize> {
        let read = match &mut self.from {
            From::Standard(stdin) => stdin.read(buf)?,
            From::File(file) => file.read(buf)?,
        };
        self.progress.read(&buf[..read]);
        Ok(read)
    }
}

impl<'a> Opens for System<'a> {
    type Source = LogInput<'a>;

    ghost log_bytes = { λ _ _. None };

    fn open_log(&self, name: &str) -> io::Result<LogInput<'a>> {
        if let Some(kept) = self.kept_of(name) {
            let mut file = kept.try_clone()?;
            file.seek(SeekFrom::Start(0))?;
            return Ok(self.input_of(name, file));
        }
        if name == DASH {
            let progress = Progress::of(self.rt, self.shown, shown(name), None);
            return Ok(LogInput {
                from: From::Standard(self.rt.stdin()),
                progress,
            });
        }
        let file = File::open(self.rt, name)?;
        Ok(self.input_of(name, file))
    }
}

/// An output's file that is being written.
#[derive(Drop)]
pub struct Saved {
    to: BufferedWriter<Stream<File>>,
    // another handle of it
    file: File,
    // where it is written
    written: String,
    // where it goes; none where it is written straight into what is no plain file
    place: Option<String>,
}

impl ByteSink for Saved {
    ghost contents = { λ _. None };

    ghost waiting = { λ _. [] };

    ghost fails_with = { λ _. ⊤ };

    fn write(&mut self, buf: &[u8]) -> io::Result<usize> {
        self.to.write(buf)
    }

    fn flush(&mut self) -> io::Result<()> {
        self.to.flush()
    }
}

// So many names are tried for a file beside another, and for a temporary file.
const TRIES: u32 = 1000;

// Read and written by the user alone.
const PRIVATE: u32 = 0o600;

// So many bytes are copied at once.
const COPIED: usize = 65536;

// The name of standard input.
const DASH: &str = "-";

// Copies what is left of a file of a log.
fn copy(from: &mut LogInput<'_>, to: &File) -> Result<(), Failure> {
    let mut from = Stream(from);
    let mut to = Stream(to);
    let mut bytes = [0; COPIED];
    for _ in 0..u64::MAX {
        let count = ByteSource::read(&mut from, &mut bytes).map_err(Failure::Read)?;
        if count == 0 {
            return Ok(());
        }
        writer::put(&mut to, &bytes[..count]).map_err(Failure::Write)?;
    }
    Err(Failure::TooLong)
}

impl<'a> System<'a> {
    /// Returns the files of this process, which has just begun.
    pub fn of(rt: &'a HostRuntime) -> System<'a> {
        System {
            rt,
            shown: ProgressShown::of(rt),
            kept: Vec::new(rt.alloc()),
        }
    }

    // A file of a log with that name.
    fn input_of(&self, name: &str, file: File) -> LogInput<'a> {
        let length = match file.metadata() {
            Ok(found) if found.is_file() => Some(found.len()),
            _ => None,
        };
        LogInput {
            from: From::File(file),
            progress: Progress::of(self.rt, self.shown, shown(name), length),
        }
    }
}

impl System<'_> {
    fn kept_of(&self, name: &str) -> Option<&File> {
        for kept in &self.kept {
            if kept.name.as_str() == name {
                return Some(&kept.file);
            }
        }
        None
    }

    // Whether a second reading gives something else than the first: of standard input, and of what is no plain file.
    fn is_read_once(&self, name: &str) -> bool {
        if name == DASH {
            return true;
        }
        match fs::metadata(self.rt, name) {
            Ok(found) => !found.is_file() && !found.is_dir(),
            Err(_) => false,
        }
    }

    fn temporary_name(&self, number: u32) -> io::Result<String> {
        let found = env::temp_dir(self.rt)?;
        let folder = match found.as_str() {
            "" => "/tmp",
            folder => folder,
        };
        let name = format!(in self.rt.alloc(); "{folder}/log-{number}.part")?;
        Ok(name)
    }

    // A file that was not there, for this user alone. Its name is removed at once: it goes with the process.
    fn create_nameless(&self, name: &str) -> io::Result<File> {
        let mut options = File::options();
        options
            .read(true)
            .write(true)
            .create_new(true)
            .mode(PRIVATE);
        let file = options.open(self.rt, name)?;
        fs::remove_file(self.rt, name)?;
        Ok(file)
    }

    // A temporary file for a file of a log, and the name that it had.
    fn create_temporary<'w>(&self, name: &'w str) -> Result<(File, String), NotKept<'w>> {
        for number in 0..TRIES {
            let written = match self.temporary_name(number) {
                Ok(written) => written,
                Err(error) => return Err(NotKept::Unread(name, error)),
            };
            match self.create_nameless(written.as_str()) {
                Ok(file) => return Ok((file, written)),
                Err(error) if error.kind() == ErrorKind::AlreadyExists => {}
                Err(error) => return Err(NotKept::Unwritten(written, error)),
            }
        }
        Err(NotKept::Unread(name, Error::from(ErrorKind::AlreadyExists)))
    }

    // What a file of a log has, in a temporary file.
    fn kept_file<'w>(&self, name: &'w str) -> Result<File, NotKept<'w>> {
        let mut input = match self.open_log(name) {
            Ok(input) => input,
            Err(error) => return Err(NotKept::Unread(name, error)),
        };
        let (file, written) = self.create_temporary(name)?;
        match copy(&mut input, &file) {
            Ok(()) => Ok(file),
            Err(Failure::Read(error)) => Err(NotKept::Unread(name, error)),
            Err(Failure::Write(error)) => Err(NotKept::Unwritten(written, error)),
            Err(Failure::TooLong) => Err(NotKept::Unwritten(
                written,
                Error::from(ErrorKind::FileTooLarge),
            )),
        }
    }

    fn keep_file<'w>(&mut self, name: &'w str) -> Result<(), NotKept<'w>> {
        let file = self.kept_file(name)?;
        let named = match String::from_str(self.rt.alloc(), name) {
            Ok(named) => named,
            Err(error) => return Err(NotKept::Unread(name, Error::from(error))),
        };
        match self.kept.push(KeptInput { name: named, file }) {
            Ok(()) => Ok(()),
            Err(_) => Err(NotKept::Unread(name, Error::from(ErrorKind::OutOfMemory))),
        }
    }

    // A file that is there is replaced where it lies, and not a link to it; what is no plain file, as a device or a
    // pipe, is written straight into.
    fn place_of(&self, name: &str) -> io::Result<Option<String>> {
        let alloc = self.rt.alloc();
        match fs::metadata(self.rt, name) {
            Ok(found) => {
                if found.is_dir() {
                    return Err(Error::from(ErrorKind::IsADirectory));
                }
                if !found.is_file() {
                    return Ok(None);
                }
                let place = fs::canonicalize(self.rt, name)?;
                Ok(Some(String::from_str(alloc, place.as_str())?))
            }
            Err(_) => Ok(Some(String::from_str(alloc, name)?)),
        }
    }

    // A file that was not there, beside that place.
    fn create_beside(&self, place: &str) -> io::Result<(File, String)> {
        for number in 0..TRIES {
            let name = format!(in self.rt.alloc(); "{place}.{number}.part")?;
            match File::create_new(self.rt, name.as_str()) {
                Ok(file) => return Ok((file, name)),
                Err(error) if error.kind() == ErrorKind::AlreadyExists => {}
                Err(error) => return Err(error),
            }
        }
        Err(Error::from(ErrorKind::AlreadyExists))
    }

    fn open_part(&self, name: &str) -> io::Result<(File, String, Option<String>)> {
        match self.place_of(name)? {
            Some(place) => {
                let (file, written) = self.create_beside(place.as_str())?;
                Ok((file, written, Some(place)))
            }
            None => {
                let written = String::from_str(self.rt.alloc(), name)?;
                let file = File::options().write(true).open(self.rt, name)?;
                Ok((file, written, None))
            }
        }
    }

    // The file at that place keeps its mode; the folder gets the new name.
    fn replace(&self, file: &File, written: &str, place: &str) -> io::Result<()> {
        if let Ok(found) = fs::metadata(self.rt, place) {
            file.set_permissions(found.permissions())?;
        }
        file.sync_all()?;
        fs::rename(self.rt, written, place)
    }

    fn remove(&self, written: &str) {
        let _removed = fs::remove_file(self.rt, written).is_ok();
    }
}

impl Outside for System<'_> {
    type Form = File;

    type Sink = Saved;

    ghost form_bytes = { λ _ _. None };

    ghost fresh = { λ _. None };

    ghost stands = { λ _ _ _. ⊤ };

    fn open_form(&self, name: &str) -> io::Result<File> {
        File::open(self.rt, name)
    }

    fn keep_input<'w>(&mut self, names: &[&'w str]) -> Result<(), NotKept<'w>> {
        for name in names {
            if self.is_read_once(*name) {
                self.keep_file(*name)?;
            }
        }
        Ok(())
    }

    fn create(&self, name: &str) -> io::Result<Saved> {
        let (file, written, place) = self.open_part(name)?;
        let to = BufferedWriter::new(Stream(file.try_clone()?));
        Ok(Saved {
            to,
            file,
            written,
            place,
        })
    }

    fn keep(&self, _name: &str, mut sink: Saved) -> io::Result<()> {
        let flushed = sink.to.flush();
        let Some(place) = &sink.place else {
            return flushed;
        };
        let kept = match flushed {
            Ok(()) => self.replace(&sink.file, sink.written.as_str(), place.as_str()),
            Err(error) => Err(error),
        };
        if kept.is_err() {
            self.remove(sink.written.as_str());
        }
        kept
    }

    fn discard(&self, sink: Saved) {
        if sink.place.is_some() {
            self.remove(sink.written.as_str());
        }
    }
}
