// The words of a command line.
ghost use Rattle.std.specs.Prelude.{◌≡◌, map};
ghost use Rattle.std.specs.List.{before_first, after_first};
ghost use Rattle.command.specs.Asked.{use_of, is_equals, is_dashed, asked_by, Asks};

use calendar::Moment;
use std::alloc::{AllocError, Global};
use std::convert::AsStr;

/// Why a command line asks for no log.
#[derive(Clone, Copy)]
pub enum Stop<'a> {
    /// It asks for the help.
    Help,
    /// It asks for the version.
    Version,
    /// The program knows no such word.
    Unknown(&'a str),
    /// It ends where a file's name must follow this word.
    Alone(&'a str),
    /// It has this word twice.
    Twice(&'a str),
    /// It has this word, for standard input, as the form's file.
    NoForm(&'a str),
    /// It has this word as a day and a time of day.
    NoMoment(&'a str),
    /// It has this word where a number of hours is wanted.
    NoHours(&'a str),
    /// It has this word beside another that asks for an output of another kind.
    Apart(&'a str),
    /// There is no memory for the words.
    NoMemory,
}

impl From<AllocError> for Stop<'_> {
    ghost use Rattle.command.specs.declared.asked.Stop.TheVariants.{NoMemory};

    ghost from_gives = { λ _ s. s ≡ NoMemory };

    fn from(_error: AllocError) -> Self {
        Stop::NoMemory
    }
}

// What the word that is read next is.
#[derive(Clone, Copy)]
enum Next {
    Any,
    FormName,
    OutputName,
    Moment,
    Long,
    Life,
    // no option comes any more
    Free,
}

// What a name that begins with `-` asks for.
#[derive(Clone, Copy)]
enum Use {
    Help,
    Version,
    Page,
    Csv,
    Began,
    Long,
    Life,
    Form,
    Output,
    Unknown,
}

/// What is written of a log.
#[derive(Clone, Copy, Debug, PartialEq, Eq)]
pub enum Shape {
    /// Lines, as they come.
    Lines,
    /// One HTML document.
    Page,
    /// A table of comma-separated values.
    Csv,
}

/// What a command line asks for.
#[derive(Drop)]
pub struct Arguments<'a> {
    /// What is written.
    pub shape: Shape,
    /// When the log began, if that is given.
    pub began: Option<Moment>,
    /// A stretch of more than so many hours is a long one, if that is said: 0 to 99,999.
    pub long: Option<u32>,
    /// So many hours a lamp lives, if that is said: 0 to 99,999.
    pub life: Option<u32>,
    /// The file of the stored form that the log begins with; none for the sample set-up.
    pub form: Option<&'a str>,
    /// The file that the output goes into; none for standard output.
    pub output: Option<&'a str>,
    /// The files of the log in their order, `-` for standard input; none for standard input alone.
    pub logs: Vec<&'a str>,
}

// The words read so far.
#[derive(Drop)]
struct ArgumentParser<'a> {
    next: Next,
    shape: Shape,
    began: Option<Moment>,
    long: Option<u32>,
    life: Option<u32>,
    form: Option<&'a str>,
    output: Option<&'a str>,
    free: Vec<&'a str>,
    // whether `-` is among these
    dash: bool,
}

fn use_of(has_page: bool, name: &str) -> Use
    ensures { result ≡ use_of has_page name.now }
{
    if name == "-h" || name == "--help" {
        return Use::Help;
    }
    if name == "-V" || name == "--version" {
        return Use::Version;
    }
    if has_page && name == "--page" {
        return Use::Page;
    }
    if has_page && name == "--csv" {
        return Use::Csv;
    }
    if has_page && name == "--began" {
        return Use::Began;
    }
    if has_page && name == "--long" {
        return Use::Long;
    }
    if has_page && name == "--life" {
        return Use::Life;
    }
    if name == "--form" {
        return Use::Form;
    }
    if name == "-o" || name == "--output" {
        return Use::Output;
    }
    Use::Unknown
}

// Whether a word is an option: it begins with `-`, and is not that alone.
fn is_dashed(word: &str) -> bool
    ensures { result ≡ is_dashed word.now }
{
    match word.as_bytes() {
        [b'-', _, ..] => true,
        _ => false,
    }
}

// The text before the first `=`, and the text after it.
fn cut(word: &str) -> (&str, &str)
    ensures before { result.0.now ≡ before_first is_equals word.now }
    ensures after { result.1.now ≡ after_first is_equals word.now }
{
    word.split_once('=').unwrap_or((word, ""))
}

impl<'a> ArgumentParser<'a> {
    ghost use Rattle.command.specs.Asked.{seen_in, GoesOn, with_began, with_form, with_output, with_free};
    ghost use Rattle.command.specs.Asked.{with_long, with_life, with_page, with_csv, by_option, after_word};
    ghost use Rattle.command.specs.Asked.{begun, ended, read_on};

    fn new(alloc: Global) -> ArgumentParser<'a>
        ensures { seen_in result ≡ begun }
    {
        ArgumentParser {
            next: Next::Any,
            shape: Shape::Lines,
            began: None,
            long: None,
            life: None,
            form: None,
            output: None,
            free: Vec::new(alloc),
            dash: false,
        }
    }

    fn with_began(mut self, word: &'a str) -> Result<ArgumentParser<'a>, Stop<'a>>
        ensures { GoesOn result (with_began (seen_in self.entry) word.now) }
    {
        if self.began.is_some() {
            return Err(Stop::Twice("--began"));
        }
        let Some(moment) = calendar::moment_in(word.as_bytes()) else {
            return Err(Stop::NoMoment(word));
        };
        self.began = Some(moment);
        self.next = Next::Any;
        Ok(self)
    }

    fn with_long(mut self, word: &'a str) -> Result<ArgumentParser<'a>, Stop<'a>>
        ensures { GoesOn result (with_long (seen_in self.entry) word.now) }
    {
        if self.long.is_some() {
            return Err(Stop::Twice("--long"));
        }
        let Some(hours) = numbers::read_number(word.as_bytes()) else {
            return Err(Stop::NoHours(word));
        };
        self.long = Some(hours);
        self.next = Next::Any;
        Ok(self)
    }

    fn with_life(mut self, word: &'a str) -> Result<ArgumentParser<'a>, Stop<'a>>
        ensures { GoesOn result (with_life (seen_in self.entry) word.now) }
    {
        if self.life.is_some() {
            return Err(Stop::Twice("--life"));
        }
        let Some(hours) = numbers::read_number(word.as_bytes()) else {
            return Err(Stop::NoHours(word));
        };
        self.life = Some(hours);
        self.next = Next::Any;
        Ok(self)
    }

    fn with_page(mut self, word: &'a str) -> Result<ArgumentParser<'a>, Stop<'a>>
        ensures { GoesOn result (with_page (seen_in self.entry) word.now) }
    {
        match self.shape {
            Shape::Csv => Err(Stop::Apart(word)),
            _ => {
                self.shape = Shape::Page;
                Ok(self)
            }
        }
    }

    fn with_csv(mut self, word: &'a str) -> Result<ArgumentParser<'a>, Stop<'a>>
        ensures { GoesOn result (with_csv (seen_in self.entry) word.now) }
    {
        match self.shape {
            Shape::Page => Err(Stop::Apart(word)),
            _ => {
                self.shape = Shape::Csv;
                Ok(self)
            }
        }
    }

    fn with_form(mut self, name: &'a str) -> Result<ArgumentParser<'a>, Stop<'a>>
        ensures { GoesOn result (with_form (seen_in self.entry) name.now) }
    {
        if self.form.is_some() {
            return Err(Stop::Twice("--form"));
        }
        self.form = Some(name);
        self.next = Next::Any;
        Ok(self)
    }

    fn with_output(mut self, name: &'a str) -> Result<ArgumentParser<'a>, Stop<'a>>
        ensures { GoesOn result (with_output (seen_in self.entry) name.now) }
    {
        if self.output.is_some() {
            return Err(Stop::Twice("--output"));
        }
        self.output = Some(name);
        self.next = Next::Any;
        Ok(self)
    }

    fn with_free(mut self, word: &'a str) -> Result<ArgumentParser<'a>, Stop<'a>>
        ensures { GoesOn result (with_free (seen_in self.entry) word.now) }
    {
        let is_dash = word == "-";
        if is_dash && self.dash {
            return Err(Stop::Twice(word));
        }
        self.dash = self.dash || is_dash;
        self.free.push(word).map_err(|_| Stop::NoMemory)?;
        Ok(self)
    }

    fn by_option(mut self, has_page: bool, word: &'a str) -> Result<ArgumentParser<'a>, Stop<'a>>
        ensures { GoesOn result (by_option has_page (seen_in self.entry) word.now) }
    {
        let (name, value) = cut(word);
        let is_alone = name.len() == word.len();
        match (use_of(has_page, name), is_alone) {
            (Use::Help, true) => Err(Stop::Help),
            (Use::Version, true) => Err(Stop::Version),
            (Use::Page, true) => self.with_page(word),
            (Use::Csv, true) => self.with_csv(word),
            (Use::Began, true) => {
                self.next = Next::Moment;
                Ok(self)
            }
            (Use::Began, false) => self.with_began(value),
            (Use::Long, true) => {
                self.next = Next::Long;
                Ok(self)
            }
            (Use::Long, false) => self.with_long(value),
            (Use::Life, true) => {
                self.next = Next::Life;
                Ok(self)
            }
            (Use::Life, false) => self.with_life(value),
            (Use::Form, true) => {
                self.next = Next::FormName;
                Ok(self)
            }
            (Use::Form, false) => self.with_form(value),
            (Use::Output, true) => {
                self.next = Next::OutputName;
                Ok(self)
            }
            (Use::Output, false) => self.with_output(value),
            _ => Err(Stop::Unknown(word)),
        }
    }

    #[tactic(auto, unfolding(crate::specs::Asked::after_word))]
    fn after_word(mut self, has_page: bool, word: &'a str) -> Result<ArgumentParser<'a>, Stop<'a>>
        ensures { GoesOn result (after_word has_page (seen_in self.entry) word.now) }
    {
        match self.next {
            Next::FormName => self.with_form(word),
            Next::OutputName => self.with_output(word),
            Next::Moment => self.with_began(word),
            Next::Long => self.with_long(word),
            Next::Life => self.with_life(word),
            Next::Free => self.with_free(word),
            Next::Any => {
                if word == "--" {
                    self.next = Next::Free;
                    return Ok(self);
                }
                if is_dashed(word) {
                    return self.by_option(has_page, word);
                }
                self.with_free(word)
            }
        }
    }

    // What they ask for where they end.
    #[tactic(auto, unfolding(crate::specs::Asked::ended))]
    fn end(self) -> Result<Arguments<'a>, Stop<'a>>
        ensures { Asks result (ended (seen_in self.entry)) }
    {
        match self.next {
            Next::FormName => return Err(Stop::Alone("--form")),
            Next::OutputName => return Err(Stop::Alone("--output")),
            Next::Moment => return Err(Stop::NoMoment("--began")),
            Next::Long => return Err(Stop::NoHours("--long")),
            Next::Life => return Err(Stop::NoHours("--life")),
            _ => {}
        }
        let (shape, began, long, life) = (self.shape, self.began, self.long, self.life);
        let (output, mut logs) = (self.output, self.free);
        let form = match self.form {
            Some(name) => Some(name),
            None => {
                if logs.is_empty() {
                    None
                } else {
                    let first = logs.remove(0);
                    if first == "-" {
                        return Err(Stop::NoForm(first));
                    }
                    Some(first)
                }
            }
        };
        Ok(Arguments {
            shape,
            began,
            long,
            life,
            form,
            output,
            logs,
        })
    }
}

/// Returns what the words of a command line ask for, without the program's name; `has_page` if the program knows
/// `--page`. The first word that ends it decides.
#[tactic(auto, unfolding(crate::specs::Asked::asked_by, crate::specs::Asked::read_on))]
pub fn command_of<'a, S: AsStr>(
    alloc: Global,
    words: &'a [S],
    has_page: bool,
) -> Result<Arguments<'a>, Stop<'a>>
    ensures { Asks result (asked_by has_page (map S.text words.now)) }
{
    let mut reading = ArgumentParser::new(alloc);
    let mut left = words;
    while let [word, later @ ..] = left {
        reading = reading.after_word(has_page, word.as_str())?;
        left = later;
    }
    reading.end()
}
