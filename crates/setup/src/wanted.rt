// The settings that set-up is given, and whether they can be set up (RULES, The legal record).
ghost use Rattle.std.specs.Prelude.{◌≡◌};
ghost use Rattle.record.specs.SetUp.{is_setting_in_range, first_out_of_range, set_up};
ghost use Rattle.record.specs.Limits.{only_in_2};
ghost use Rattle.record.specs.Rules.{are_names};
ghost use Rattle.record.specs.Wanted.{wanted_of, names_in};
ghost use Rattle.setup.specs.Lent.{wanted_settings, class_number, serial_of, version_of, names_lent, names_of};
ghost use Rattle.setup.specs.Lent.{with_class_2};

use crate::names::CountedNames;
use record::set_up_error::SetUpError;
use record::types::Setting;
use record::{inputs, names, own, settings};
use words::texts;

/// The names of inputs, as set-up is given them (RULES, Class 2).
#[derive(Clone, Copy)]
pub enum Names<'a> {
    /// One after the other, and the length of each. If the lengths do not add up to the bytes, there are no names.
    Packed {
        bytes: &'a [u8],
        lengths: &'a [usize],
    },
    /// As a stored form has them (RULES, Stored form).
    Counted(CountedNames<'a>),
}

/// The class of a projector, with what it alone has (RULES, Class 2).
#[derive(Clone, Copy)]
pub enum Class<'a> {
    /// Class 1, which has nothing of its own.
    One,
    /// Serial number and software version, each of at most 32 bytes, and a name of at most 128 bytes for each input.
    Two {
        serial: &'a [u8],
        version: &'a [u8],
        names: Names<'a>,
    },
}

/// The settings that a projector is to have (RULES, The legal record).
#[derive(Clone, Copy)]
pub struct Wanted<'a> {
    /// What NAME answers: at most 64 bytes, in UTF-8.
    pub name: &'a [u8],
    /// What INF1 answers: at most 32 bytes.
    pub maker: &'a [u8],
    /// What INF2 answers: at most 32 bytes.
    pub model: &'a [u8],
    /// What INFO answers: at most 32 bytes.
    pub other: &'a [u8],
    /// Empty, which is no security, or 8 to 32 ASCII letters and digits (RULES, Passwords).
    pub password: &'a [u8],
    /// 1 to 32 inputs of the class, all different: two ASCII characters each (RULES, Inputs).
    pub inputs: &'a [u8],
    /// The starting seconds of 0 to 8 lamps (RULES, Lamps).
    pub lamps: &'a [u32],
    /// The seconds of warm-up, 1 to 600.
    pub warm: u32,
    /// The seconds of cooling, 1 to 600.
    pub cool: u32,
    /// The class, with serial number, version and names of inputs in Class 2.
    pub class: Class<'a>,
}

impl<'a> Names<'a> {
    /// No name.
    pub const NONE: Names<'static> = Names::Packed {
        bytes: &[],
        lengths: &[],
    };

    // Returns whether the names are those of this many inputs of the class.
    fn are_fitting(&self, class: u8, inputs: usize) -> bool
        ensures { result ≡ are_names (only_in_2 class inputs) (names_lent self.now) }
    {
        match *self {
            Names::Packed { bytes, lengths } => names::are_names_of(class, inputs, bytes, lengths),
            Names::Counted(names) => names.are_fitting(class, inputs),
        }
    }
}

impl<'a> Class<'a> {
    /// Returns 1 or 2.
    pub fn number(&self) -> u8
        ensures { result ≡ class_number self.now }
    {
        match self {
            Class::One => 1,
            Class::Two { .. } => 2,
        }
    }

    /// Returns the serial number. In Class 1 it is empty.
    pub fn serial(&self) -> &'a [u8]
        ensures { result.now ≡ serial_of self.now }
    {
        match *self {
            Class::One => &[],
            Class::Two { serial, .. } => serial,
        }
    }

    /// Returns the software version. In Class 1 it is empty.
    pub fn version(&self) -> &'a [u8]
        ensures { result.now ≡ version_of self.now }
    {
        match *self {
            Class::One => &[],
            Class::Two { version, .. } => version,
        }
    }

    /// Returns the inputs' names. In Class 1 there are none.
    pub fn names(&self) -> Names<'a>
        ensures { names_lent result ≡ names_of self.now }
    {
        match *self {
            Class::One => Names::NONE,
            Class::Two { names, .. } => names,
        }
    }
}

impl<'a> Wanted<'a> {
    /// Returns the settings of a projector of Class 1. The arguments are in the order in which they are tested.
    pub fn for_class_1(
        name: &'a [u8],
        maker: &'a [u8],
        model: &'a [u8],
        other: &'a [u8],
        password: &'a [u8],
        inputs: &'a [u8],
        lamps: &'a [u32],
        warm: u32,
        cool: u32,
    ) -> Wanted<'a>
        ensures { wanted_settings result ≡ wanted_of name.now maker.now model.now other.now password.now inputs.now
            lamps.now warm cool }
    {
        Wanted {
            name,
            maker,
            model,
            other,
            password,
            inputs,
            lamps,
            warm,
            cool,
            class: Class::One,
        }
    }

    /// Returns the same settings for a projector of Class 2, with what it alone has: serial number, software version,
    /// and the names of its inputs, one after the other, with the length of each.
    pub fn for_class_2(
        self,
        serial: &'a [u8],
        version: &'a [u8],
        names: &'a [u8],
        lengths: &'a [usize],
    ) -> Wanted<'a>
        ensures { wanted_settings result ≡ with_class_2 serial.now version.now (names_in lengths.now names.now)
            (wanted_settings self.entry) }
    {
        let names = Names::Packed {
            bytes: names,
            lengths,
        };
        Wanted {
            class: Class::Two {
                serial,
                version,
                names,
            },
            ..self
        }
    }

    fn is_in_range(&self, setting: Setting) -> bool
        ensures { result ≡ is_setting_in_range (wanted_settings self.now) setting }
    {
        let class = self.class.number();
        match setting {
            Setting::Name => texts::is_name(self.name),
            Setting::Maker => texts::is_info(self.maker),
            Setting::Model => texts::is_info(self.model),
            Setting::Other => texts::is_info(self.other),
            Setting::Password => texts::is_password(self.password),
            Setting::Inputs => inputs::is_inputs(class, self.inputs),
            Setting::Lamps => own::is_lamps(self.lamps),
            Setting::WarmUp => settings::is_transition(self.warm),
            Setting::Cooling => settings::is_transition(self.cool),
            Setting::Serial => names::is_info_of(class, self.class.serial()),
            Setting::Version => names::is_info_of(class, self.class.version()),
            Setting::Names => self.class.names().are_fitting(class, self.inputs.len() / 2),
        }
    }

    /// Returns the first setting that is out of its range. A short password is in its range.
    pub fn first_out_of_range(&self) -> Option<Setting>
        ensures { result ≡ first_out_of_range (wanted_settings self.now) }
    {
        Setting::IN_ORDER
            .iter()
            .copied()
            .find(|s| !self.is_in_range(*s))
    }

    /// Returns whether the settings can be set up. Errors, in this order: a setting is out of its range; the password
    /// is too short.
    #[tactic(auto, using(crate::proofs::Refusals::reasons))]
    pub fn check(&self) -> Result<(), SetUpError>
        ensures { result ≡ (set_up (wanted_settings self.now)).says }
    {
        if let Some(setting) = self.first_out_of_range() {
            return Err(SetUpError::OutOfRange(setting));
        }
        if !settings::is_long_enough(self.password.len()) {
            return Err(SetUpError::ShortPassword);
        }
        Ok(())
    }
}
