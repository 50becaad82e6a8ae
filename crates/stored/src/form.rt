// A stored form, read from left to right as its grammar has it (RULES, Stored form, Lamps and Class 2).
ghost use Rattle.std.specs.Prelude.{◌≡◌, false, IfSome, IsNone};
ghost use Rattle.record.specs.Limits.{is_class_number};
ghost use Rattle.setup.specs.Lent.{class_number, serial_of, version_of, names_of};
ghost use Rattle.stored.specs.Form.{parts_read, parts_in_class_2, parts_with_class, marks_part, class_part};
ghost use Rattle.stored.specs.Form.{form};
ghost use Rattle.stored.specs.Reads.{Reads};
ghost use Rattle.stored.specs.Views.{said_of};

use crate::error::LoadError;
use crate::reader::FormReader;
use crate::storing::VERSION;
use setup::wanted::{Class, Names};

/// The version before lamps had marks.
pub const OLD_VERSION: u8 = 1;

/// The version before there were classes.
pub const MARKED_VERSION: u8 = 2;

/// What a form says. Of a lamp these are the four bytes of its seconds; the oldest version has no marks.
#[derive(Clone, Copy)]
pub struct Form<'a> {
    /// 0 to 255 bytes, without their count as all sections here; at most 64 where the form loads (RULES, Texts).
    pub name: &'a [u8],
    /// 0 to 255 bytes; at most 32 where the form loads.
    pub maker: &'a [u8],
    /// 0 to 255 bytes; at most 32 where the form loads.
    pub model: &'a [u8],
    /// Other information, 0 to 255 bytes; at most 32 where the form loads.
    pub other: &'a [u8],
    /// 0 to 255 bytes; none, or 8 to 32 letters and digits, where the form loads (RULES, Passwords).
    pub password: &'a [u8],
    /// Two characters for each of 0 to 255 inputs; 1 to 32 where the form loads (RULES, Inputs).
    pub inputs: &'a [u8],
    /// The seconds of 0 to 255 lamps, four bytes each with the highest first; at most 8 lamps where the form loads.
    pub lamps: &'a [u8],
    /// 0 to 255 bytes, one of 0 or 1 for each lamp where the form loads. None in version 1: every mark is set there.
    pub marks: Option<&'a [u8]>,
    /// W in seconds, 0 to 65,535; 1 to 600 where the form loads.
    pub warm: u32,
    /// C in seconds, 0 to 65,535; 1 to 600 where the form loads.
    pub cool: u32,
    /// The class byte, whatever it is; 1 where the version has none.
    pub class: u8,
    /// The serial number, 0 to 255 bytes; at most 32 where the form loads. Only Class 2 has it, and what follows.
    pub serial: &'a [u8],
    /// The version of the software, 0 to 255 bytes; at most 32 where the form loads.
    pub version: &'a [u8],
    /// A name for each input, 0 to 255 bytes each; at most 128 where the form loads.
    pub names: Names<'a>,
}

impl<'a> Form<'a> {
    // Nothing is read yet: the class is 1 unless another one is.
    const NOTHING: Form<'static> = Form {
        name: &[],
        maker: &[],
        model: &[],
        other: &[],
        password: &[],
        inputs: &[],
        lamps: &[],
        marks: None,
        warm: 0,
        cool: 0,
        class: 1,
        serial: &[],
        version: &[],
        names: Names::NONE,
    };

    /// The class with what it has, if there is such a class.
    pub fn class(&self) -> Option<Class<'a>>
        ensures number { IfSome result (λ c. class_number c ≡ (said_of self.now).settings.class) }
        ensures serial { IfSome result (λ c. serial_of c ≡ (said_of self.now).settings.serial) }
        ensures version { IfSome result (λ c. version_of c ≡ (said_of self.now).settings.version) }
        ensures names { IfSome result (λ c. names_of c ≡ (said_of self.now).settings.names) }
        ensures none { IsNone result → is_class_number self.now.class ≡ false }
    {
        match self.class {
            1 => Some(Class::One),
            2 => Some(Class::Two {
                serial: self.serial,
                version: self.version,
                names: self.names,
            }),
            _ => None,
        }
    }
}

impl<'a> FormReader<'a> {
    // The marks, which the oldest version has not.
    fn marks_part(&mut self, version: u8, form: &mut Form<'a>) -> Result<(), LoadError>
        ensures class { form.new.class ≡ form.old.class }
        ensures read { Reads (λ u. said_of form.new) result self.new
            ((marks_part version).read (said_of form.old) self.old) }
    {
        if version == OLD_VERSION {
            return Ok(());
        }
        form.marks = Some(self.text()?);
        Ok(())
    }

    // What Class 2 alone has.
    fn parts_in_class_2(&mut self, form: &mut Form<'a>) -> Result<(), LoadError>
        requires { form.old.class ≡ 2 }
        ensures { Reads (λ u. said_of form.new) result self.new
            (parts_read parts_in_class_2 (said_of form.old) self.old) }
    {
        form.serial = self.text()?;
        form.version = self.text()?;
        form.names = Names::Counted(self.names(form.inputs.len() / 2)?);
        Ok(())
    }

    // The class, and what it has.
    fn parts_with_class(&mut self, form: &mut Form<'a>) -> Result<(), LoadError>
        requires { form.old.class ≡ 1 }
        ensures { Reads (λ u. said_of form.new) result self.new
            (parts_read parts_with_class (said_of form.old) self.old) }
    {
        form.class = self.byte()?;
        if form.class != 2 {
            return Ok(());
        }
        self.parts_in_class_2(form)
    }

    // The same in the newest version, which alone has a class.
    fn class_part(&mut self, version: u8, form: &mut Form<'a>) -> Result<(), LoadError>
        requires { form.old.class ≡ 1 }
        ensures { Reads (λ u. said_of form.new) result self.new
            ((class_part version).read (said_of form.old) self.old) }
    {
        if version != VERSION {
            return Ok(());
        }
        self.parts_with_class(form)
    }

    /// The form, of whatever version.
    #[tactic(auto, unfolding(crate::specs::Form::form))]
    pub fn form(&mut self) -> Result<Form<'a>, LoadError>
        ensures { Reads said_of result self.new (form self.old) }
    {
        let version = self.byte()?;
        let mut form = Form::NOTHING;
        form.name = self.text()?;
        form.maker = self.text()?;
        form.model = self.text()?;
        form.other = self.text()?;
        form.password = self.text()?;
        form.inputs = self.section(2)?;
        form.lamps = self.section(4)?;
        self.marks_part(version, &mut form)?;
        form.warm = self.number()?;
        form.cool = self.number()?;
        self.class_part(version, &mut form)?;
        Ok(form)
    }
}
