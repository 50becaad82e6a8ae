// What is proved beside the contracts of the functions. The functions here do nothing: their contracts are the
// theorems.
ghost use Rattle.std.specs.Prelude.{◌≡◌, Bool, true, Option, Some};
ghost use Rattle.pjlink.specs.declared.command.Command.{Command};
ghost use Rattle.pjlink.specs.declared.command.Half.{Half};
ghost use Rattle.pjlink.specs.declared.greeting.Greeting.{Greeting};
ghost use Rattle.pjlink.specs.Commands.{is_command, half_code};
ghost use Rattle.pjlink.specs.Said.{Said};
ghost use Rattle.words.specs.declared.input.Source.{Source};
ghost use Rattle.words.specs.declared.power.PowerStatus.{PowerStatus};
ghost use Rattle.words.specs.Inputs.{number_digit};
ghost use Rattle.words.specs.Powers.{power_code, switch_code};
ghost use Rattle.words.specs.Sources.{type_of};
ghost use Rattle.controller.specs.Reading.{ReadingOutcome};
ghost use Rattle.codes.specs.Commands.{coded_command, code_of, used_of, bit, half_number, source_number};
ghost use Rattle.codes.specs.Readings.{greeting_kind, flat_as, power_at_face};
ghost use Rattle.codes.specs.Header.{command_constant, reading_constant, greeting_constant, power_constant};
ghost use Rattle.codes.specs.declared.command.Coded.{Coded};

/// Each command that can be written has one code, and each code stands for a command that can be written, or for none.
/// `stands_for_its_command`, with `command_back` and `command_writable`, says for which: no other reading of codes
/// meets them.
pub fn a_command_has_one_code()
    ensures code_back { (c : Command) → is_command c ≡ true → coded_command (code_of c) ≡ Some c }
    ensures command_back { (k : Coded) (c : Command) → coded_command k ≡ Some c → code_of c ≡ used_of k }
    ensures command_writable { (k : Coded) (c : Command) → coded_command k ≡ Some c → is_command c ≡ true }
    ensures one_code { (j k : Coded) (c : Command) → coded_command j ≡ Some c → coded_command k ≡ Some c
        → used_of j ≡ used_of k }
    ensures stands_for_its_command { (k : Coded) (c : Command) → is_command c ≡ true → code_of c ≡ used_of k
        → coded_command k ≡ Some c }
{}

/// A value has at the C face the number whose digit a line has for it: a power, on and off or up and down, what AVMT
/// mutes. A type of inputs has its number in the table of types.
#[tactic(auto, using(crate::proofs::CommandsCoded::face_follows))]
pub fn a_value_is_its_digit()
    ensures power { (p : PowerStatus) → power_code p ≡ number_digit (power_at_face p) }
    ensures switch { (on : Bool) → switch_code on ≡ number_digit (bit on) }
    ensures half { (h : Half) → half_code h ≡ number_digit (half_number h) }
    ensures type_by_the_table { (s : Source) → source_number s ≡ type_of s }
{}

/// The codes of commands, the kinds of readings and of greetings, and the powers have the numbers of the header's
/// constants.
pub fn the_header_names_the_codes()
    ensures codes { (c : Command) → (code_of c).code ≡ (command_constant c).number }
    ensures readings { (o : ReadingOutcome) (m : Said) → (flat_as o m).kind ≡ (reading_constant o m).number }
    ensures greetings { (g : Option Greeting) → greeting_kind g ≡ (greeting_constant g).number }
    ensures powers { (p : PowerStatus) → power_at_face p ≡ (power_constant p).number }
{}
