// What is proved beside the contracts of the functions. The functions here do nothing: their contracts are the
// theorems.
ghost use Rattle.std.specs.Prelude.{◌≡◌, ◌≤◌, ◌++◌, ℕ, Bool, List, Option, Result, false, true, not, length};
ghost use Rattle.std.specs.Prelude.{[], ◌∷◌, map, codes, Ok, Err, Some, None};
ghost use Rattle.words.specs.Bytes.{◌at◌, is_cr_free};
ghost use Rattle.pjlink.specs.declared.answer.Answer.{Answer};
ghost use Rattle.words.specs.declared.error_reply.ErrorReply.{ErrorReply};
ghost use Rattle.words.specs.declared.class.ClassNumber.TheVariants.{One, Two};
ghost use Rattle.words.specs.declared.input.Source.TheVariants.{Internal};
ghost use Rattle.pjlink.specs.Carried.{parameter_said};
ghost use Rattle.pjlink.specs.Said.{said_bytes, nothing, Said, parameter_most};
ghost use Rattle.pjlink.specs.Said.{refused, lamps_are, inputs_are, text_is, class_is, freeze_is};
ghost use Rattle.std.specs.List.{filter};
ghost use Rattle.pjlink.specs.Bodies.{bodies, has_query};
ghost use Rattle.pjlink.specs.Commands.{class_digit, command_line};
ghost use Rattle.pjlink.specs.Forms.{is_command_form, line_class, head_body, is_reply_form, reply_parameter};
ghost use Rattle.pjlink.specs.Forms.{IsLetters, reply_line};
ghost use Rattle.pjlink.specs.declared.command.Command.{Command};
ghost use Rattle.pjlink.specs.declared.command.Command.TheVariants.{InputSet, FreezeSet, VolumeStep};
ghost use Rattle.pjlink.specs.declared.command.Command.TheVariants.{NameQuery, Query};
ghost use Rattle.pjlink.specs.declared.command.Volume.TheVariants.{Speaker, Microphone};
ghost use Rattle.pjlink.specs.declared.body.Body.TheVariants.{Inpt, Lamp, Inst, Clss, Frez, Snum, Svol, Mvol, Innm};
ghost use Rattle.pjlink.specs.declared.request.Unasked.TheVariants.{Unlisted, UnknownBody};
ghost use Rattle.pjlink.specs.Reading.{read_parameter};
ghost use Rattle.pjlink.specs.Greetings.{read_greeting};
ghost use Rattle.pjlink.specs.declared.greeting.Greeting.{Greeting};
ghost use Rattle.pjlink.specs.declared.greeting.Greeting.TheVariants.{Secured};
ghost use Rattle.pjlink.specs.Writings.{Says, IsAllowed};
ghost use Rattle.pjlink.specs.Worked.{hdmi, request_to};

/// Two lines that meet the contract of one call are equal. Two replies, or two greetings, read from the same bytes say
/// the same.
pub fn one_result()
    ensures answer_written { (out : List ℕ) (m : Said) (k l : List ℕ)
        → k ≡ out ++ said_bytes m → l ≡ out ++ said_bytes m → k ≡ l }
    ensures parameter_read { (c : Command) (p : List ℕ) (r s : Option (Result Answer ErrorReply))
        → parameter_said r ≡ read_parameter c p → parameter_said s ≡ read_parameter c p
        → parameter_said r ≡ parameter_said s }
    ensures greeting_read { (l : List ℕ) (r s : Option Greeting) → r ≡ read_greeting l → s ≡ read_greeting l → r ≡ s }
{}

/// What is read of a parameter is an answer of which the parameter is a writing. Each writing of an answer is read as
/// that answer. Nothing is read exactly if the parameter is a writing of no answer.
pub fn what_is_read_was_written()
    ensures read_was_written { (c : Command) (p : List ℕ)
        → (read_parameter c p ≡ nothing → ⊥) → Says c (read_parameter c p) p }
    ensures written_is_read { (c : Command) (p : List ℕ) (m : Said) → Says c m p → read_parameter c p ≡ m }
    ensures one_meaning { (c : Command) (p : List ℕ) (m n : Said) → Says c m p → Says c n p → m ≡ n }
    ensures not_allowed { (c : Command) (p : List ℕ) → IsAllowed c p false → read_parameter c p ≡ nothing }
    ensures allowed { (c : Command) (p : List ℕ) → IsAllowed c p true → read_parameter c p ≡ nothing → ⊥ }
    ensures either { (c : Command) (p : List ℕ) → (t : Bool) × IsAllowed c p t }
{}

/// A line that a set-up takes is of its class or of a lower one, and has that class's digit. A reply of one class is no
/// reply of another (RULES, Class 2).
pub fn a_line_has_its_class()
    ensures taken { (k : ℕ) (l : List ℕ) → is_command_form k l ≡ true → 1 ≤ k → line_class l ≤ k }
    ensures digit { (k : ℕ) (l : List ℕ) → is_command_form k l ≡ true → l at 1 ≡ class_digit (line_class l) }
    ensures other { (s : List ℕ) → IsLetters s → (j k : ℕ) (p : List ℕ) → (j ≡ k → ⊥)
        → length p ≤ parameter_most → is_cr_free p ≡ true → is_reply_form k (reply_line (class_digit j) s p) ≡ false }
{}

/// A reply built from a class, a body and a parameter has the form of that class, and its body and parameter are read
/// back from it. A line of the form has its head and its CR (RULES, Controller).
pub fn a_reply_gives_its_parts()
    ensures form { (s : List ℕ) → IsLetters s → (k : ℕ) (p : List ℕ) → length p ≤ parameter_most → is_cr_free p ≡ true
        → is_reply_form k (reply_line (class_digit k) s p) ≡ true }
    ensures body { (s : List ℕ) → IsLetters s → (h : ℕ) (p : List ℕ) → length p ≤ parameter_most → is_cr_free p ≡ true
        → head_body (reply_line h s p) ≡ s }
    ensures parameter { (s : List ℕ) → IsLetters s → (h : ℕ) (p : List ℕ) → length p ≤ parameter_most
        → is_cr_free p ≡ true → reply_parameter (reply_line h s p) ≡ p }
    ensures long { (k : ℕ) (l : List ℕ) → is_reply_form k l ≡ true → 8 ≤ length l }
{}

/// Worked lines (RULES, Controller and Class 2): commands of Class 2 as they are written; which lines have the form of
/// each class; what a line asks for under each; which bodies `?` alone does not ask; and a random number, whose digits
/// are in lower case.
#[tactic(auto, using(crate::proofs::Examples::worked_lines))]
pub fn lines_are_worked_out()
    ensures written { map command_line
        (InputSet Two hdmi ∷ FreezeSet true ∷ VolumeStep Speaker true ∷ VolumeStep Microphone false ∷ NameQuery hdmi
        ∷ Query Snum ∷ [])
        ≡ codes "%2INPT 31\r" ∷ codes "%2FREZ 1\r" ∷ codes "%2SVOL 1\r" ∷ codes "%2MVOL 0\r" ∷ codes "%2INNM ?31\r"
        ∷ codes "%2SNUM ?\r" ∷ [] }
    ensures class_1_forms { map (is_command_form 1) (codes "%1INST ?" ∷ codes "%2INST ?" ∷ codes "%3INST ?" ∷ [])
        ≡ true ∷ false ∷ false ∷ [] }
    ensures class_2_forms { map (is_command_form 2) (codes "%1INST ?" ∷ codes "%2INST ?" ∷ codes "%3INST ?" ∷ [])
        ≡ true ∷ true ∷ false ∷ [] }
    ensures requests { request_to 1 "INPT" "31" ∷ request_to 2 "inpt" "31" ∷ request_to 2 "INPT" "3a"
        ∷ request_to 1 "INST" "?" ∷ request_to 2 "CLSS" "?" ∷ request_to 1 "SNUM" "?"
        ∷ request_to 2 "SNUM" "1" ∷ request_to 2 "SVOL" "?" ∷ request_to 2 "INNM" "?31"
        ∷ request_to 2 "INNM" "?" ∷ []
        ≡ Ok (InputSet One hdmi) ∷ Ok (InputSet Two hdmi) ∷ Err (Unlisted (Inpt Two))
        ∷ Ok (Query (Inst One)) ∷ Err UnknownBody ∷ Err UnknownBody
        ∷ Err (Unlisted Snum) ∷ Err (Unlisted Svol) ∷ Ok (NameQuery hdmi)
        ∷ Err (Unlisted Innm) ∷ [] }
    ensures unasked { filter (λ b. not (has_query b)) bodies ≡ Svol ∷ Mvol ∷ Innm ∷ [] }
    ensures random_heard { read_greeting (codes "PJLINK 1 498e4a67\r") ≡ Some (Secured 1234061927) }
    ensures upper_case_unheard { read_greeting (codes "PJLINK 1 498E4A67\r") ≡ None }
{}

/// Worked parameters of replies (RULES, Controller and Class 2): lamps of other makers, with zeros before their hours,
/// to five digits in all; the classes; a freeze; inputs of Class 2; ERR2, which is allowed in reply to the query of an
/// input's name, and not to `?`.
#[tactic(auto, using(crate::proofs::Examples::worked_parameters))]
pub fn parameters_are_worked_out()
    ensures padded_hours { read_parameter (Query Lamp) (codes "00412 1")
        ≡ lamps_are (record { hours = 412; lit = true } ∷ []) }
    ensures five_zeros { read_parameter (Query Lamp) (codes "00000 0")
        ≡ lamps_are (record { hours = 0; lit = false } ∷ []) }
    ensures six_zeros { read_parameter (Query Lamp) (codes "000000 0") ≡ nothing }
    ensures no_hours { read_parameter (Query Lamp) (codes " 0") ≡ nothing }
    ensures each_as_it_is { read_parameter (Query Lamp) (codes "07 1 7 0")
        ≡ lamps_are (record { hours = 7; lit = true } ∷ record { hours = 7; lit = false } ∷ []) }
    ensures classes { map (read_parameter (Query Clss)) (codes "1" ∷ codes "2" ∷ codes "3" ∷ codes "12" ∷ [])
        ≡ class_is One ∷ class_is Two ∷ nothing ∷ nothing ∷ [] }
    ensures frozen { map (read_parameter (Query Frez)) (codes "0" ∷ codes "1" ∷ codes "2" ∷ codes "OK" ∷ [])
        ≡ freeze_is false ∷ freeze_is true ∷ nothing ∷ nothing ∷ [] }
    ensures wide_inputs { read_parameter (Query (Inst One)) (codes "31 6B")
        ≡ inputs_are (hdmi ∷ record { source = Internal; number = 11 } ∷ []) }
    ensures refusals { read_parameter (NameQuery hdmi) (codes "ERR2") ∷ read_parameter (Query Snum) (codes "ERR2")
        ∷ read_parameter (NameQuery hdmi) (codes "HDMI 1") ∷ []
        ≡ refused 2 ∷ nothing ∷ text_is (codes "HDMI 1") ∷ [] }
{}
