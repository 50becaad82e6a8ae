// What is proved beside the contracts of the functions. Nothing is done here: that these functions have their contracts
// is that the theorems stand.
ghost use Rattle.std.specs.Prelude.{◌≡◌, Bool, true, false, ℕ, List, [], Result, length, codes};
ghost use Rattle.pjlink.specs.declared.body.Body.TheVariants.{Powr, Name};
ghost use Rattle.pjlink.specs.declared.command.Command.{Command};
ghost use Rattle.pjlink.specs.declared.command.Command.TheVariants.{PowerSet, Query};
ghost use Rattle.pjlink.specs.Said.{okay, power_is};
ghost use Rattle.words.specs.declared.power.PowerStatus.TheVariants.{WarmUp};
ghost use Rattle.controller.specs.Writing.{written_command};
ghost use Rattle.controller.specs.declared.writing.Unwritten.{Unwritten};
ghost use Rattle.controller.specs.declared.writing.Unwritten.TheVariants.{NoRoom};
ghost use Rattle.text.specs.Words.{over};
ghost use Rattle.text.specs.Outcomes.{served_as, refused_as, with_length};
ghost use Rattle.controller.specs.declared.reading.Reading.{Reading};
ghost use Rattle.controller.specs.declared.reading.Misread.{Misread};
ghost use Rattle.controller.specs.Reading.{read_as, read_reply, meaning, outcome_alone};
ghost use Rattle.controller.specs.Reading.{not_a_line, other_command, disallowed};

/// Two results that meet the promise of a call are equal, written bytes included; two replies that are read say the
/// same.
#[tactic(auto, using(text::proofs::OneResult::one_result))]
pub fn one_result()
    ensures command_written { (c : Command) (secured : Bool) (random : ℕ) (password out : List ℕ)
        (r s : Result ℕ Unwritten) (m n : List ℕ)
        → let w = written_command c secured random password (length out) in
        (r ≡ with_length w) × (m ≡ over w.bytes out)
        → (s ≡ with_length w) × (n ≡ over w.bytes out) → (r ≡ s) × (m ≡ n) }
    ensures reply_read { (c : Command) (l : List ℕ) (r s : Result Reading Misread)
        → read_as r ≡ read_reply c l → read_as s ≡ read_reply c l → read_as r ≡ read_as s }
{}

/// Power-on as it is written into 168 bytes, and the result for 167 bytes: 2, and nothing written (RULES, Controller).
#[tactic(auto, using(crate::proofs::Examples::worked_commands))]
pub fn commands_are_worked_out()
    ensures power_on { written_command (PowerSet true) false 0 [] 168
        ≡ served_as tt (codes "%1POWR 1\r") tt }
    ensures memory_167 { written_command (PowerSet true) false 0 [] 167 ≡ refused_as tt NoRoom }
{}

/// Replies as they are read (RULES, Controller): a body in any case; a warm-up; ERR2, which is no text; a reply to
/// another body; and a line without its CR.
#[tactic(auto, using(crate::proofs::Examples::worked_replies))]
pub fn replies_are_worked_out()
    ensures in_any_case { read_reply (PowerSet true) (codes "%1powr=OK\r") ≡ meaning okay }
    ensures warm_up { read_reply (Query Powr) (codes "%1POWR=3\r") ≡ meaning (power_is WarmUp) }
    ensures err2_is_no_text { read_reply (Query Name) (codes "%1NAME=ERR2\r") ≡ outcome_alone disallowed }
    ensures another_body { read_reply (Query Powr) (codes "%1INPT=11\r") ≡ outcome_alone other_command }
    ensures without_cr { read_reply (Query Powr) (codes "%1POWR=3") ≡ outcome_alone not_a_line }
{}
