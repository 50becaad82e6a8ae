//! What is proved beside the contracts of the functions. The functions here do nothing: their contracts are the
//! theorems.
ghost use Rattle.std.specs.Prelude.{◌≡◌, Bool, true, false, Result, Ok};
ghost use Rattle.text.specs.Flags.{is_raised};
ghost use Rattle.words.specs.Inputs.{is_input};
ghost use Rattle.words.specs.Powers.{power_code};
ghost use Rattle.words.specs.declared.class.ClassNumber.{ClassNumber};
ghost use Rattle.words.specs.declared.input.Input.{Input};
ghost use Rattle.words.specs.declared.error_reply.ErrorReply.{ErrorReply};
ghost use Rattle.pjlink.specs.declared.answer.Answer.{Answer};
ghost use Rattle.pjlink.specs.declared.body.Body.TheVariants.{Inpt};
ghost use Rattle.pjlink.specs.declared.command.Half.TheVariants.{VideoHalf, AudioHalf};
ghost use Rattle.pjlink.specs.declared.command.Command.TheVariants.{PowerSet, InputSet, MuteSet, Query};
ghost use Rattle.pjlink.specs.Requests.{Request};
ghost use Rattle.pjlink.specs.Said.{okay, refused, chosen_is};
ghost use Rattle.pjlink.specs.Carried.{said_by};
ghost use Rattle.record.specs.Limits.{is_between};
ghost use Rattle.record.specs.Legal.{is_settings};
ghost use Rattle.record.specs.Facts.{IsOwn};
ghost use Rattle.record.specs.Views.{power_seen};
ghost use Rattle.record.specs.declared.types.Settings.{Settings};
ghost use Rattle.record.specs.declared.types.Own.{Own};
ghost use Rattle.meaning.specs.SetUpInputs.{is_listed};
ghost use Rattle.meaning.specs.Rules.{is_undefined, is_out_of_parameter, is_failure, is_unavailable};
ghost use Rattle.meaning.specs.Meaning.{power_said, power_digit, request_answer, carried_out, answer_for};
ghost use Rattle.meaning.specs.Meaning.{after_request};

/// Any two results that meet the contract of a call say the same, and leave the same.
pub fn one_result()
    ensures { (s : Settings) (o : Own) (r : Request) (m n : Result Answer ErrorReply) (k l : Own)
        → (said_by m ≡ answer_for s o r) × (k ≡ after_request s o r)
        → (said_by n ≡ answer_for s o r) × (l ≡ after_request s o r)
        → (said_by m ≡ said_by n) × (k ≡ l) }
{}

/// The first of the four rules that applies refuses the request, with its own error reply (RULES, Commands).
#[tactic(auto, using(crate::proofs::Cases::first_rule))]
pub fn the_first_rule_decides()
    ensures undefined { (s : Settings) (o : Own) (r : Request) → is_undefined s r ≡ true
        → answer_for s o r ≡ refused 1 }
    ensures out_of_parameter { (s : Settings) (o : Own) (r : Request) → is_undefined s r ≡ false
        → is_out_of_parameter s r ≡ true → answer_for s o r ≡ refused 2 }
    ensures failure { (s : Settings) (o : Own) (r : Request) → is_undefined s r ≡ false
        → is_out_of_parameter s r ≡ false → is_failure o r ≡ true → answer_for s o r ≡ refused 4 }
    ensures unavailable { (s : Settings) (o : Own) (r : Request) → is_undefined s r ≡ false
        → is_out_of_parameter s r ≡ false → is_failure o r ≡ false → is_unavailable o r ≡ true
        → answer_for s o r ≡ refused 3 }
    ensures passed { (s : Settings) (o : Own) (r : Request) → is_undefined s r ≡ false
        → is_out_of_parameter s r ≡ false → is_failure o r ≡ false → is_unavailable o r ≡ false
        → (answer_for s o r ≡ request_answer s o r) × (after_request s o r ≡ carried_out s o r) }
{}

/// A request that is not answered OK changes nothing. Of AVMT's two halves "the unnamed half stays", whatever the
/// answer to the set (RULES, Commands).
pub fn what_a_request_leaves()
    ensures unless_okay { (s : Settings) (o : Own) (r : Request) → (answer_for s o r ≡ okay → ⊥)
        → after_request s o r ≡ o }
    ensures audio { (s : Settings) (o : Own) (wanted : Bool)
        → (after_request s o (Ok (MuteSet VideoHalf wanted))).audio_muted ≡ o.audio_muted }
    ensures video { (s : Settings) (o : Own) (wanted : Bool)
        → (after_request s o (Ok (MuteSet AudioHalf wanted))).video_muted ≡ o.video_muted }
{}

/// The input that was set is the one that is then answered, under either class. Only an input that a line can name is
/// listed.
#[tactic(auto, using(crate::proofs::InputSets::set_then_asked, crate::proofs::InputSets::listed_is_input))]
pub fn an_input_set_is_answered()
    ensures answered { (s : Settings) (o : Own) (i : Input) (j k : ClassNumber) → is_settings s ≡ true
        → answer_for s o (Ok (InputSet j i)) ≡ okay
        → answer_for s (after_request s o (Ok (InputSet j i))) (Ok (Query (Inpt k))) ≡ chosen_is i }
    ensures carried { (s : Settings) (i : Input) → is_settings s ≡ true → is_listed s i ≡ true → is_input i ≡ true }
{}

/// POWR answers the number that a legal record has for the power.
#[tactic(auto, using(crate::proofs::PowerSaid::power_code_said))]
pub fn the_power_is_answered_by_its_number()
    ensures { (s : Settings) (o : Own) → IsOwn s o → power_code (power_said (power_seen o)) ≡ power_digit o.power }
{}

/// The answer to a power set is OK exactly if the fault flag is clear and the power is off or on.
#[tactic(auto, using(crate::proofs::PowerSets::power_set_only, crate::proofs::PowerSets::power_set_passes))]
pub fn when_a_power_set_passes()
    ensures passes { (s : Settings) (o : Own) (wanted : Bool) → is_raised o.fault ≡ false → is_between o.power ≡ false
        → answer_for s o (Ok (PowerSet wanted)) ≡ okay }
    ensures only { (s : Settings) (o : Own) (wanted : Bool) → answer_for s o (Ok (PowerSet wanted)) ≡ okay
        → (is_raised o.fault ≡ false) × (is_between o.power ≡ false) }
{}
