// What is proved beside the contracts of the functions. The functions here do nothing: their contracts are the
// theorems.
ghost use Rattle.std.specs.Prelude.{[], ◌∷◌, ◌≡◌, ◌↔◌, true, ℕ, List, Some, IsTrue, IsUtf8, encode_utf8_all};
ghost use Rattle.std.specs.Prelude.{false, None, map, codes, not, All};
ghost use Rattle.std.specs.Char.{IsScalar};
ghost use Rattle.std.specs.List.{list_all};
ghost use Rattle.std.specs.Str.{is_utf8};
ghost use Rattle.words.specs.Bytes.{◌at◌};
ghost use Rattle.words.specs.Utf8.{IsOctets};
ghost use Rattle.words.specs.Utf8Worked.{rfc_points, rfc_octets, well_formed, ill_formed};
ghost use Rattle.words.specs.Sources.{input_for, number_character};
ghost use Rattle.words.specs.Inputs.{read_input, is_input, is_input_text, source_digit, input_text};
ghost use Rattle.words.specs.declared.input.Input.{Input};
ghost use Rattle.words.specs.declared.input.Source.TheVariants.{Rgb, Digital, Network, Internal};

/// Bytes are accepted as UTF-8 exactly if they are characters of the table of RFC 3629, section 4, and exactly if they
/// are the encoding by section 3 of a list of scalar values; and that list is unique.
pub fn bytes_and_numbers_agree()
    ensures by_table { (s : List ℕ) → IsTrue (is_utf8 s) ↔ IsOctets s }
    ensures by_numbers { (s : List ℕ) → IsTrue (is_utf8 s) ↔ IsUtf8 s }
    ensures encodings_unique { (ms ns : List ℕ) → encode_utf8_all ms ≡ encode_utf8_all ns → ms ≡ ns }
{}

/// The table of types is followed: the two characters of an input name it, the input that two characters name is read
/// from them, and no two other characters name an input (RULES, Inputs).
pub fn the_table_of_types_is_followed()
    ensures written { (i : Input) → is_input i ≡ true
        → input_for (source_digit i.source) (number_character i.number) ≡ Some i }
    ensures read { (a b : ℕ) → read_input a b ≡ input_for a b }
    ensures only { (a b : ℕ) (i : Input) → input_for a b ≡ Some i → input_text i ≡ a ∷ b ∷ [] }
{}

/// Worked inputs (RULES, Inputs): two characters that name an input of Class 1, or of Class 2, or none; and the type
/// and the number that two characters name.
#[tactic(auto, using(crate::proofs::Examples::worked_inputs))]
pub fn inputs_are_worked_out()
    ensures class_1 { map (λ (s : List ℕ). is_input_text 1 (s at 0) (s at 1))
        (codes "11" ∷ codes "59" ∷ codes "10" ∷ codes "20" ∷ codes "61" ∷ [])
        ≡ true ∷ true ∷ false ∷ false ∷ false ∷ [] }
    ensures class_2 { map (λ (s : List ℕ). is_input_text 2 (s at 0) (s at 1))
        (codes "11" ∷ codes "61" ∷ codes "1A" ∷ codes "6Z" ∷ codes "10" ∷ codes "1a" ∷ codes "1:" ∷ codes "71" ∷ [])
        ≡ true ∷ true ∷ true ∷ true ∷ false ∷ false ∷ false ∷ false ∷ [] }
    ensures stand_for { map (λ (s : List ℕ). input_for (s at 0) (s at 1))
        (codes "11" ∷ codes "59" ∷ codes "10" ∷ codes "20" ∷ codes "61" ∷ codes "3B" ∷ [])
        ≡ Some (record { source = Rgb; number = 1 }) ∷ Some (record { source = Network; number = 9 }) ∷ None
        ∷ None ∷ Some (record { source = Internal; number = 1 })
        ∷ Some (record { source = Digital; number = 11 }) ∷ [] }
{}

/// Worked UTF-8 (RULES, Texts): the examples of RFC 3629, section 7, bytes at the borders of its table, bytes beyond
/// them, and numbers that are no character.
#[tactic(auto, using(crate::proofs::Utf8Examples::worked_utf8))]
pub fn utf8_is_worked_out()
    ensures section_7 { map encode_utf8_all rfc_points ≡ rfc_octets }
    ensures taken { list_all is_utf8 well_formed ≡ true }
    ensures refused { list_all (λ (s : List ℕ). not (is_utf8 s)) ill_formed ≡ true }
    ensures no_scalars { All (λ (n : ℕ). ¬ IsScalar n) (0xD800 ∷ 0xDFFF ∷ 0x110000 ∷ []) }
{}
