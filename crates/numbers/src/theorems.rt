// What is proved beside the contracts of the functions. Nothing is done here: that these functions have their contracts
// is that the theorems stand.
ghost use Rattle.std.specs.Prelude.{◌≡◌, ◌≢◌, ◌+◌, ◌^◌, ◌<◌, ◌≤◌, ◌++◌, List, ℕ, Option, Some, length, replicate};
ghost use Rattle.std.specs.Prelude.{None, [], ◌∷◌, map, codes, slice_index};
ghost use Rattle.numbers.specs.Decimal.{read_number, digits, most_digits, WritesNumber};

/// Two results that meet the promise of a call are equal.
pub fn one_result()
    ensures number_read { (t : List ℕ) (r s : Option ℕ) → r ≡ read_number t → s ≡ read_number t → r ≡ s }
    ensures number_written { (out l m : List ℕ) (n : ℕ) → l ≡ out ++ digits n → m ≡ out ++ digits n → l ≡ m }
{}

/// A number that is written is read, with leading zeros or without (RULES, Controller), and it is written without one:
/// 48 is the digit 0.
pub fn what_is_written_is_read()
    ensures read_back { (n : ℕ) → n < 100000 → read_number (digits n) ≡ Some n }
    ensures with_zeros { (k n : ℕ) (s : List ℕ) → WritesNumber n s → k + length s ≤ most_digits
        → WritesNumber n (replicate k 48 ++ s) }
    ensures no_leading_zero { (n : ℕ) → 1 ≤ n → n < 2 ^ 32 → slice_index (digits n) 0 ≢ 48 }
{}

/// Computed numbers (RULES, Lamps and Controller): what is written of each; what is read, with leading zeros or
/// without, to five digits in all; and what is no number: six digits, no digits, a letter.
#[tactic(auto, using(crate::proofs::Examples::worked_numbers))]
pub fn numbers_are_worked_out()
    ensures written { map digits (0 ∷ 7 ∷ 10 ∷ 99999 ∷ 4294967295 ∷ [])
        ≡ codes "0" ∷ codes "7" ∷ codes "10" ∷ codes "99999" ∷ codes "4294967295" ∷ [] }
    ensures taken { map read_number (codes "0" ∷ codes "00" ∷ codes "00000" ∷ codes "00412" ∷ codes "99999" ∷ [])
        ≡ Some 0 ∷ Some 0 ∷ Some 0 ∷ Some 412 ∷ Some 99999 ∷ [] }
    ensures not_taken { map read_number (codes "000000" ∷ codes "100000" ∷ [] ∷ codes "1a" ∷ [])
        ≡ None ∷ None ∷ None ∷ None ∷ [] }
{}
