// What is proved beside the contracts of the functions. These functions do only what those do, and their contracts are
// the theorems.
ghost use Rattle.std.specs.Prelude.{◌≡◌, ◌↔◌, List, ℕ, ℤ, Result, Option, length, pos, ◌+ℤ◌, ◌<ℤ◌};
ghost use Rattle.service.specs.ComparedHolds.{ComparedHolds, ComparedAs};
ghost use Rattle.service.specs.Differences.{difference_of, IsBackwards};
ghost use Rattle.service.specs.declared.LampSeconds.{LampSeconds};
ghost use Rattle.service.specs.declared.CompareError.{CompareError};

use crate::{CompareError, LampSeconds, TABLE_MOST, compare};

/// The answer is true of the readings, and an answer that is true is the one returned: the index is the lowest one at
/// which the lamp went backwards, and there is none exactly if no lamp went backwards.
#[tactic(auto, using(crate::proofs::OneAnswer::one_answer))]
pub fn the_answer_told_holds(
    readings: &[LampSeconds],
    out: &mut [i64],
) -> Result<Option<usize>, CompareError>
    ensures told_holds { ComparedHolds readings.now (length out.old) result }
    ensures holds_told { (c : Result (Option ℕ) CompareError)
        → ComparedHolds readings.now (length out.old) c → result ≡ c }
{
    compare(readings, out)
}

/// Any two results that meet the contract of a call are equal, the list of differences included.
#[tactic(auto, using(crate::proofs::OneAnswer::one_comparison))]
pub fn one_result()
    ensures { (rs : List LampSeconds) (out : List ℤ) (b c : Result (Option ℕ) CompareError) (m n : List ℤ)
        → ComparedAs rs out b m → ComparedAs rs out c n → (b ≡ c) × (m ≡ n) }
{}

/// A difference is exact: added to the earlier seconds it gives the later, and it is negative exactly if the lamp went
/// backwards.
#[tactic(auto, using(crate::proofs::Exact::earlier_and_difference, crate::proofs::Exact::negative_is_backwards))]
pub fn a_difference_is_exact()
    ensures sum { (r : LampSeconds) → pos r.earlier +ℤ difference_of r ≡ pos r.later }
    ensures sign { (r : LampSeconds) → (difference_of r <ℤ pos 0) ↔ IsBackwards r }
{}

/// The limit of a table in numbers (RULES, Service).
pub fn a_table_has_this_limit()
    ensures { TABLE_MOST ≡ 64 }
{}
