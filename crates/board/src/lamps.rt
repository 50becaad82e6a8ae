// Service's comparison of two tables of lamp seconds.
ghost use Rattle.std.specs.Prelude.{◌≡◌};
ghost use Rattle.board.specs.Lamps.{ComparesInto, report_of, not_compared};

use crate::lists;
use service::{CompareError, TABLE_MOST};

/// The result of a comparison: the number of the call, whether a lamp went backwards, and the first place of such a
/// lamp, 0 if there is none.
#[repr(C)]
#[derive(Clone, Copy)]
pub struct Comparison {
    /// 0; 3 if the tables cannot be compared (RULES, Service).
    pub number: u32,
    /// Whether some lamp has fewer seconds than before.
    pub backwards: bool,
    /// The place of the first such lamp, from 0; 0 if there is none.
    pub place: usize,
}

impl Comparison {
    // Of tables that are not compared.
    fn not_compared() -> Comparison
        ensures { result ≡ not_compared }
    {
        Comparison {
            number: 3,
            backwards: false,
            place: 0,
        }
    }
}

/// The answer in numbers; the differences are in the call's result list.
impl From<Result<Option<usize>, CompareError>> for Comparison {
    ghost from_gives = { λ answer report. report ≡ report_of answer };

    fn from(answer: Result<Option<usize>, CompareError>) -> Comparison {
        match answer {
            Ok(None) => Comparison {
                number: 0,
                backwards: false,
                place: 0,
            },
            Ok(Some(place)) => Comparison {
                number: 0,
                backwards: true,
                place,
            },
            Err(_) => Comparison::not_compared(),
        }
    }
}

/// Compares two tables of lamp seconds, and writes the later minus the earlier of each place to the start of `out`
/// (RULES, Service). Error: 3.
#[unsafe(no_mangle)]
pub extern "C" fn pj_compare_lamps(earlier: &[u32], later: &[u32], out: &mut [i64]) -> Comparison
    ensures { ComparesInto earlier.now later.now out.old result out.new }
{
    if later.len() != earlier.len() {
        return Comparison::not_compared();
    }
    // no room below for so many
    if TABLE_MOST < earlier.len() {
        return Comparison::from(Err(CompareError::TooMany));
    }
    let mut readings = [lists::NO_LAMP_SECONDS; TABLE_MOST];
    lists::put_readings(earlier, later, &mut readings);
    Comparison::from(service::compare(&readings[..earlier.len()], out))
}
