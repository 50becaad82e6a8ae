// The digits of a number, two at once by tables.
ghost use Rattle.std.specs.Prelude.{◌≡◌, ◌/◌, ◌∷◌, []};
ghost use Rattle.numbers.specs.Decimal.{last_digit};
ghost use Rattle.history.specs.Figures.{lowest, tens_of, ones_of};

static TENS: [u8; 100] =
    *b"0000000000111111111122222222223333333333444444444455555555556666666666777777777788888888889999999999";

static ONES: [u8; 100] =
    *b"0123456789012345678901234567890123456789012345678901234567890123456789012345678901234567890123456789";

fn tens() -> &'static [u8; 100]
    ensures { result.now ≡ tens_of 0 100 }
{
    &TENS
}

fn ones() -> &'static [u8; 100]
    ensures { result.now ≡ ones_of 0 100 }
{
    &ONES
}

// The last two digits of n, which is `hundreds` hundreds and some.
#[tactic(auto, using(crate::proofs::ByTwos::tens_there, crate::proofs::ByTwos::ones_there))]
fn two(n: u32, hundreds: u32) -> [u8; 2]
    requires { hundreds ≡ n / 100 }
    ensures { result ≡ last_digit (n / 10) ∷ last_digit n ∷ [] }
{
    let i = (n - 100 * hundreds) as usize;
    [tens()[i], ones()[i]]
}

/// Returns the ten lowest digits of `number`, the highest first.
pub fn ten(number: u32) -> [u8; 10]
    ensures { result ≡ lowest 10 number }
{
    let q = number / 100;
    let r = q / 100;
    let s = r / 100;
    let t = s / 100;
    let ([a, b], [c, d], [e, f]) = (two(t, 0), two(s, t), two(r, s));
    let ([g, h], [i, j]) = (two(q, r), two(number, q));
    [a, b, c, d, e, f, g, h, i, j]
}
