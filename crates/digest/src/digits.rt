// Numbers and bytes as lowercase hexadecimal digits, and numbers read from them.
ghost use Rattle.std.specs.Prelude.{◌≡◌, ◌/◌, ◌%◌, ◌<◌, ◌≤◌, length};
ghost use Rattle.digest.specs.Hex.{hex_digit, hex_of, hex_digits, hex_worth, hex_value};
ghost use Rattle.digest.specs.BothDigits.{highs_of, lows_of};

// The digit of x at a place p, a power of 16.
#[tactic(auto, unfolding(crate::specs::Hex::hex_digit))]
fn digit(x: u32, p: u32) -> u8
    requires { 0 < p }
    ensures { result ≡ hex_digit (x / p % 16) }
{
    let digits = b"0123456789abcdef";
    digits[(x / p % 16) as usize]
}

// Of each byte its higher digit, and its lower.
static HIGHS: [u8; 256] = *b"\
    0000000000000000111111111111111122222222222222223333333333333333\
    4444444444444444555555555555555566666666666666667777777777777777\
    88888888888888889999999999999999aaaaaaaaaaaaaaaabbbbbbbbbbbbbbbb\
    ccccccccccccccccddddddddddddddddeeeeeeeeeeeeeeeeffffffffffffffff";

static LOWS: [u8; 256] = *b"\
    0123456789abcdef0123456789abcdef0123456789abcdef0123456789abcdef\
    0123456789abcdef0123456789abcdef0123456789abcdef0123456789abcdef\
    0123456789abcdef0123456789abcdef0123456789abcdef0123456789abcdef\
    0123456789abcdef0123456789abcdef0123456789abcdef0123456789abcdef";

fn highs() -> &'static [u8; 256]
    ensures { result.now ≡ highs_of 0 256 }
{
    &HIGHS
}

fn lows() -> &'static [u8; 256]
    ensures { result.now ≡ lows_of 0 256 }
{
    &LOWS
}

/// The two digits of a byte, the higher first.
#[tactic(auto, using(crate::proofs::BothDigits::high_there, crate::proofs::BothDigits::low_there))]
pub fn two(x: u8) -> [u8; 2]
    ensures { result ≡ hex_digits 2 x }
{
    let i = x as usize;
    [highs()[i], lows()[i]]
}

/// Returns the eight digits of a number, the highest first.
pub fn eight(x: u32) -> [u8; 8]
    ensures { result ≡ hex_digits 8 x }
{
    [
        digit(x, 0x10000000),
        digit(x, 0x1000000),
        digit(x, 0x100000),
        digit(x, 0x10000),
        digit(x, 0x1000),
        digit(x, 0x100),
        digit(x, 0x10),
        digit(x, 1),
    ]
}

/// Returns the digits of 16 bytes.
pub fn all(b: &[u8; 16]) -> [u8; 32]
    ensures { result ≡ hex_of b.now }
{
    let mut out = [0u8; 32];
    for (i, x) in b.iter().enumerate() {
        text::put(&mut out, 2 * i, &two(*x));
    }
    out
}

#[tactic(auto, unfolding(crate::specs::Hex::hex_worth))]
fn worth(b: u8) -> u32
    ensures { result ≡ hex_worth b }
{
    if b'0' <= b && b <= b'9' {
        return (b - b'0') as u32;
    }
    if b'a' <= b && b <= b'f' {
        return (b - b'a') as u32 + 10;
    }
    0
}

/// Returns the number with the digits `s`; a byte that is no digit counts as 0.
pub fn value(s: &[u8]) -> u32
    requires { length s.now ≤ 8 }
    ensures { result ≡ hex_value s.now }
{
    let mut v: u32 = 0;
    for b in s {
        v = v * 16 + worth(*b);
    }
    v
}
