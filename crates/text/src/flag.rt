// A flag of a record that a host keeps: a byte, so that any byte there is a value, and legality tests it (RULES, The
// legal record).
ghost use Rattle.std.specs.Prelude.{◌≡◌, map};
ghost use Rattle.std.specs.List.{list_all};
ghost use Rattle.text.specs.Flags.{is_flag, is_raised, flag_of};

/// Whether the byte is a flag of a legal record: 0 or 1.
pub fn is_flag(flag: u8) -> bool
    ensures { result ≡ is_flag flag }
{
    flag <= 1
}

/// Whether each of these bytes is 0 or 1. The loop does not leave early, so that the compiler takes sixteen bytes at
/// once.
pub fn are_flags(flags: &[u8]) -> bool
    ensures { result ≡ list_all is_flag flags.now }
{
    let mut ok = true;
    for &flag in flags {
        ok = ok & is_flag(flag);
    }
    ok
}

/// Whether the flag is raised: any byte but 0, as C reads a number.
pub fn is_raised(flag: u8) -> bool
    ensures { result ≡ is_raised flag }
{
    flag != 0
}

/// Returns the flag: 1 raised, 0 lowered.
pub fn of(raised: bool) -> u8
    ensures { result ≡ flag_of raised }
{
    if raised { 1 } else { 0 }
}

/// Returns the flags: 1 raised, 0 lowered.
#[tactic(auto, using(crate::proofs::FlagsTold::one_mapped, crate::proofs::FlagsTold::all_mapped))]
pub fn flags<const N: usize>(raised: &[bool; N]) -> [u8; N]
    ensures { result ≡ map flag_of raised.now }
{
    let mut flags = [0; N];
    for k in 0..N {
        flags[k] = of(raised[k]);
    }
    flags
}

/// Returns whether each of these flags is raised.
#[tactic(auto, using(crate::proofs::FlagsTold::one_mapped, crate::proofs::FlagsTold::all_mapped))]
pub fn raised<const N: usize>(flags: &[u8; N]) -> [bool; N]
    ensures { result ≡ map is_raised flags.now }
{
    let mut raised = [false; N];
    for k in 0..N {
        raised[k] = is_raised(flags[k]);
    }
    raised
}
