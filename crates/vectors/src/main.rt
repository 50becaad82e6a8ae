// The test suite of RFC 1321, A.5, in the RFC's format; digests of messages whose length is near a block's end; and the
// example of PJLink 1.04, 5.1, with both spellings of its password. `stdout` was made by md5sum (docs/DECISIONS.md).
#![tactic(auto)]

ghost use Rattle.std.specs.Prelude.{◌≤◌};

use std::io;
use std::io::{Stdout, Write};

// RFC 1321, A.5
const SUITE: [&[u8]; 7] = [
    b"",
    b"a",
    b"abc",
    b"message digest",
    b"abcdefghijklmnopqrstuvwxyz",
    b"ABCDEFGHIJKLMNOPQRSTUVWXYZabcdefghijklmnopqrstuvwxyz0123456789",
    b"12345678901234567890123456789012345678901234567890123456789012345678901234567890",
];

// PJLink 1.04, 5.1
const RANDOM: u32 = 0x498e4a67;

fn line(out: &mut Stdout, label: &[u8], digits: [u8; 32]) -> io::Result<()> {
    out.write_all(label)?;
    out.write_all(b" = ")?;
    out.write_all(&digits)?;
    out.write_all(b"\n")
}

fn suite(out: &mut Stdout, message: &[u8]) -> io::Result<()> {
    out.write_all(b"MD5 (\"")?;
    out.write_all(message)?;
    line(out, b"\")", digest::hex(digest::md5(message)))
}

// n letters a.
fn letters(out: &mut Stdout, label: &[u8], n: usize) -> io::Result<()>
    requires { n ≤ 128 }
{
    let a = [b'a'; 128];
    line(out, label, digest::hex(digest::md5(&a[..n])))
}

// The random number and n letters a.
fn after_random(out: &mut Stdout, label: &[u8], n: usize) -> io::Result<()>
    requires { n ≤ 128 }
{
    let a = [b'a'; 128];
    line(out, label, digest::leading_digest(RANDOM, &a[..n]))
}

fn main(rt: HostRuntime) -> io::Result<()> {
    let mut out = rt.stdout();
    for message in SUITE {
        suite(&mut out, message)?;
    }
    letters(&mut out, b"55 x a", 55)?;
    letters(&mut out, b"56 x a", 56)?;
    letters(&mut out, b"63 x a", 63)?;
    letters(&mut out, b"64 x a", 64)?;
    letters(&mut out, b"65 x a", 65)?;
    letters(&mut out, b"119 x a", 119)?;
    letters(&mut out, b"120 x a", 120)?;
    letters(&mut out, b"128 x a", 128)?;
    let misprinted = digest::leading_digest(RANDOM, b"JBMIAPjectorLink");
    line(&mut out, b"498e4a67JBMIAPjectorLink", misprinted)?;
    let printed = digest::leading_digest(RANDOM, b"JBMIAProjectorLink");
    line(&mut out, b"498e4a67JBMIAProjectorLink", printed)?;
    after_random(&mut out, b"498e4a67, 55 x a", 55)?;
    after_random(&mut out, b"498e4a67, 56 x a", 56)?;
    after_random(&mut out, b"498e4a67, 120 x a", 120)
}
