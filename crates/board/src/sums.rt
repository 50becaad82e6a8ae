// The digest of any bytes.
ghost use Rattle.std.specs.Prelude.{◌≡◌};
ghost use Rattle.ours.specs.Board.{ours};

use digest::Digest;

/// Returns the MD5 digest of the bytes (RFC 1321). Refuses nothing.
#[unsafe(no_mangle)]
pub extern "C" fn pj_md5(bytes: &[u8]) -> Digest
    ensures { result.bytes ≡ ours.md5 bytes.now }
{
    digest::md5(bytes)
}
