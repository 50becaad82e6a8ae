// `ours`'s digest: its sixteen bytes.
ghost use Rattle.std.specs.Prelude.{◌≡◌};
ghost use Rattle.ours.specs.Board.{ours};

use digest::Digest;

/// `digest::md5` gives the bytes that `ours.md5` says.
pub fn md5(bytes: &[u8]) -> Digest
    ensures { result.bytes ≡ ours.md5 bytes.now }
{
    digest::md5(bytes)
}
