// Memory that is filled from its start.
ghost use Rattle.std.specs.Prelude.{◌≡◌, ◌++◌, ◌+◌, ◌-◌, ◌≤◌, min, length, take};

// Puts as many of the bytes as there is room for at the index `at`. Returns the index after them.
pub(crate) fn append(memory: &mut [u8], at: usize, bytes: &[u8]) -> usize
    requires { at ≤ length memory.old }
    ensures place { result ≡ at + min (length bytes.now) (length memory.old - at) }
    ensures appended { take result memory.new ≡ take at memory.old ++ take (result - at) bytes.now }
{
    let count = bytes.len().min(memory.len() - at);
    memory[at..at + count].copy_from_slice(&bytes[..count]);
    at + count
}
