// The greetings of a projector, and the line that refuses a digest (RULES, Connection, Controller; PJLink 1.04, 5).
ghost use Rattle.std.specs.Prelude.{◌≡◌, ◌+◌, ◌≤◌, ◌++◌};
ghost use Rattle.arrayvec.specs.ArrayVec.{array_vec_len};
ghost use Rattle.text.specs.Scans.{is_same_by, itself};
ghost use Rattle.pjlink.specs.Greetings.{greeting_line, read_greeting};

use words::codec;
use words::codec::{LINE_MOST, LineBytes};

/// The ERRA line: the reply to a first line without the matching digest.
pub const ERRA: [u8; 12] = *b"PJLINK ERRA\r";

/// A greeting of a projector, or the ERRA line.
#[derive(Clone, Copy)]
pub enum Greeting {
    /// `PJLINK 0`: commands are served at once.
    Open,
    /// `PJLINK 1` and this random number: the digest of the number and the password is awaited.
    Secured(u32),
    /// The ERRA line: the digest is refused.
    Refused,
}

impl Greeting {
    /// Appends its line to `out`, with its CR: 18 bytes at most.
    pub fn put(self, out: &mut LineBytes)
        requires { array_vec_len out.old + 18 ≤ LINE_MOST }
        ensures { out.new.items ≡ out.old.items ++ greeting_line self }
    {
        match self {
            Greeting::Open => codec::put_all(b"PJLINK 0\r", out),
            Greeting::Secured(random) => {
                codec::put_all(b"PJLINK 1 ", out);
                codec::put_all(&digest::hex8(random), out);
                out.push(b'\r');
            }
            Greeting::Refused => codec::put_all(&ERRA, out),
        }
    }

    fn is_line(self, line: &[u8]) -> bool
        ensures { result ≡ is_same_by itself line.now (greeting_line self) }
    {
        let mut own = LineBytes::new();
        self.put(&mut own);
        text::is_same(line, own.as_slice())
    }

    /// Reads a greeting or the ERRA line, up to its CR and nothing more. `None` for any other line.
    #[tactic(auto, using(crate::proofs::GreetingCases::not_18), unfolding(crate::specs::Greetings::read_greeting))]
    pub fn read(line: &[u8]) -> Option<Greeting>
        ensures { result ≡ read_greeting line.now }
    {
        if Greeting::Open.is_line(line) {
            return Some(Greeting::Open);
        }
        if Greeting::Refused.is_line(line) {
            return Some(Greeting::Refused);
        }
        if line.len() != 18 {
            return None;
        }
        let secured = Greeting::Secured(digest::hex_value(&line[9..17]));
        if secured.is_line(line) {
            return Some(secured);
        }
        None
    }
}
