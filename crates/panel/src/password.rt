// A password in its room: 0 to 32 ASCII letters and digits, as the controller's writer takes it (RULES, Passwords).
ghost use Rattle.std.specs.Prelude.{◌≡◌, ◌≤◌, length};
ghost use Rattle.panel.specs.Passwords.{password_room, password_of, is_password_kept};

use crate::types::{PASSWORD_ROOM, Password};
use text::rooms;
use words::texts;

impl Password {
    /// No password, which is no security.
    pub const NONE: Password = Password {
        len: 0,
        bytes: [0; PASSWORD_ROOM],
    };

    /// Returns a password in its room.
    pub fn of(word: &[u8]) -> Password
        requires { length word.now ≤ password_room }
        ensures { result ≡ password_of word.now }
    {
        Password {
            len: word.len(),
            bytes: rooms::kept(word, 0),
        }
    }

    /// Returns whether the password is legal.
    pub fn is_legal(&self) -> bool
        ensures { result ≡ is_password_kept self.now }
    {
        rooms::used(&self.bytes, self.len).is_some_and(|word| texts::is_password(word))
    }
}
