// The forms of lines, each taken apart once (PJLink 1.04, 2.1 and 2.2; RULES, Connection and Controller and Class 2).
ghost use Rattle.std.specs.Prelude.{◌≡◌, IfSome, IfNone, true, false};
ghost use Rattle.words.specs.Classes.{class_as_number, class_code};
ghost use Rattle.pjlink.specs.Forms.{takes_class, is_command_form, is_reply_form};
ghost use Rattle.pjlink.specs.Forms.{is_headed_by, IsCommandOf, IsReplyOf};

use words::byte;
use words::class::ClassNumber;
use words::codec::LINE_MOST;

/// The parts of a command or a reply, without what separates them.
#[derive(Clone, Copy)]
pub struct Parts<'a> {
    /// Its class.
    pub class: ClassNumber,
    /// The four letters or digits of its body, in the case in which they were received.
    pub letters: [u8; 4],
    /// What follows the separator, up to the line's end.
    pub parameter: &'a [u8],
}

// Returns the class that the class byte `h` names, if a set-up of Class k takes lines of it.
fn class_for(k: ClassNumber, h: u8) -> Option<ClassNumber>
    ensures taken { IfSome result (λ class. takes_class (class_as_number k) h ≡ true × h ≡ class_code class) }
    ensures other { IfNone result (takes_class (class_as_number k) h ≡ false) }
{
    match (k, h) {
        (_, b'1') => Some(ClassNumber::One),
        (ClassNumber::Two, b'2') => Some(ClassNumber::Two),
        _ => None,
    }
}

/// Returns the parts of a line as received, without its CR, if a set-up of class `expected` takes it: `%`, the class,
/// four letters or digits, a space, 0 to 128 bytes. `None` for any other line.
#[tactic(auto, unfolding(crate::specs::Forms::is_command_form))]
pub fn command(expected: ClassNumber, line: &[u8]) -> Option<Parts<'_>>
    ensures taken { IfSome result
        (λ x. IsCommandOf (class_as_number expected) line.now (class_as_number x.class) x.letters x.parameter.now) }
    ensures other { IfNone result (is_command_form (class_as_number expected) line.now ≡ false) }
{
    let [first, class, a, b, c, d, mark, parameter @ ..] = line else {
        return None;
    };
    let letters = [*a, *b, *c, *d];
    if line.len() > LINE_MOST - 1 || !is_headed(*first, letters, *mark, b' ') {
        return None;
    }
    let class = class_for(expected, *class)?;
    Some(Parts {
        class,
        letters,
        parameter,
    })
}

// Returns whether a line begins with `%`, and four letters or digits are followed by the separator.
fn is_headed(first: u8, letters: [u8; 4], last: u8, mark: u8) -> bool
    ensures { result ≡ is_headed_by mark first letters last }
{
    let [a, b, c, d] = letters;
    first == b'%'
        && byte::is_alnum(a)
        && byte::is_alnum(b)
        && byte::is_alnum(c)
        && byte::is_alnum(d)
        && last == mark
}

/// Returns the parts of a reply of class `expected`, with its CR: `%`, the class, four letters or digits, `=`, 0 to 128
/// bytes with no CR, CR. `None` for any other line.
#[tactic(auto, unfolding(crate::specs::Forms::is_reply_form))]
pub fn reply(expected: ClassNumber, line: &[u8]) -> Option<Parts<'_>>
    ensures taken { IfSome result (λ x. IsReplyOf (class_as_number expected) line.now x.letters x.parameter.now) }
    ensures other { IfNone result (is_reply_form (class_as_number expected) line.now ≡ false) }
{
    let [first, class, a, b, c, d, mark, parameter @ .., last] = line else {
        return None;
    };
    let letters = [*a, *b, *c, *d];
    if line.len() > LINE_MOST
        || !is_headed(*first, letters, *mark, b'=')
        || *class != expected.code()
        || *last != b'\r'
        || !byte::is_cr_free(parameter)
    {
        return None;
    }
    Some(Parts {
        class: expected,
        letters,
        parameter,
    })
}
