// Lists: their values joined by single spaces (RULES, Commands: "joined by spaces").
ghost use Rattle.std.specs.Prelude.{◌≡◌, ◌+◌, ◌≤◌, ◌++◌, length};
ghost use Rattle.std.specs.Option.{option_map};
ghost use Rattle.arrayvec.specs.ArrayVec.{array_vec_len};
ghost use Rattle.words.specs.Joined.{list_text, list_read};

use crate::codec::{LINE_MOST, LineBytes, Wire};
use arrayvec::ArrayVec;

/// Writes the values of `items` at the end of the line, with a space between any two.
pub fn put_list<T: Wire>(items: &[T], out: &mut LineBytes)
    requires { array_vec_len out.old + length (list_text T.text items.now) ≤ LINE_MOST }
    ensures { out.new.items ≡ out.old.items ++ list_text T.text items.now }
{
    let [first, rest @ ..] = items else {
        return;
    };
    first.put(out);
    for x in rest {
        out.push(b' ');
        x.put(out);
    }
}

/// Returns the values that all of `bytes` says, one to `N` of them, or `None`.
pub fn parse_list<T: Wire + Default, const N: usize>(bytes: &[u8]) -> Option<ArrayVec<T, N>>
    ensures { option_map (λ v. v.items) result ≡ list_read T.read N bytes.now }
{
    let mut xs = ArrayVec::new();
    let mut rest = bytes;
    for _k in 0..N {
        let (x, after) = T::take(rest)?;
        xs.push(x);
        match after {
            [] => return Some(xs),
            [b' ', more @ ..] => rest = more,
            _ => return None,
        }
    }
    None
}
