// The two classes of a set-up (RULES, Class 2).
ghost use Rattle.std.specs.Prelude.{◌≡◌};
ghost use Rattle.record.specs.Limits.{is_class_number, only_in_2};

/// Whether it is the number of a class: 1 or 2.
pub fn is_class(class: u8) -> bool
    ensures { result ≡ is_class_number class }
{
    class == 1 || class == 2
}

/// What Class 2 alone has: so much of it there, none in any other class.
pub fn only_in_2(class: u8, count: usize) -> usize
    ensures { result ≡ only_in_2 class count }
{
    if class == 2 {
        return count;
    }
    0
}
