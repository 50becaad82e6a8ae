// A room: an array of a record, of which so many places are used, from its start, and the others are blank
// (RULES, The legal record, "Unused room").
ghost use Rattle.std.specs.Prelude.{◌≡◌, ◌==◌, ◌≤◌, Bool, length, option_map, take};
ghost use Rattle.std.specs.List.{list_all};
ghost use Rattle.text.specs.Rooms.{used_part, filled_room};

/// The value of an unused place: zero, for each type.
pub trait Blank {
    ghost blank: { Self → Bool };

    /// Whether this is the value of an unused place.
    fn is_blank(&self) -> bool
        ensures { result ≡ blank self.now };
}

impl Blank for u8 {
    ghost blank = { λ x. x == 0 };

    fn is_blank(&self) -> bool {
        *self == 0
    }
}

impl Blank for u32 {
    ghost blank = { λ x. x == 0 };

    fn is_blank(&self) -> bool {
        *self == 0
    }
}

/// Whether each of these places is blank. The loop does not leave early, so that the compiler takes sixteen bytes at
/// once.
pub fn are_blank<T: Blank>(places: &[T]) -> bool
    ensures { result ≡ list_all T.blank places.now }
{
    let mut blank = true;
    for place in places {
        blank = blank & place.is_blank();
    }
    blank
}

/// Returns the used part of a room, `count` items; `None` if the room is smaller, or if the rest is not blank.
#[tactic(auto, using(crate::proofs::RoomsTold::used_by_tests))]
pub fn used<T: Blank, const N: usize>(room: &[T; N], count: usize) -> Option<&[T]>
    ensures { option_map (λ s. s.now) result ≡ used_part T.blank N room.now count }
{
    if N < count {
        return None;
    }
    let places = &room[..];
    let (items, rest) = places.split_at(count);
    if !are_blank(rest) {
        return None;
    }
    Some(items)
}

/// Returns a room with these items at its start, and `blank` at each place after them.
#[tactic(auto, using(crate::proofs::RoomsTold::rest_kept))]
pub fn kept<T: Copy, const N: usize>(items: &[T], blank: T) -> [T; N]
    requires { length items.now ≤ N }
    ensures { result ≡ filled_room blank N items.now }
{
    let mut room = [blank; N];
    room[..items.len()].copy_from_slice(items);
    room
}

/// Returns the first `count` places of a room, or all.
pub fn first<T, const N: usize>(room: &[T; N], count: usize) -> &[T]
    ensures value { result.now ≡ take count room.now }
    ensures within { length result.now ≤ N }
{
    &room[..count.min(N)]
}
