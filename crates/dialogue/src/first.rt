// README's first lines in Rattle, as they stand there; `.ci/host` compares them.
ghost use Rattle.std.specs.Prelude.{IfSome, length, ◌≤◌};

use device::calls;
use record::legality::Legal;
use setup::wanted::{Class, Wanted};

/// Sets up a projector, connects a controller and sends a line. Returns the length of the reply, which fills the start
/// of `memory`; `None` if a call is refused.
#[rattlefmt::skip]
fn answer(line: &[u8], memory: &mut [u8]) -> Option<usize>
    ensures fits { IfSome result (λ n. n ≤ length memory.new) }
{
    let table = Wanted {
        name: b"Table 3", maker: b"maker", model: b"model", other: b"", password: b"",
        inputs: b"1132", lamps: &[7200], warm: 20, cool: 60, class: Class::One,
    };
    let mut device = setup::set_up(&table).ok()?;
    let legal = &mut Legal::of(&mut device).ok()?;
    let opened = calls::open(legal, 0, memory).ok()?;
    let received = calls::receive(legal, opened.place, line, memory).ok()?;
    Some(received.length)
}

#[test]
fn the_first_lines(rt: HostRuntime) {
    let mut memory = [0u8; 136];
    let told = answer(b"%1LAMP ?\r", &mut memory);
    assert_eq!(rt; told, Some(11));
    assert!(rt; &memory[0..11] == b"%1LAMP=2 0\r".as_slice());
}
