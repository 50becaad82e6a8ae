// The lines that settle it: each line as a controller sends it, and the reply of a projector that is set up with
// W = 20, C = 60, one lamp at 0 s, input 11, texts empty and no password.
#![tactic(auto)]

#[cfg(test)]
mod first;

use clock::pass;
use device::calls;
use record::legality::Legal;
use record::refusal::Refusal;
use record::types::{Device, PLACES};
use setup::wanted::{Class, Wanted};
use std::io;
use std::io::{Stdout, Write};

// Writes the bytes that show the direction, then a line or a reply without its CR, and LF.
fn write_line(out: &mut Stdout, mark: &[u8], line: &[u8]) -> io::Result<()> {
    out.write_all(mark)?;
    if 1 <= line.len() {
        let end = line.len() - 1;
        out.write_all(&line[0..end])?;
    }
    out.write_all(b"\n")
}

// A projector, and the place at which its controller is connected.
#[derive(Drop)]
struct Connected {
    device: Device,
    place: usize,
}

// The projector as it is set up, its controller connected. Nothing here is refused, and a refusal would leave the place
// that no call takes.
fn fresh() -> Connected {
    let lamps = [0u32; 1];
    let class = Class::One;
    let wanted = Wanted {
        name: b"",
        maker: b"",
        model: b"",
        other: b"",
        password: b"",
        inputs: b"11",
        lamps: &lamps,
        warm: 20,
        cool: 60,
        class,
    };
    let mut device = setup::set_up(&wanted).unwrap_or(Device::BLANK);
    let place = open(&mut device).unwrap_or(PLACES);
    Connected { device, place }
}

fn open(device: &mut Device) -> Result<usize, Refusal> {
    let mut memory = [0u8; 136];
    let opened = calls::open(&mut Legal::of(device)?, 0, &mut memory)?;
    Ok(opened.place)
}

// The length of the reply.
fn receive(c: &mut Connected, line: &[u8], memory: &mut [u8]) -> Result<usize, Refusal> {
    let received = calls::receive(&mut Legal::of(&mut c.device)?, c.place, line, memory)?;
    Ok(received.length)
}

fn send(out: &mut Stdout, c: &mut Connected, line: &[u8]) -> io::Result<()> {
    let mut memory = [0u8; 136];
    let length = receive(c, line, &mut memory).unwrap_or(0);
    write_line(out, b"> ", line)?;
    if length <= 136 {
        write_line(out, b"< ", &memory[0..length])?;
    }
    Ok(())
}

fn wait(c: &mut Connected, seconds: u32) {
    if let Ok(mut legal) = Legal::of(&mut c.device) {
        pass::pass(&mut legal, seconds);
    }
}

// One line to a projector that was never on.
fn ask_off(out: &mut Stdout, line: &[u8]) -> io::Result<()> {
    send(out, &mut fresh(), line)
}

// One line after power-on and so many seconds.
fn ask_after(out: &mut Stdout, seconds: u32, title: &[u8], line: &[u8]) -> io::Result<()> {
    out.write_all(title)?;
    let mut c = fresh();
    send(out, &mut c, b"%1POWR 1\r")?;
    wait(&mut c, seconds);
    send(out, &mut c, line)
}

// Power-on, 2,400 s, power-off, 60 s.
fn one_round(out: &mut Stdout, c: &mut Connected) -> io::Result<()> {
    send(out, c, b"%1POWR 1\r")?;
    wait(c, 2400);
    send(out, c, b"%1POWR 0\r")?;
    wait(c, 60);
    Ok(())
}

fn nine_rounds(out: &mut Stdout) -> io::Result<Connected> {
    let mut c = fresh();
    for _ in 0..9 {
        one_round(out, &mut c)?;
    }
    Ok(c)
}

fn main(rt: HostRuntime) -> io::Result<()> {
    let mut out = rt.stdout();
    ask_off(&mut out, b"%1powr 1\r")?;
    ask_off(&mut out, b"%1POWR 2\r")?;
    ask_off(&mut out, b"%1ABCD x\r")?;
    ask_off(&mut out, b"%1NAME x\r")?;
    ask_off(&mut out, b"%1CLSS ?\r")?;
    ask_off(&mut out, b"%1INPT ?\r")?;
    ask_off(&mut out, b"%1INPT 12\r")?;
    ask_after(&mut out, 19, b"-- 19 s after power-on\n", b"%1POWR ?\r")?;
    ask_after(&mut out, 20, b"-- 20 s after power-on\n", b"%1POWR ?\r")?;
    ask_after(&mut out, 3599, b"-- 3599 s after power-on\n", b"%1LAMP ?\r")?;
    ask_after(&mut out, 3600, b"-- 3600 s after power-on\n", b"%1LAMP ?\r")?;
    out.write_all(b"-- nine rounds of power-on, 2400 s, power-off, 60 s\n")?;
    let mut rounds = nine_rounds(&mut out)?;
    send(&mut out, &mut rounds, b"%1LAMP ?\r")
}
