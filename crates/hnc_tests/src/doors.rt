// Links that are served through the bound, over the doors in memory and on a loopback address.
ghost use Rattle.std.specs.Prelude.{◌≡◌, ◌<◌, true, false, OnErr, Ok};
ghost use Rattle.hx_ports.specs.Calls.{next_number};

use hx_door::{Door, DoorFault, Link, MemDoor, MemLine, TcpDoor, TcpFault};
use hx_object::NoMemory;
use hx_ports::{MemSink, MemSource, Sink, Source};
use std::alloc::Global;
use std::io;
use std::io::{Read, Write};
use std::net::{Shutdown, TcpStream};
use std::test::Fail;

/// Reads once from the next link and sends back what was read. Says whether there was one.
fn echo_next<D: Door>(door: &mut D) -> Result<bool, DoorFault>
    ensures served { result ≡ Ok true → (D.shown door.new).handed ≡ next_number (D.shown door.old).handed }
    ensures closed { result ≡ Ok false → (D.shown door.new).closed ≡ true }
    ensures failed { OnErr result ((D.shown door.new).handed ≡ (D.shown door.old).handed) }
{
    let Some(
        Link {
            mut source,
            mut sink,
        },
    ) = door.accept()?
    else {
        return Ok(false);
    };
    let mut piece = [0; 8];
    if let Ok(count) = source.read(&mut piece) {
        let _ = sink.write(&piece[..count]);
    }
    drop(source);
    door.take_back(sink);
    Ok(true)
}

/// A link whose client sends these bytes, which come in pieces.
fn line(alloc: Global, bytes: &[u8], piece: usize) -> Result<MemLine, NoMemory>
    requires { 0 < piece }
{
    let source = MemSource::new(bytes.to_vec(alloc)?, piece, Vec::new(alloc));
    let sink = MemSink::new(Vec::with_capacity(alloc, 8)?, 8, Vec::new(alloc));
    Ok(MemLine::new(source, sink))
}

/// A door with two links, whose third call fails.
fn two_links(alloc: Global) -> Result<MemDoor, NoMemory> {
    let mut lines = Vec::new(alloc);
    lines.push(line(alloc, b"first", 1)?)?;
    lines.push(line(alloc, b"second", 7)?)?;
    MemDoor::new(lines, vec![in alloc; 3; 1]?)
}

/// How many links were served in so many calls, and how many calls failed.
fn serve(door: &mut MemDoor, calls: u8) -> (u64, u64) {
    let mut served = 0u64;
    let mut failed = 0u64;
    for _ in 0..calls {
        match echo_next(door) {
            Ok(true) => served = served.saturating_add(1),
            Ok(false) => {}
            Err(DoorFault) => failed = failed.saturating_add(1),
        }
    }
    (served, failed)
}

fn has_text(door: &MemDoor, index: usize, text: &[u8]) -> bool {
    match door.sinks().get(index) {
        Some(sink) => sink.bytes() == text,
        None => false,
    }
}

#[test]
fn a_door_in_memory_keeps_what_was_written(rt: HostRuntime) -> Result<(), Fail> {
    let mut door = two_links(rt.alloc())?;
    assert!(rt; door.listen("").is_ok());
    assert_eq!(rt; serve(&mut door, 5), (2, 1));
    assert!(rt; has_text(&door, 0, b"f"));
    assert!(rt; has_text(&door, 1, b"second"));
    assert!(rt; !has_text(&door, 2, b""));
    Ok(())
}

/// What a client is sent that sends a text.
fn reply(rt: &HostRuntime, text: &[u8]) -> io::Result<Vec<u8>> {
    let mut door = TcpDoor::new(rt);
    let _ = door.listen("127.0.0.1:0");
    let Some(address) = door.local_addr() else {
        return Err(io::Error::from(io::ErrorKind::AddrNotAvailable));
    };
    let mut client = TcpStream::connect(rt, address)?;
    client.write_all(text)?;
    client.shutdown(Shutdown::Write)?;
    let _ = echo_next(&mut door);
    let mut reply = Vec::new(rt.alloc());
    client.read_to_end(&mut reply)?;
    Ok(reply)
}

#[test]
fn a_client_on_the_machine_is_answered(rt: HostRuntime) -> Result<(), Fail> {
    let reply = reply(&rt, b"hello")?;
    assert_eq!(rt; reply.as_slice(), b"hello".as_slice());
    Ok(())
}

#[test]
fn other_addresses_are_refused(rt: HostRuntime) {
    let mut door = TcpDoor::new(&rt);
    assert!(rt; door.accept().is_err());
    assert!(rt; door.listen("0.0.0.0:0").is_err());
    assert!(rt; matches!(door.last_fault(), Some(TcpFault::NotLoopback)));
    assert!(rt; door.listen("localhost:0").is_err());
    assert!(rt; matches!(door.last_fault(), Some(TcpFault::NotAnAddress)));
    assert_eq!(rt; door.faults(), 3);
}
