//! What comes over a link's connections, and what is lost.

use crate::TcpLink;
use ballot::{Envelope, Message, NodeId, Slot};
use cluster::Link;
use maildrop::SharedCommand;
use peer_frames::decode;
use std::alloc::Global;
use std::io::Read;
use std::net::{Ipv4Addr, Net, SocketAddr, TcpListener, TcpStream};
use std::sync::Wait;
use std::test::Fail;
use std::thread;
use std::time::{Clock, Duration};

/// The bytes of an Ask's frame.
const ASK: usize = 16;

/// For how many seconds something is waited for.
const WAIT_SECONDS: u64 = 10;

fn check(holds: bool, fault: &'static str) -> Result<(), Fail> {
    if !holds {
        Err(fault)?;
    }
    Ok(())
}

fn node(number: u8) -> Result<NodeId, Fail> {
    Ok(NodeId::new(number).ok_or("no node")?)
}

fn ask(number: u64) -> Result<Envelope<SharedCommand>, Fail> {
    let slot = Slot::new(number).ok_or("no slot")?;
    Ok(Envelope {
        from: node(2)?,
        to: node(1)?,
        message: Message::Ask(slot),
    })
}

/// A listener at this port, or at any port for 0.
fn listen<R: Net<Listener = TcpListener, Stream = TcpStream>>(
    rt: &R,
    port: u16,
) -> Result<TcpListener, Fail> {
    Ok(rt.bind(SocketAddr::from((Ipv4Addr::LOCALHOST, port)))?)
}

/// A link whose node 1 listens at this port.
fn link_to<R: Net<Listener = TcpListener, Stream = TcpStream> + Wait + Clock + Copy>(
    rt: R,
    alloc: Global,
    port: u16,
) -> Result<TcpLink<R>, Fail> {
    let base_port = port.checked_sub(1).ok_or("no port")?;
    Ok(TcpLink::new(rt, alloc, base_port)?)
}

/// Checks that the next envelope is the Ask for this slot.
fn check_next(alloc: Global, stream: &TcpStream, number: u64) -> Result<(), Fail> {
    stream.set_read_timeout(Some(Duration::from_secs(WAIT_SECONDS)))?;
    let mut bytes = [0u8; ASK];
    let mut reader = stream;
    reader.read_exact(&mut bytes)?;
    let (envelope, _) = decode(alloc, &bytes)?.ok_or("no frame")?;
    match &envelope.message {
        Message::Ask(slot) => check(slot.get() == number, "another slot"),
        _ => Err("another message")?,
    }
}

#[test]
fn envelopes_come_in_order(rt: HostRuntime) -> Result<(), Fail> {
    let listener = listen(&rt, 0)?;
    let link = link_to(rt, rt.alloc(), listener.local_addr()?.port())?;
    let mut envelopes = Vec::new(rt.alloc());
    envelopes.push(ask(1)?)?;
    envelopes.push(ask(2)?)?;
    link.send_all(node(1)?, &mut envelopes);
    check(envelopes.is_empty(), "some are left")?;
    link.send(ask(3)?);
    let (stream, _) = listener.accept()?;
    for number in 1..=3 {
        check_next(rt.alloc(), &stream, number)?;
    }
    Ok(())
}

#[test]
fn a_link_connects_anew(rt: HostRuntime) -> Result<(), Fail> {
    let listener = listen(&rt, 0)?;
    let link = link_to(rt, rt.alloc(), listener.local_addr()?.port())?;
    link.send(ask(1)?);
    drop(listener.accept()?);
    listener.set_nonblocking(true)?;
    for number in 2..=1_000 {
        link.send(ask(number)?);
        if let Ok((stream, _)) = listener.accept() {
            return check_next(rt.alloc(), &stream, number);
        }
        thread::sleep(&rt, Duration::from_millis(10));
    }
    Err("no connection")?
}

#[test]
fn what_goes_to_no_listener_is_lost(rt: HostRuntime) -> Result<(), Fail> {
    let listener = listen(&rt, 0)?;
    let port = listener.local_addr()?.port();
    drop(listener);
    let link = link_to(rt, rt.alloc(), port)?;
    link.send(ask(1)?);
    link.send(ask(2)?);
    let listener = listen(&rt, port)?;
    link.send(ask(3)?);
    let (stream, _) = listener.accept()?;
    check_next(rt.alloc(), &stream, 3)
}

/// Many Asks, whose frames have 1.6 MB.
fn many(alloc: Global) -> Result<Vec<Envelope<SharedCommand>>, Fail> {
    let mut envelopes = Vec::new(alloc);
    for number in 1..=100_000 {
        envelopes.push(ask(number)?)?;
    }
    Ok(envelopes)
}

/// Nothing is read of 32 MB, which is more than the system keeps.
#[test]
fn a_node_that_reads_nothing_holds_up_nobody(rt: HostRuntime) -> Result<(), Fail> {
    let listener = listen(&rt, 0)?;
    let link = link_to(rt, rt.alloc(), listener.local_addr()?.port())?;
    for _ in 0..20 {
        let mut envelopes = many(rt.alloc())?;
        link.send_all(node(1)?, &mut envelopes);
        check(envelopes.is_empty(), "some are left")?;
    }
    Ok(())
}
