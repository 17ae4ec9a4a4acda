//! Yards in memory.
ghost use Rattle.std.specs.Prelude.{◌<◌, All, IfOk, IfSome};
ghost use Rattle.station_doors.specs.MemYard.{IsIdle, IsUntouched};

use crate::streams::bytes;
use station_doors::{LinkList, MemLink, MemPort, MemYard, PortList};
use std::alloc::Global;
use wire_io::{ByteList, NoMemory};

/// What comes to the ports.
#[derive(Clone, Copy)]
pub(crate) enum Comes {
    /// No connection.
    Nobody,

    /// To each a connection of the stream.
    Stream,

    /// To each a connection of as many bytes of the stream as there are ports before it.
    Fronts,
}

/// What stands round a station: so many ports, to which connections of these messages come; so many links, each with one
/// connection for each of these lines. The reads of a port and the calls of the yard with these numbers fail.
#[derive(Clone, Copy)]
pub(crate) struct Around {
    pub(crate) ports: u32,
    pub(crate) comes: Comes,
    pub(crate) stream: &'static [&'static str],
    pub(crate) reads: &'static [u64],
    pub(crate) links: u32,
    pub(crate) lines: &'static [&'static str],
    pub(crate) calls: &'static [u64],
}

impl Around {
    /// No port and no link.
    pub(crate) const NOTHING: Around = Around {
        ports: 0,
        comes: Comes::Stream,
        stream: &[],
        reads: &[],
        links: 0,
        lines: &[],
        calls: &[],
    };
}

/// The yard of it.
pub(crate) fn yard<E>(alloc: Global, around: Around) -> Option<MemYard<E>> {
    let ports = ports(alloc, around)?;
    let links = links(alloc, around)?;
    MemYard::new(alloc, ports, links, around.calls).ok()
}

fn ports(alloc: Global, around: Around) -> Option<PortList>
    ensures { IfSome result (All IsUntouched) }
{
    let stream = bytes(alloc, around.stream)?;
    ports_of(alloc, &around, stream.as_slice()).ok()
}

// What comes to the port of this number.
fn connections_of(
    alloc: Global,
    comes: Comes,
    stream: &[u8],
    number: u32,
) -> Result<Vec<ByteList>, NoMemory> {
    let bytes = match comes {
        Comes::Nobody => return Ok(Vec::new(alloc)),
        Comes::Stream => stream,
        Comes::Fronts => stream.get(..number as usize).unwrap_or(stream),
    };
    let mut connection = ByteList::new(alloc);
    connection.extend(bytes)?;
    let mut connections = Vec::new(alloc);
    match connections.push(connection) {
        Ok(()) => Ok(connections),
        Err(_) => Err(NoMemory),
    }
}

// A port with these connections, given in small pieces first.
fn port(alloc: Global, connections: &[ByteList], reads: &[u64]) -> Result<MemPort, NoMemory>
    ensures { IfOk result IsUntouched }
{
    Ok(MemPort::new(alloc, connections, &[1, 1, 4, 1, 30, 7], reads)?)
}

// The port of this number.
fn port_of(alloc: Global, around: &Around, stream: &[u8], number: u32) -> Result<MemPort, NoMemory>
    ensures { IfOk result IsUntouched }
{
    let connections = connections_of(alloc, around.comes, stream, number)?;
    port(alloc, connections.as_slice(), around.reads)
}

// All of them.
fn ports_of(alloc: Global, around: &Around, stream: &[u8]) -> Result<PortList, NoMemory>
    ensures { IfOk result (All IsUntouched) }
{
    let mut ports = PortList::new(alloc);
    for number in 0..around.ports {
        let port = port_of(alloc, around, stream, number)?;
        match ports.push(port) {
            Ok(()) => {}
            Err(_) => return Err(NoMemory),
        }
    }
    Ok(ports)
}

// A connection for each of these lines.
fn connections(alloc: Global, lines: &[&str]) -> Option<Vec<ByteList>> {
    let mut connections = Vec::new(alloc);
    for line in lines {
        let mut connection = ByteList::new(alloc);
        connection.extend(line.as_bytes()).ok()?;
        connections.push(connection).ok()?;
    }
    Some(connections)
}

fn links(alloc: Global, around: Around) -> Option<LinkList>
    ensures { IfSome result (All IsIdle) }
{
    let connections = connections(alloc, around.lines)?;
    links_of(alloc, around.links, &connections).ok()
}

// A link with these connections, given in small pieces first.
fn link(alloc: Global, connections: &[ByteList]) -> Result<MemLink, NoMemory>
    ensures { IfOk result IsIdle }
{
    Ok(MemLink::new(alloc, connections, &[3, 9], 100, &[])?)
}

// So many of them.
fn links_of(alloc: Global, count: u32, connections: &[ByteList]) -> Result<LinkList, NoMemory>
    ensures { IfOk result (All IsIdle) }
{
    let mut links = LinkList::new(alloc);
    for _ in 0..count {
        let link = link(alloc, connections)?;
        match links.push(link) {
            Ok(()) => {}
            Err(_) => return Err(NoMemory),
        }
    }
    Ok(links)
}

/// A yard with one port, to which one connection of these bytes comes, in pieces of these sizes first, and no link. The
/// reads of the port and the calls of the yard with these numbers fail.
pub(crate) fn yard_of<E>(
    alloc: Global,
    connection: ByteList,
    pieces: &[u32],
    reads: &[u64],
    calls: &[u64],
) -> Option<MemYard<E>>
    requires { All (λ n. 0 < n) pieces.now }
{
    let ports = one_port(alloc, connection, pieces, reads)?;
    MemYard::new(alloc, ports, no_link(alloc), calls).ok()
}

fn one_port(alloc: Global, connection: ByteList, pieces: &[u32], reads: &[u64]) -> Option<PortList>
    requires { All (λ n. 0 < n) pieces.now }
    ensures { IfSome result (All IsUntouched) }
{
    let port = MemPort::new(alloc, &[connection], pieces, reads).ok()?;
    let mut ports = PortList::new(alloc);
    ports.push(port).ok()?;
    Some(ports)
}

fn no_link(alloc: Global) -> LinkList
    ensures { All IsIdle result }
{
    LinkList::new(alloc)
}
