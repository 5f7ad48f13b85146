//! Offices that are served over HTTP on loopback, as sources.
ghost use Rattle.std.specs.Prelude.{◌≡◌, ◌*◌, IfOk};
ghost use Rattle.std.specs.Duration.{as_nanos};
ghost use Rattle.std.specs.String.{string_bytes};
ghost use Rattle.reg_core.specs.View.{published as shown};
ghost use Rattle.reg_core.specs.World.{empty_world};
ghost use Rattle.reg_client.specs.Reading.{asking_text, format_of, path_of};

use crate::answers::{body_of, read_answer};
use crate::reading::told_of;
use crate::timed::{Timed, left};
use http::Method;
use reg_core::command::PublicCommand;
use reg_core::told::Told;
use reg_print::answer::Format;
use reg_source::source::Source;
use reg_source::unpublished::{Unpublished, unread};
use std::alloc::{AllocError, Global};
use std::io;
use std::io::Write;
use std::net::{Ipv4Addr, Net, SocketAddr, TcpListener, TcpStream};
use std::time::{Clock, Duration};

/// How many seconds an office that is served has for each answer.
pub const PATIENCE_SECONDS: u64 = 10;

/// An office that is served over HTTP on a port of loopback.
#[derive(Drop)]
pub struct Peer<'a, H> {
    rt: &'a H,
    port: u16,
}

impl<'a, H> Peer<'a, H> {
    /// The office that is served on this port.
    pub fn new(rt: &'a H, port: u16) -> Self {
        Peer { rt, port }
    }
}

impl<H: AllocGlobal + Clock + Net<Listener = TcpListener, Stream = TcpStream>> Source
    for Peer<'_, H> {
    ghost published = { λ _. shown empty_world };

    ghost Holds = { λ _. ⊥ };

    fn ask(&mut self, _moment: u64, command: &PublicCommand) -> Result<Told, Unpublished> {
        ask_served(self.rt, self.port, command)
    }
}

// What is told by the office that is served on this port.
fn ask_served<H: AllocGlobal + Clock + Net<Listener = TcpListener, Stream = TcpStream>>(
    rt: &H,
    port: u16,
    command: &PublicCommand,
) -> Result<Told, Unpublished> {
    let alloc = rt.alloc();
    let request = request(alloc, command)?;
    let answer = exchange(rt, port, request.as_bytes())?;
    match body_of(format_of(command), answer.as_slice()) {
        Some(body) => told_of(alloc, command, body),
        None => Err(Unpublished::Read),
    }
}

/// Sends the bytes of one request to what listens on a port of loopback, and gives the bytes of its
/// answer to their end. `Read` where nobody listens there, ten seconds are not enough for both, or the
/// answer does not begin with the head of an office's, as soon as 160 bytes are there; and else as
/// `read_answer`.
pub fn exchange<H: AllocGlobal + Clock + Net<Listener = TcpListener, Stream = TcpStream>>(
    rt: &H,
    port: u16,
    request: &[u8],
) -> Result<Vec<u8>, Unpublished> {
    let end = end_of_patience(rt).map_err(unread)?;
    let stream = connect(rt, port, end).map_err(unread)?;
    let mut timed = Timed {
        stream: &stream,
        clock: rt,
        end,
        head: Vec::new(rt.alloc()),
    };
    timed.write_all(request).map_err(unread)?;
    read_answer(rt.alloc(), &mut timed)
}

fn end_of_patience<C: Clock>(clock: &C) -> io::Result<Duration> {
    match clock.monotonic()?.checked_add(patience()) {
        Some(end) => Ok(end),
        None => Err(io::ErrorKind::TimedOut.into()),
    }
}

// How long an office that is served has for an answer.
fn patience() -> Duration
    ensures { as_nanos result ≡ 10 * 1000000000 }
{
    Duration::from_secs(PATIENCE_SECONDS)
}

fn connect<H: Clock + Net<Listener = TcpListener, Stream = TcpStream>>(
    rt: &H,
    port: u16,
    end: Duration,
) -> io::Result<TcpStream> {
    let address = SocketAddr::from((Ipv4Addr::LOCALHOST, port));
    TcpStream::connect_timeout(rt, &address, left(rt, end)?)
}

// The bytes of a request without a token.
fn request(alloc: Global, command: &PublicCommand) -> Result<String, AllocError>
    ensures { IfOk result (λ text. string_bytes text ≡ asking_text command.now) }
{
    let path = path_of(alloc, command)?;
    let method = Method::GET;
    format!(in alloc; "{method} {path} HTTP/1.1\r\nHost: 127.0.0.1\r\nConnection: close\r\n\r\n")
}

// The path of a command.
fn path_of(alloc: Global, command: &PublicCommand) -> Result<String, AllocError>
    ensures { IfOk result (λ path. string_bytes path ≡ path_of command.now) }
{
    match command {
        PublicCommand::Registries => String::from_str(alloc, "/registries"),
        PublicCommand::Registry(name) => format!(in alloc; "/registries/{}", name.as_str()),
        PublicCommand::RegistryCsv(name) => {
            format!(in alloc; "/listings/registries/{}", name.as_str())
        }
        PublicCommand::PoolList => String::from_str(alloc, "/pool"),
        PublicCommand::BlocksCsv => String::from_str(alloc, "/listings/blocks"),
    }
}

// The format of the answer to a command.
fn format_of(command: &PublicCommand) -> Format
    ensures { result ≡ format_of command.now }
{
    match command {
        PublicCommand::Registries | PublicCommand::Registry(_) | PublicCommand::PoolList => {
            Format::Json
        }
        PublicCommand::RegistryCsv(_) | PublicCommand::BlocksCsv => Format::Csv,
    }
}
