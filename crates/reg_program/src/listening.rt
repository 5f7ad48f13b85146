//! The job that serves an office over HTTP.
ghost use Rattle.std.specs.Prelude.{IfOk};
ghost use Rattle.reg_http.specs.Meeting.{ServesInTurn};
ghost use Rattle.reg_wire.specs.Serving.{AnswersOver};
ghost use Rattle.reg_program.specs.Serving.{IsLoopback, IsListener, IsPatience, ServesOrStays};

use crate::asking::print;
use crate::console::Console;
use crate::faults::{JobFailure, Undone};
use crate::log::Lines;
use reg_http::dates::Dates;
use reg_http::listener::{PATIENCE_SECONDS, serve_listener};
use reg_http::log::LineLog;
use reg_http::peers::{Peers, Ports};
use reg_keeper::keeper::Keeper;
use reg_office::Office;
use reg_parse::route::Routes;
use reg_wire::log::Unlogged;
use std::alloc::Global;
use std::io::{Read, Write};
use std::net::{Ipv4Addr, SocketAddr, SocketAddrV4};
use std::time::Duration;

/// How an office is served.
#[derive(Clone, Copy)]
pub struct Serving {
    /// The port of loopback, from 1.
    pub port: u16,
    /// How many connections are accepted and served.
    pub connections: u32,
    /// Whether a line on standard error tells of each connection.
    pub log: bool,
}

/// Listens on a port of loopback, says so on standard output, and serves so many connections: one
/// after the other, while it waits for all of them at once. With a log, a line on standard error tells
/// of each. `Port` where it cannot be listened on. Where it fails, nothing is served.
pub fn serve_in<N: Ports, D: Dates, K: Keeper, R: Read, W: Write, E: Write>(
    alloc: Global,
    ports: &N,
    dates: &mut D,
    office: &mut Office<K>,
    serving: Serving,
    console: &mut Console<'_, R, W, E>,
) -> Result<(), Undone>
    ensures { ServesOrStays (AnswersOver K.world K.Holds K.Sound K.FAILS) (N.Opened ports.now)
        N.Given.blank N.Given.coming N.Given.written (D.readings dates.old) (D.readings dates.new)
        office.old office.new result serving.port serving.connections }
{
    let routes = Routes::new(alloc)?;
    let mut peers = listening(alloc, ports, serving)?;
    say_listening(alloc, serving.port, console.output)?;
    serve_on(
        alloc,
        dates,
        office,
        &routes,
        &mut peers,
        serving,
        console.errors,
    );
    Ok(())
}

fn serve_on<D: Dates, K: Keeper, P: Peers, E: Write>(
    alloc: Global,
    dates: &mut D,
    office: &mut Office<K>,
    routes: &Routes,
    peers: &mut P,
    serving: Serving,
    errors: &mut E,
) -> u32
    ensures { ServesInTurn (AnswersOver K.world K.Holds K.Sound K.FAILS) P.blank serving.connections
        result
        (P.coming peers.old) (P.coming peers.new) (D.readings dates.old) (D.readings dates.new)
        (P.written peers.old) (P.written peers.new) office.old office.new }
{
    let count = serving.connections;
    if serving.log {
        let mut lines = Lines::new(alloc, errors);
        serve_logged(alloc, dates, office, routes, peers, count, &mut lines)
    } else {
        serve_logged(alloc, dates, office, routes, peers, count, &mut Unlogged)
    }
}

// Serves so many connections, and waits until the last answer is taken; gives how many were answered.
fn serve_logged<D: Dates, K: Keeper, P: Peers, L: LineLog>(
    alloc: Global,
    dates: &mut D,
    office: &mut Office<K>,
    routes: &Routes,
    peers: &mut P,
    count: u32,
    log: &mut L,
) -> u32
    ensures { ServesInTurn (AnswersOver K.world K.Holds K.Sound K.FAILS) P.blank count result
        (P.coming peers.old) (P.coming peers.new) (D.readings dates.old) (D.readings dates.new)
        (P.written peers.old) (P.written peers.new) office.old office.new }
{
    let done = serve_listener(alloc, dates, office, routes, peers, count, log);
    peers.finish(log);
    done.answered
}

fn listening<N: Ports>(alloc: Global, ports: &N, serving: Serving) -> Result<N::Given, JobFailure>
    ensures { IfOk result (IsListener (N.Opened ports.now) serving.port serving.connections) }
{
    match ports.listen(
        alloc,
        loopback(serving.port),
        patience(),
        serving.connections,
    ) {
        Ok(peers) => Ok(peers),
        Err(_) => Err(JobFailure::Port),
    }
}

// The address of a port of loopback.
fn loopback(port: u16) -> SocketAddr
    ensures { IsLoopback result port }
{
    SocketAddr::V4(SocketAddrV4::new(Ipv4Addr::LOCALHOST, port))
}

// How long a peer has to send its request, and again to take the answer.
fn patience() -> Duration
    ensures { IsPatience result }
{
    Duration::from_secs(PATIENCE_SECONDS)
}

fn say_listening<W: Write>(alloc: Global, port: u16, output: &mut W) -> Result<(), Undone> {
    let line = format!(in alloc; "listening on 127.0.0.1:{port}\n")?;
    print(output, line.as_bytes())
}
