//! The connections of a listener, waited for all at once.
ghost use Rattle.std.specs.Prelude.{◌≡◌, IfOk};

use crate::front::Front;
use crate::log::{LineLog, LogLine};
use crate::peers::Peers;
use crate::place::MOST_PLACES;
use crate::socket::Socket;
use crate::table::ConnectionTable;
use mio::net::TcpListener;
use mio::{Events, Interest, Poll, Token};
use std::alloc::Global;
use std::io;
use std::io::{ErrorKind, Read, Write};
use std::net::{Net, SocketAddr};
use std::time::{Clock, Duration};

// How many sockets one wait may report.
const MOST_EVENTS: usize = 256;

// What the listener is reported as.
const LISTENER: usize = usize::MAX;

/// The connections of a listener, waited for all at once.
#[derive(Drop)]
pub struct TcpPeers<'a, C: Clock, F: Front + Drop> {
    /// Where they come.
    pub address: SocketAddr,
    /// How long a peer has to send its request, and again to take the answer.
    pub patience: Duration,
    /// How many are accepted.
    pub count: u32,
    // What accepts them, until the last has come.
    listener: Option<TcpListener>,
    poll: Poll,
    events: Events,
    table: ConnectionTable<'a, C, F>,
    // How many are still accepted.
    left: u32,
    // Whether some may wait to be accepted.
    is_knocked: bool,
    // Whether the system lacked what it takes to accept the last.
    is_short: bool,
}

/// The connections at an address, with this in front of the office.
pub fn peers_at<'a, H: Clock + Net, F: Front + Drop>(
    rt: &'a H,
    alloc: Global,
    address: SocketAddr,
    patience: Duration,
    count: u32,
    front: F,
) -> io::Result<TcpPeers<'a, H, F>>
    ensures { IfOk result (λ c. (c.address ≡ address) × (c.patience ≡ patience)
        × (c.count ≡ count)) }
{
    let poll = Poll::new(rt)?;
    let mut listener = TcpListener::bind(rt, address)?;
    poll.registry()
        .register(&mut listener, Token(LISTENER), Interest::READABLE)?;
    let Ok(events) = Events::with_capacity(alloc, MOST_EVENTS) else {
        return Err(ErrorKind::OutOfMemory.into());
    };
    Ok(TcpPeers {
        address,
        patience,
        count,
        listener: Some(listener),
        poll,
        events,
        table: ConnectionTable::new(alloc, rt, front, patience),
        left: count,
        is_knocked: true,
        is_short: false,
    })
}

impl<C: Clock, F: Front + Drop> TcpPeers<'_, C, F> {
    // Waits until a socket is ready or a connection ends by the clock, and does what can be done.
    fn go_round<L: LineLog>(&mut self, log: &mut L) -> io::Result<()> {
        let leisure = self.leisure();
        self.poll.poll(&mut self.events, leisure)?;
        self.table.begin_round();
        for event in self.events.iter() {
            let Token(at) = event.token();
            if at == LISTENER {
                self.is_knocked = true;
            } else {
                self.table.go_on(self.poll.registry(), at, log);
            }
        }
        self.table.end_overdue(log);
        self.accept_all(log);
        Ok(())
    }

    // How long there is until something is to be done, unless a socket is ready before.
    fn leisure(&self) -> Option<Duration> {
        if self.is_knocked {
            Some(Duration::ZERO)
        } else {
            self.table.leisure()
        }
    }

    // Accepts those that wait, as long as there is room.
    fn accept_all<L: LineLog>(&mut self, log: &mut L) {
        for _ in 0..MOST_PLACES {
            if !self.is_knocked || !self.has_room() {
                return;
            }
            self.accept_one(log);
        }
    }

    fn has_room(&self) -> bool {
        !self.is_short && self.table.schedule.has_room()
    }

    fn accept_one<L: LineLog>(&mut self, log: &mut L) {
        let Some(listener) = &self.listener else {
            self.is_knocked = false;
            return;
        };
        match listener.accept() {
            Ok((stream, _)) => {
                self.left = self.left.saturating_sub(1);
                self.table.admit(self.poll.registry(), stream, log);
            }
            Err(error) => match error.kind() {
                ErrorKind::WouldBlock => self.is_knocked = false,
                ErrorKind::ConnectionAborted | ErrorKind::Interrupted => {}
                _ => self.is_short = true,
            },
        }
        if self.left == 0 {
            self.listener = None;
            self.is_knocked = false;
        }
    }

    // Has a connection give way to one that waits to be accepted, if there is one that can.
    fn make_way<L: LineLog>(&mut self, log: &mut L) {
        self.table.make_way(log);
        self.is_short = false;
        if self.table.schedule.is_empty() {
            self.is_knocked = false;
        }
    }
}

/// What is read of a connection whose turn it is.
#[derive(Drop)]
pub struct TcpReader<T> {
    at: usize,
    socket: Socket<T>,
    read: usize,
}

impl<T: Read + Drop> Read for TcpReader<T> {
    fn read(&mut self, buf: &mut [u8]) -> io::Result<usize> {
        let mut rest = &self.socket.bytes[self.read.min(self.socket.bytes.len())..];
        let count = rest.read(buf)?;
        if count == 0 && self.socket.has_failed {
            return Err(ErrorKind::TimedOut.into());
        }
        self.read = self.read.saturating_add(count);
        Ok(count)
    }
}

/// What is written to it.
#[derive(Drop)]
pub struct TcpWriter<T> {
    at: usize,
    socket: Socket<T>,
}

impl<T: Read + Drop> Write for TcpWriter<T> {
    fn write(&mut self, buf: &[u8]) -> io::Result<usize> {
        self.socket.write(buf)
    }

    fn flush(&mut self) -> io::Result<()> {
        Ok(())
    }
}

impl<C: Clock, F: Front + Drop> Peers for TcpPeers<'_, C, F> {
    type Reader = TcpReader<F::Content>;

    type Writer = TcpWriter<F::Content>;

    fn next<L: LineLog>(&mut self, log: &mut L) -> Option<TcpReader<F::Content>> {
        for _ in 0..u64::MAX {
            if self.listener.is_none() && self.table.schedule.is_asked_no_more() {
                return None;
            }
            self.go_round(log).ok()?;
            if let Some((at, socket)) = self.table.take_turn() {
                let registry = self.poll.registry();
                if let Some(socket) = self.table.answer_in_front(registry, at, socket, log) {
                    return Some(TcpReader {
                        at,
                        socket,
                        read: 0,
                    });
                }
            } else if self.is_knocked && !self.has_room() {
                self.make_way(log);
            }
        }
        None
    }

    fn turned(&mut self, reader: TcpReader<F::Content>) -> TcpWriter<F::Content> {
        let TcpReader {
            at,
            socket,
            read: _,
        } = reader;
        let mut socket = socket;
        socket.bytes.clear();
        TcpWriter { at, socket }
    }

    fn end<L: LineLog>(&mut self, writer: TcpWriter<F::Content>, line: LogLine, log: &mut L) {
        let TcpWriter { at, socket } = writer;
        self.table
            .put_back(self.poll.registry(), at, socket, line, log);
    }

    fn finish<L: LineLog>(&mut self, log: &mut L) {
        for _ in 0..u64::MAX {
            if self.table.schedule.is_empty() || self.go_round(log).is_err() {
                return;
            }
        }
    }
}
