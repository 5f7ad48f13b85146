//! The connections that there are, each with its socket.
ghost use Rattle.std.specs.Prelude.{◌≡◌};
ghost use Rattle.reg_http.specs.Schedules.{IsOverAt, NobodyIsOver, SameBut, stage_at};
ghost use Rattle.reg_http.specs.declared.place.Stage.TheVariants as stage;

use crate::dates::{ClockDates, moment_now};
use crate::front::{Front, FrontAnswer};
use crate::log::{LineLog, LogLine};
use crate::place::{MOST_PLACES, Stage};
use crate::schedule::Schedule;
use crate::socket::{LeftContent, Readiness, Socket};
use http::StatusCode;
use mio::net::TcpStream;
use mio::{Interest, Registry};
use reg_keeper::keeper::Fault;
use reg_print::answer::Answer;
use reg_wire::log::Sent;
use reg_wire::response::Response;
use reg_wire::serving::send_told;
use std::alloc::{AllocError, Global};
use std::time::{Clock, Duration};

// In how many seconds content is to be sent.
const CONTENT_SECONDS: u64 = 600;

/// The connections that there are.
#[derive(Drop)]
pub(crate) struct ConnectionTable<'a, C: Clock, F: Front + Drop> {
    alloc: Global,
    clock: &'a C,
    front: F,
    /// Where each stands.
    pub schedule: Schedule,
    // The connection at each place, unless it is free or in turn.
    sockets: Vec<Option<Socket<F::Content>>>,
}

impl<'a, C: Clock, F: Front + Drop> ConnectionTable<'a, C, F> {
    /// No connection yet.
    pub fn new(
        alloc: Global,
        clock: &'a C,
        front: F,
        patience: Duration,
    ) -> ConnectionTable<'a, C, F>
        ensures { result.schedule.counters.patience ≡ patience }
    {
        ConnectionTable {
            alloc,
            clock,
            front,
            schedule: Schedule::new(alloc, patience),
            sockets: Vec::new(alloc),
        }
    }

    // ---- By the clock

    fn tell_time(&mut self) {
        if let Ok(now) = self.clock.monotonic() {
            self.schedule.tell_time(now);
        }
    }

    /// Begins a round.
    pub fn begin_round(&mut self) {
        self.schedule.begin_round();
        self.tell_time();
    }

    /// How long there is until a connection ends by the clock; nothing where one is due.
    pub fn leisure(&self) -> Option<Duration> {
        if self.schedule.next_turn().is_some() {
            return Some(Duration::ZERO);
        }
        self.schedule.least_left()
    }

    /// Ends what has been asking, answered or refused too long.
    pub fn end_overdue<L: LineLog>(&mut self, log: &mut L)
        ensures over { NobodyIsOver self.new.schedule.counters.patience
            self.new.schedule.counters.now self.new.schedule.places.items }
        ensures counters { self.new.schedule.counters ≡ self.old.schedule.counters }
    {
        for at in 0..self.schedule.len() {
            if self.schedule.is_over(at) {
                self.give_up(at, log);
            }
        }
    }

    // ---- Places

    /// Has a connection give way to a new one.
    pub fn make_way<L: LineLog>(&mut self, log: &mut L) {
        if let Some(at) = self.schedule.giving_way() {
            self.give_up(at, log);
        }
    }

    // What asks is carried out as it stands, and fails; what is answered is dropped.
    fn give_up<L: LineLog>(&mut self, at: usize, log: &mut L)
        ensures ended { IsOverAt self.old.schedule.counters.patience self.old.schedule.counters.now
            self.new.schedule.places.items at → ⊥ }
        ensures others { SameBut at self.old.schedule.places.items self.new.schedule.places.items }
        ensures counters { self.new.schedule.counters ≡ self.old.schedule.counters }
    {
        match self.schedule.stage(at) {
            Stage::Asking => {
                self.fail(at);
                self.schedule.settle(at);
            }
            Stage::Answered(_) | Stage::Refused(_) => self.drop_at(at, log),
            Stage::Free | Stage::Due(_) | Stage::InTurn => {}
        }
    }

    // It can be read no more.
    fn fail(&mut self, at: usize)
        ensures { self.new.schedule ≡ self.old.schedule }
    {
        if let Some(place) = self.sockets.get_mut(at) {
            if let Some(socket) = place {
                socket.has_failed = true;
            }
        }
    }

    fn free(&mut self, at: usize)
        ensures stage { stage_at self.new.schedule.places.items at ≡ stage.Free }
        ensures others { SameBut at self.old.schedule.places.items self.new.schedule.places.items }
        ensures counters { self.new.schedule.counters ≡ self.old.schedule.counters }
    {
        if let Some(socket) = self.sockets.get_mut(at) {
            *socket = None;
        }
        self.schedule.free(at);
    }

    // Drops a connection whose answer was not taken whole, or which was refused.
    fn drop_at<L: LineLog>(&mut self, at: usize, log: &mut L)
        ensures stage { stage_at self.new.schedule.places.items at ≡ stage.Free }
        ensures others { SameBut at self.old.schedule.places.items self.new.schedule.places.items }
        ensures counters { self.new.schedule.counters ≡ self.old.schedule.counters }
    {
        if let Some(line) = self.take_line(at) {
            log.told(LogLine { sent: None, ..line });
        }
        self.free(at);
    }

    // The line that is told of the connection.
    fn take_line(&mut self, at: usize) -> Option<LogLine>
        ensures { self.new.schedule ≡ self.old.schedule }
    {
        match self.sockets.get_mut(at) {
            Some(place) => match place {
                Some(socket) => socket.take_line(),
                None => None,
            },
            None => None,
        }
    }

    // Drops connections until no more is kept than may be.
    fn lighten<L: LineLog>(&mut self, log: &mut L) {
        for _ in 0..MOST_PLACES {
            let Some(at) = self.schedule.too_heavy() else {
                return;
            };
            if let Some(Some(socket)) = self.sockets.get_mut(at) {
                socket.forget(self.alloc);
            }
            self.give_up(at, log);
            self.schedule.keeps(at, 0, 0);
        }
    }

    // ---- From accepting to the turn

    /// Takes in a connection that was accepted, and reads what has come.
    pub fn admit<L: LineLog>(&mut self, registry: &Registry, stream: TcpStream, log: &mut L) {
        let socket = Socket::new(self.alloc, stream);
        let Ok(at) = self.schedule.take_in() else {
            return;
        };
        if self.put(at, socket).is_ok() {
            self.take_in(registry, at, log);
        } else {
            self.schedule.free(at);
        }
    }

    fn put(&mut self, at: usize, socket: Socket<F::Content>) -> Result<(), AllocError> {
        if let Some(free) = self.sockets.get_mut(at) {
            *free = Some(socket);
            return Ok(());
        }
        self.sockets.push(Some(socket))?;
        Ok(())
    }

    /// Has a connection do what its socket is ready for.
    pub fn go_on<L: LineLog>(&mut self, registry: &Registry, at: usize, log: &mut L) {
        match self.schedule.stage(at) {
            Stage::Asking => self.take_in(registry, at, log),
            Stage::Answered(_) => self.put_out(registry, at, log),
            Stage::Refused(_) => self.drain(registry, at),
            Stage::Free | Stage::Due(_) | Stage::InTurn => {}
        }
    }

    // Reads what has come of a request, until it is settled.
    fn take_in<L: LineLog>(&mut self, registry: &Registry, at: usize, log: &mut L) {
        let Some(Some(socket)) = self.sockets.get_mut(at) else {
            return;
        };
        let readiness = socket.take_in(self.alloc);
        let asked = socket.asked();
        let is_settled = match readiness {
            Readiness::Done | Readiness::Broken => true,
            Readiness::Blocked | Readiness::Busy => {
                let again = readiness == Readiness::Busy;
                match socket.watch(registry, at, Interest::READABLE, again) {
                    Ok(()) => false,
                    Err(_) => {
                        socket.has_failed = true;
                        true
                    }
                }
            }
        };
        if is_settled {
            self.schedule.settle(at);
        }
        self.schedule.keeps(at, asked, 0);
        self.lighten(log);
    }

    /// The connection that is carried out next, with its place, and what was read of its request.
    pub fn take_turn(&mut self) -> Option<(usize, Socket<F::Content>)> {
        let at = self.schedule.next_turn()?;
        let taken = self.sockets.get_mut(at)?;
        let socket = std::mem::replace(taken, None)?;
        self.schedule.begin_turn(at);
        Some((at, socket))
    }

    // ---- From the answer to the end

    /// Answers a connection in front of the office, if it is not for the office.
    pub fn answer_in_front<L: LineLog>(
        &mut self,
        registry: &Registry,
        at: usize,
        socket: Socket<F::Content>,
        log: &mut L,
    ) -> Option<Socket<F::Content>> {
        if !socket.may_be_whole() {
            return Some(socket);
        }
        let answer = self.front.answer(self.alloc, socket.bytes.as_slice());
        match answer {
            Ok(None) => Some(socket),
            Ok(Some(answer)) => {
                self.send_front(registry, at, socket, answer, log);
                None
            }
            Err(_) => {
                self.send_storage(registry, at, socket, log);
                None
            }
        }
    }

    // Answers that there was no memory, which takes none.
    fn send_storage<L: LineLog>(
        &mut self,
        registry: &Registry,
        at: usize,
        socket: Socket<F::Content>,
        log: &mut L,
    ) {
        log.failed(Fault::Memory);
        let moment = moment_now(&mut ClockDates { clock: self.clock });
        let mut socket = socket;
        socket.bytes.clear();
        let told = Response::Answer(Answer::Storage);
        let sent = send_told(self.alloc, &mut socket, Ok(told)).ok();
        let line = log.line(self.alloc, moment, sent);
        self.put_back(registry, at, socket, line, log);
    }

    fn send_front<L: LineLog>(
        &mut self,
        registry: &Registry,
        at: usize,
        socket: Socket<F::Content>,
        answer: FrontAnswer<F::Content>,
        log: &mut L,
    ) {
        let FrontAnswer {
            head,
            status,
            length,
            method,
            path,
            content,
        } = answer;
        log.asked_in_front(method.as_slice(), path.as_deref());
        let moment = moment_now(&mut ClockDates { clock: self.clock });
        let body = length;
        let line = log.line(self.alloc, moment, Some(Sent { status, body }));
        let mut socket = socket;
        socket.bytes = head;
        socket.rest = match content {
            Some(content) => Some(LeftContent {
                content,
                left: length,
                last: self
                    .schedule
                    .counters
                    .now
                    .saturating_add(Duration::from_secs(CONTENT_SECONDS)),
            }),
            None => None,
        };
        self.put_back(registry, at, socket, line, log);
    }

    /// Has the answer that was made sent, or drops the connection where none was.
    pub fn put_back<L: LineLog>(
        &mut self,
        registry: &Registry,
        at: usize,
        socket: Socket<F::Content>,
        line: LogLine,
        log: &mut L,
    ) {
        if line.sent.is_none() {
            drop(socket);
            log.told(line);
            self.free(at);
        } else {
            self.begin_answer(registry, at, socket.with_line(line), log);
        }
    }

    // Has an answer sent.
    fn begin_answer<L: LineLog>(
        &mut self,
        registry: &Registry,
        at: usize,
        socket: Socket<F::Content>,
        log: &mut L,
    ) {
        let last = socket.last();
        if let Some(place) = self.sockets.get_mut(at) {
            *place = Some(socket);
        }
        self.tell_time();
        self.schedule.begin_answer(at, last);
        self.put_out(registry, at, log);
    }

    // Sends what the peer takes of its answer.
    fn put_out<L: LineLog>(&mut self, registry: &Registry, at: usize, log: &mut L) {
        let Some(Some(socket)) = self.sockets.get_mut(at) else {
            return;
        };
        let before = socket.sent();
        let readiness = socket.put_out();
        let goes_on = socket.has_content() && socket.sent() > before;
        match readiness {
            Readiness::Done => {
                self.end_sent(registry, at, log);
                return;
            }
            Readiness::Broken => {
                self.drop_at(at, log);
                return;
            }
            Readiness::Blocked | Readiness::Busy => {}
        }
        let again = readiness == Readiness::Busy;
        let is_watched = socket
            .watch(registry, at, Interest::WRITABLE, again)
            .is_ok();
        socket.shrink(self.alloc);
        let unsent = socket.unsent();
        if !is_watched {
            self.drop_at(at, log);
            return;
        }
        if goes_on {
            self.schedule.goes_on(at);
        }
        self.schedule.keeps(at, 0, unsent);
        self.lighten(log);
    }

    // The answer was taken whole.
    fn end_sent<L: LineLog>(&mut self, registry: &Registry, at: usize, log: &mut L) {
        let Some(Some(socket)) = self.sockets.get_mut(at) else {
            return;
        };
        let Some(line) = socket.take_line() else {
            return;
        };
        let is_refused = match &line.sent {
            Some(sent) => is_refusing(sent.status),
            None => false,
        };
        log.told(line);
        if is_refused && socket.close_writing() {
            self.schedule.refuse(at);
            self.drain(registry, at);
        } else {
            self.free(at);
        }
    }

    // Reads what a refused peer still sends, and drops it.
    fn drain(&mut self, registry: &Registry, at: usize) {
        let Some(Some(socket)) = self.sockets.get_mut(at) else {
            return;
        };
        let readiness = socket.drain();
        let goes_on = match readiness {
            Readiness::Done | Readiness::Broken => false,
            Readiness::Blocked | Readiness::Busy => {
                let again = readiness == Readiness::Busy;
                socket
                    .watch(registry, at, Interest::READABLE, again)
                    .is_ok()
            }
        };
        if !goes_on {
            self.free(at);
        }
    }
}

fn is_refusing(status: StatusCode) -> bool {
    status.is_client_error() || status.is_server_error()
}
