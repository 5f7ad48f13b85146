//! A listener on loopback, in front of which something has no memory at first.
use crate::tests::exercise::{CLERK, Exercise, over_lists};
use crate::tests::facts::ensure;
use reg_http::dates::ClockDates;
use reg_http::front::{Front, FrontAnswer};
use reg_http::listener::serve_listener;
use reg_http::peers::Peers;
use reg_http::tcp::peers_at;
use reg_keeper::keeper::Keeper;
use reg_office::Office;
use reg_parse::route::Routes;
use reg_wire::log::Unlogged;
use std::alloc::{AllocError, Global};
use std::io::{Read, Write};
use std::net::{Ipv4Addr, SocketAddr, TcpListener, TcpStream};
use std::test::Fail;
use std::time::Duration;

const ASKS: &[u8] = b"GET /registries HTTP/1.1\r\nHost: x\r\n\r\n";

const ANSWER: &[u8] =
    b"HTTP/1.1 200 OK\r\nContent-Type: application/json\r\nContent-Length: 2\r\nConnection: close\r\n\r\n[]";

const STORAGE: &[u8] = b"\r\n\r\n{\"error\":\"storage\"}";

/// A front that has no memory for the first request, and nothing for others.
#[derive(Drop)]
struct Short {
    is_first: bool,
}

impl Front for Short {
    type Content = &'static [u8];

    fn answer(
        &mut self,
        _alloc: Global,
        _request: &[u8],
    ) -> Result<Option<FrontAnswer<&'static [u8]>>, AllocError> {
        if self.is_first {
            self.is_first = false;
            return Err(AllocError);
        }
        Ok(None)
    }
}

/// Two connections, one after the other.
#[derive(Drop)]
struct TwoPeers;

impl Exercise for TwoPeers {
    fn done<K: Keeper + Drop>(self, rt: &HostRuntime, keeper: K) -> Result<String, Fail> {
        let mut office = Office::new(rt.alloc(), keeper);
        office.found(CLERK)?;
        assert_two(rt, &mut office)?;
        Ok(String::new(rt.alloc()))
    }
}

// One client is told that there was no memory, and not what the office answers; the other is told that.
fn assert_two<K: Keeper + Drop>(rt: &HostRuntime, office: &mut Office<K>) -> Result<(), Fail> {
    let alloc = rt.alloc();
    let routes = Routes::new(alloc)?;
    let listener = TcpListener::bind(rt, SocketAddr::from((Ipv4Addr::LOCALHOST, 0)))?;
    let address = listener.local_addr()?;
    drop(listener);
    let patience = Duration::from_millis(2000);
    let front = Short { is_first: true };
    let mut peers = peers_at(rt, alloc, address, patience, 2, front)?;
    let mut first = TcpStream::connect(rt, address)?;
    first.write_all(ASKS)?;
    let mut second = TcpStream::connect(rt, address)?;
    second.write_all(ASKS)?;
    let mut dates = ClockDates { clock: rt };
    let log = &mut Unlogged;
    let done = serve_listener(alloc, &mut dates, office, &routes, &mut peers, 1, log);
    peers.finish(log);
    drop(peers);
    ensure(done.answered == 1, "the office answers one")?;
    let mut heard = Vec::new(alloc);
    first.read_to_end(&mut heard)?;
    let is_refused = heard.ends_with(STORAGE);
    ensure(is_refused || heard.as_slice() == ANSWER, "the first")?;
    heard.clear();
    second.read_to_end(&mut heard)?;
    let wanted = if is_refused { ANSWER } else { STORAGE };
    ensure(heard.ends_with(wanted), "the second")
}

#[test]
fn a_front_without_memory(rt: HostRuntime) -> Result<(), Fail> {
    over_lists(&rt, TwoPeers)?;
    Ok(())
}
