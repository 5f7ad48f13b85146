//! Requests that come in pieces, break off or fail on their way, and answers that do.
use crate::tests::devices::{FailsAfter, GivesOne};
use crate::tests::exercise::{Exercise, opened, over_lists};
use crate::tests::facts::ensure;
use reg_keeper::keeper::Keeper;
use reg_office::Office;
use reg_wire::serving::serve_one;
use reg_wire::wire_fault::WireFault;
use std::test::Fail;

// The moment of all requests.
const MOMENT: u64 = 1_700_000_000;

// An applicant and a registry.
const LINES: &str = r#"
> 1700000000 clerk-token-00001 PUT /desk/tokens {"account":"alice","kind":"applicant","token":"alice-token-00001","until":1800000000}
> 1700000000 clerk-token-00001 PUT /desk/registries/flags/255 lo,hi,treatment,note|0,63,standards-action,|64,191,first-come-first-served,|192,255,reserved,|
"#;

// A submission of alice's.
const SUBMISSION: &[u8] =
    b"PUT /requests/w-1 HTTP/1.1\r\nHost: x\r\nAuthorization: Bearer alice-token-00001\r\nContent-Type: application/json\r\nContent-Length: 71\r\n\r\n{\"contact\":\"c\",\"kind\":\"code\",\"label\":\"W\",\"registry\":\"flags\",\"value\":80}";

// How many bytes of the submission its head is.
const SUBMISSION_HEAD: usize = 132;

// The answer to the submission when it comes first.
const MADE: &[u8] =
    b"HTTP/1.1 201 Created\r\nContent-Type: application/json\r\nContent-Length: 115\r\nConnection: close\r\n\r\n{\"ask\":{\"contact\":\"c\",\"kind\":\"code\",\"label\":\"W\",\"registry\":\"flags\",\"value\":80},\"reference\":\"w-1\",\"state\":\"pending\"}";

// The answer to it when it comes again.
const THERE: &[u8] =
    b"HTTP/1.1 200 OK\r\nContent-Type: application/json\r\nContent-Length: 115\r\nConnection: close\r\n\r\n{\"ask\":{\"contact\":\"c\",\"kind\":\"code\",\"label\":\"W\",\"registry\":\"flags\",\"value\":80},\"reference\":\"w-1\",\"state\":\"pending\"}";

// The answer to bytes that end within the body.
const SHORT: &[u8] =
    b"HTTP/1.1 400 Bad Request\r\nContent-Type: application/json\r\nContent-Length: 17\r\nConnection: close\r\n\r\n{\"error\":\"short\"}";

// The answer to bytes that have no head.
const HEAD: &[u8] =
    b"HTTP/1.1 400 Bad Request\r\nContent-Type: application/json\r\nContent-Length: 16\r\nConnection: close\r\n\r\n{\"error\":\"head\"}";

/// A request that comes a byte a read, and what becomes of it.
#[derive(Clone, Copy)]
struct Exchange<'a> {
    sent: &'a [u8],
    /// After its bytes a read fails.
    fails: bool,
    /// So many bytes of the answer are taken, at most so many a write, and then a write fails.
    room: usize,
    most: usize,
    status: Result<u16, WireFault>,
    /// What goes out, and by how many reads.
    taken: &'a [u8],
    reads: usize,
}

// These bytes are answered whole, with this status.
fn answered<'a>(sent: &'a [u8], status: u16, taken: &'a [u8]) -> Exchange<'a> {
    Exchange {
        sent,
        fails: false,
        room: usize::MAX,
        most: usize::MAX,
        status: Ok(status),
        taken,
        reads: sent.len(),
    }
}

/// Requests to an office with an applicant and a registry, in turn.
#[derive(Clone, Copy)]
struct Exchanges<'a> {
    exchanges: &'a [Exchange<'a>],
}

impl Exercise for Exchanges<'_> {
    fn done<K: Keeper + Drop>(self, rt: &HostRuntime, keeper: K) -> Result<String, Fail> {
        let mut office = opened(rt, keeper, LINES)?;
        for exchange in self.exchanges {
            assert_exchange(rt, &mut office, exchange)?;
        }
        Ok(String::new(rt.alloc()))
    }
}

fn assert_exchange<K: Keeper>(
    rt: &HostRuntime,
    office: &mut Office<K>,
    exchange: &Exchange<'_>,
) -> Result<(), Fail> {
    let alloc = rt.alloc();
    let mut reader = GivesOne {
        bytes: exchange.sent,
        fails: exchange.fails,
        repeats: false,
        reads: 0,
    };
    let mut writer = FailsAfter {
        taken: Vec::new(alloc),
        room: exchange.room,
        most: exchange.most,
        writes: 0,
    };
    let status = serve_one(alloc, office, MOMENT, &mut reader, &mut writer);
    ensure(status == exchange.status, "the status")?;
    ensure(writer.taken.as_slice() == exchange.taken, "what goes out")?;
    ensure(reader.reads == exchange.reads, "how many reads")?;
    let is_whole = exchange.most == usize::MAX && !exchange.taken.is_empty();
    ensure(!is_whole || writer.writes == 1, "one write")
}

// The submission breaks off before each byte, and a read fails there: nothing is submitted. Then it comes whole.
#[test]
fn what_breaks_off_or_fails_before_each_byte(rt: HostRuntime) -> Result<(), Fail> {
    let mut exchanges = Vec::new(rt.alloc());
    for count in 0..SUBMISSION.len() {
        let sent = &SUBMISSION[..count];
        let wanted = if count < SUBMISSION_HEAD { HEAD } else { SHORT };
        let short = Exchange {
            reads: count + 1,
            ..answered(sent, 400, wanted)
        };
        exchanges.push(short)?;
        let unread = Exchange {
            fails: true,
            status: Err(WireFault::Read),
            taken: b"",
            ..short
        };
        exchanges.push(unread)?;
    }
    exchanges.push(answered(SUBMISSION, 201, MADE))?;
    let exchanges = exchanges.as_slice();
    over_lists(&rt, Exchanges { exchanges })?;
    Ok(())
}

// Of the answer to the submission so much goes out, and then it is there.
#[test]
fn a_write_that_fails_after_each_byte(rt: HostRuntime) -> Result<(), Fail> {
    for room in 0..MADE.len() {
        let cut = Exchange {
            room,
            most: 7,
            status: Err(WireFault::Write(room)),
            ..answered(SUBMISSION, 201, &MADE[..room])
        };
        let exchanges = [cut, answered(SUBMISSION, 200, THERE)];
        let exchanges = exchanges.as_slice();
        over_lists(&rt, Exchanges { exchanges })?;
    }
    Ok(())
}

const BEGIN: &[u8] = b"PUT /registries HTTP/1.1\r\nContent-Length: 65536\r\nX: ";

const METHOD: &[u8] =
    b"HTTP/1.1 405 Method Not Allowed\r\nContent-Type: application/json\r\nContent-Length: 18\r\nConnection: close\r\n\r\n{\"error\":\"method\"}";

// A head of 8,192 bytes with a body of 65,536.
#[test]
fn the_longest_request(rt: HostRuntime) -> Result<(), Fail> {
    let mut bytes = BEGIN.to_vec(rt.alloc())?;
    for count in BEGIN.len()..73_728 {
        match count {
            8188 => bytes.extend_from_slice(b"\r\n\r\n")?,
            8189 | 8190 | 8191 => {}
            _ => bytes.push(b'x')?,
        }
    }
    let exchanges = [answered(bytes.as_slice(), 405, METHOD)];
    let exchanges = exchanges.as_slice();
    over_lists(&rt, Exchanges { exchanges })?;
    Ok(())
}
