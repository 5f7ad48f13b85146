//! The lines of a log say why an answer has status 503.
use crate::tests::facts::ensure;
use http::StatusCode;
use reg_http::log::LineLog;
use reg_keeper::keeper::Fault;
use reg_program::log::Lines;
use reg_wire::log::{Log, Sent};
use std::str;
use std::test::Fail;

// The lines of five connections: of which the store fails, memory lacks, the clock is wrong and nothing is, and one that
// is dropped.
const LINES: &str = "1970-01-01T00:00:01Z - - 503 19 store
1970-01-01T00:00:02Z - - 503 19 memory
1970-01-01T00:00:03Z - - 503 17 clock
1970-01-01T00:00:04Z - - 200 2
1970-01-01T00:00:05Z - - dropped
";

#[test]
fn reasons_of_503(rt: HostRuntime) -> Result<(), Fail> {
    let mut text = Vec::new(rt.alloc());
    let mut lines = Lines::new(rt.alloc(), &mut text);
    for (moment, fault, answered) in [
        (1, Some(Fault::Store), Some((503, 19))),
        (2, Some(Fault::Memory), Some((503, 19))),
        (3, None, Some((503, 17))),
        (4, None, Some((200, 2))),
        (5, Some(Fault::Store), None),
    ] {
        if let Some(fault) = fault {
            lines.failed(fault);
        }
        let sent = match answered {
            Some((code, body)) => match StatusCode::from_u16(code) {
                Ok(status) => Some(Sent { status, body }),
                Err(_) => None,
            },
            None => None,
        };
        let line = lines.line(rt.alloc(), moment, sent);
        lines.told(line);
    }
    drop(lines);
    ensure(str::from_utf8(text.as_slice())? == LINES, "the lines")
}
