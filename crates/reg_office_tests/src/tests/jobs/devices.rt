//! Scripts whose reader fails before a byte or never ends, and whose writer fails after a byte.
use crate::tests::devices::{FailsAfter, GivesOne};
use crate::tests::exercise::{CLERK, Exercise, over_lists};
use crate::tests::facts::ensure;
use reg_keeper::keeper::Keeper;
use reg_office::Office;
use reg_program::faults::{JobFailure, Undone};
use reg_program::scripts::found_and_run;
use std::alloc::{AllocError, Global};
use std::test::Fail;

const LINES: &str =
    "1700000000 - GET /requests\n1700000000 clerk-token-00001 PUT /desk/tokens {\"account\":\"alice\",\"kind\":\"applicant\",\"token\":\"alice-token-00001\",\"until\":1800000000}\n1700000000 alice-token-00001 GET /requests\n";

const ANSWERS: &str =
    "401 {\"error\":\"token\"}\n200 {\"account\":\"alice\",\"kind\":\"applicant\",\"until\":1800000000}\n200 []\n";

/// A script of a new office that is read and answered, and what it fails for.
#[derive(Drop)]
struct Script<'a, 'b> {
    reader: &'a mut GivesOne<'b>,
    writer: &'a mut FailsAfter,
    wanted: JobFailure,
}

impl Exercise for Script<'_, '_> {
    fn done<K: Keeper + Drop>(self, rt: &HostRuntime, keeper: K) -> Result<String, Fail> {
        let Script {
            reader,
            writer,
            wanted,
        } = self;
        let mut office = Office::new(rt.alloc(), keeper);
        let done = found_and_run(rt.alloc(), &mut office, CLERK, reader, writer);
        drop(office);
        let is_so = match done {
            Err(Undone::Fault(failure)) => failure == wanted,
            _ => false,
        };
        ensure(is_so, "a script that fails")?;
        Ok(String::new(rt.alloc()))
    }
}

// The answers to the lines whose line feed is among these bytes.
fn answers_to(alloc: Global, read: &[u8]) -> Result<Vec<u8>, AllocError> {
    let mut left = read.iter().filter(|byte| **byte == b'\n').count();
    let mut answers = Vec::new(alloc);
    for byte in ANSWERS.as_bytes() {
        if left == 0 {
            break;
        }
        if *byte == b'\n' {
            left -= 1;
        }
        answers.push(*byte)?;
    }
    Ok(answers)
}

// A writer with this room.
fn room_for(alloc: Global, room: usize) -> FailsAfter {
    FailsAfter {
        taken: Vec::new(alloc),
        room,
        most: 1,
        writes: 0,
    }
}

#[test]
fn a_read_that_fails_before_each_byte(rt: HostRuntime) -> Result<(), Fail> {
    for count in 0..=LINES.len() {
        let read = &LINES.as_bytes()[..count];
        let mut reader = GivesOne {
            bytes: read,
            fails: true,
            repeats: false,
            reads: 0,
        };
        let mut writer = room_for(rt.alloc(), usize::MAX);
        let script = Script {
            reader: &mut reader,
            writer: &mut writer,
            wanted: JobFailure::Read,
        };
        over_lists(&rt, script)?;
        let wanted = answers_to(rt.alloc(), read)?;
        ensure(writer.taken == wanted, "the answers to what was read")?;
    }
    Ok(())
}

#[test]
fn a_write_that_fails_after_each_byte(rt: HostRuntime) -> Result<(), Fail> {
    for room in 0..ANSWERS.len() {
        let mut reader = GivesOne {
            bytes: LINES.as_bytes(),
            fails: false,
            repeats: false,
            reads: 0,
        };
        let mut writer = room_for(rt.alloc(), room);
        let script = Script {
            reader: &mut reader,
            writer: &mut writer,
            wanted: JobFailure::Write,
        };
        over_lists(&rt, script)?;
        let wanted = &ANSWERS.as_bytes()[..room];
        ensure(writer.taken.as_slice() == wanted, "what was taken")?;
    }
    Ok(())
}

#[test]
fn a_reader_without_an_end(rt: HostRuntime) -> Result<(), Fail> {
    let mut reader = GivesOne {
        bytes: b"x",
        fails: false,
        repeats: true,
        reads: 0,
    };
    let mut writer = room_for(rt.alloc(), usize::MAX);
    let script = Script {
        reader: &mut reader,
        writer: &mut writer,
        wanted: JobFailure::Read,
    };
    over_lists(&rt, script)?;
    ensure(reader.reads == 16_777_216, "the reads that are made")?;
    ensure(writer.taken.is_empty(), "no answer")
}
