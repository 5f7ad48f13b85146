//! Readers that are read to their end, up to a limit.
use crate::tests::devices::GivesOne;
use crate::tests::facts::ensure;
use reg_source::bounded::read_up_to;
use reg_source::unpublished::Unpublished;
use std::alloc::Global;
use std::test::Fail;

const BYTES: &[u8] = b"0123456789";

// What is read of a reader of these bytes, which then ends, or fails, or goes on for ever.
fn read_of(
    alloc: Global,
    bytes: &[u8],
    most: usize,
    fails: bool,
    repeats: bool,
) -> Result<Vec<u8>, Unpublished> {
    let mut reader = GivesOne {
        bytes,
        fails,
        repeats,
        reads: 0,
    };
    read_up_to(alloc, most, &mut reader)
}

#[test]
fn readers_are_read_up_to_a_limit(rt: HostRuntime) -> Result<(), Fail> {
    let alloc = rt.alloc();
    for count in 0..=BYTES.len() {
        let given = &BYTES[..count];
        let Ok(read) = read_of(alloc, given, count, false, false) else {
            return Err("not read".into());
        };
        ensure(read.as_slice() == given, "all that may be read")?;
        let Ok(read) = read_of(alloc, given, usize::MAX, false, false) else {
            return Err("not read".into());
        };
        ensure(read.as_slice() == given, "all")?;
        let failed = read_of(alloc, given, 1000, true, false);
        ensure(
            matches!(failed, Err(Unpublished::Read)),
            "a read that fails",
        )?;
        let large = read_of(alloc, BYTES, count, false, false);
        let is_large = matches!(large, Err(Unpublished::Large));
        ensure(is_large == (count < BYTES.len()), "what is too large")?;
    }
    let endless = read_of(alloc, BYTES, 1000, false, true);
    ensure(matches!(endless, Err(Unpublished::Large)), "without end")
}
