//! A site that is published again by a source that fails at each question in turn: what is there stays, and the job
//! ends with the fault of each reason.
ghost use Rattle.reg_core.specs.View.{published as shown};
ghost use Rattle.reg_core.specs.World.{empty_world};

use crate::tests::exercise::{Exercise, opened, over_lists};
use crate::tests::facts::ensure;
use crate::tests::folders::folder_for;
use reg_core::command::PublicCommand;
use reg_core::refusal::Refusal;
use reg_core::told::Told;
use reg_keeper::keeper::Keeper;
use reg_office::Office;
use reg_program::console::Console;
use reg_program::faults::{JobFailure, Undone};
use reg_program::publishing::{Directories, publish_in};
use reg_source::source::Source;
use reg_source::unpublished::Unpublished;
use std::test::Fail;
use std::{fs, io};

// 2025-02-19T21:20:00Z: of the values in `bits` one has expired, and the other has not.
const MOMENT: u64 = 1_740_000_000;

// 2025-08-01T00:00:00Z: both have expired.
const LATER: u64 = 1_754_006_400;

// Three registries: of values for a year, of a value whose texts look like markup, and of none; a
// pool; and a block of each size, whose first holder is private.
const LINES: &str = r#"
> 1700000000 clerk-token-00001 PUT /desk/tokens {"account":"alice","kind":"applicant","token":"alice-token-00001","until":4000000000}
> 1700000000 clerk-token-00001 PUT /desk/registries/none/4294967295 lo,hi,treatment,note|0,4294967295,specification-required,|
> 1700000000 clerk-token-00001 PUT /desk/registries/codes/255 lo,hi,treatment,note|0,99,first-come-first-served,|100,199,private-use,by & by|200,255,reserved,</ul><b>'kept'</b>|
> 1700000000 clerk-token-00001 PUT /desk/registries/bits/9 lo,hi,treatment,note|0,9,standards-action,|
> 1700000000 alice-token-00001 PUT /requests/c-1 {"contact":"Alice","kind":"code","label":"</td><script>'x' & \"y\"","registry":"codes","value":64}
> 1700000000 clerk-token-00001 PUT /desk/approve/alice/c-1
> 1700000000 alice-token-00001 PUT /requests/e-1 {"chair":"wg","director":"ad","draft":"draft-x-00","interest":true,"kind":"early","label":"One","registry":"bits","stable":true,"value":1}
> 1700000000 clerk-token-00001 PUT /desk/approve/alice/e-1
> 1720000000 alice-token-00001 PUT /requests/e-2 {"chair":"wg","director":"ad","draft":"draft-x-00","interest":true,"kind":"early","label":"Two","registry":"bits","stable":true,"value":2}
> 1720000000 clerk-token-00001 PUT /desk/approve/alice/e-2
> 1720000000 clerk-token-00001 PUT /desk/pool/001A2B
> 1720000000 clerk-token-00001 PUT /desk/pool/8C1F64
> 1720000000 alice-token-00001 PUT /requests/m-1 {"address":"Nowhere","kind":"block","organization":"Hidden","size":"MA-M"}
> 1720000000 clerk-token-00001 PUT /desk/approve/alice/m-1
> 1720000000 alice-token-00001 PUT /requests/s-1 {"address":"1 'Road', <Town>","kind":"block","organization":"Big & \"Co\"","size":"MA-S"}
> 1720000000 clerk-token-00001 PUT /desk/approve/alice/s-1
> 1720000000 alice-token-00001 PUT /requests/l-1 {"address":"2 Road","kind":"block","organization":"Large","size":"MA-L"}
> 1720000000 clerk-token-00001 PUT /desk/approve/alice/l-1
> 1720000000 alice-token-00001 PUT /holdings/001A2B0 {"private":true}
"#;

const LINE: &[u8] = b"published 3 registries, 3 entries, 3 blocks\n";

// The first and the last file of its site, and others of which the pages of `bits` and the index are other ones later.
const FILES: &str =
    "changes.csv registries/bits.html registries/bits.json pool.json index.html SHA256SUMS";

/// An office that answers so many questions, and then fails for this reason, or tells what was not
/// asked for.
#[derive(Drop)]
struct Faulty<K: Keeper> {
    office: Office<K>,
    asks: usize,
    why: Option<Unpublished>,
}

impl<K: Keeper> Source for Faulty<K> {
    ghost published = { λ _. shown empty_world };

    ghost Holds = { λ _. ⊥ };

    fn ask(&mut self, moment: u64, command: &PublicCommand) -> Result<Told, Unpublished> {
        if self.asks > 0 {
            self.asks -= 1;
            return self.office.ask(moment, command);
        }
        match self.why {
            Some(why) => Err(why),
            None => Ok(Told::Revoked),
        }
    }
}

// What publishing gives: what is printed, or why it was not done.
fn published<K: Keeper>(
    rt: &HostRuntime,
    source: &mut Faulty<K>,
    moment: u64,
    folder: &str,
) -> Result<Vec<u8>, Undone> {
    let mut output = Vec::new(rt.alloc());
    let mut errors = Vec::new(rt.alloc());
    let mut console = Console {
        input: &mut io::empty(),
        output: &mut output,
        errors: &mut errors,
    };
    let folders = Directories { rt };
    publish_in(
        rt.alloc(),
        &folders,
        source,
        moment,
        folder,
        None,
        &mut console,
    )?;
    Ok(output)
}

// The bytes of these files of a folder, one after the other.
fn bytes_in(rt: &HostRuntime, folder: &str) -> Result<Vec<u8>, Fail> {
    let mut all = Vec::new(rt.alloc());
    for file in FILES.split(' ') {
        let place = format!(in rt.alloc(); "{folder}/{file}")?;
        all.extend_from_slice(fs::read(rt, place.as_str())?.as_slice())?;
    }
    Ok(all)
}

// How often a source is asked: for the names, for each registry, for the blocks and for the pool. Nothing
// is published before all of this is told.
const ASKS: usize = 6;

// For this reason the job ends with this fault, or else it is refused.
fn assert_each_ask<K: Keeper>(
    rt: &HostRuntime,
    source: &mut Faulty<K>,
    folder: &str,
    why: Option<Unpublished>,
    wanted: Option<JobFailure>,
) -> Result<(), Fail> {
    source.why = why;
    for asks in 0..ASKS {
        source.asks = asks;
        let is_so = match published(rt, source, LATER, folder) {
            Err(Undone::Fault(failure)) => wanted == Some(failure),
            Err(Undone::Refused(line)) => {
                wanted.is_none() && line.as_slice() == b"503 {\"error\":\"clock\"}".as_slice()
            }
            Err(Undone::Explained(_failure, _text)) => false,
            Ok(_output) => false,
        };
        ensure(is_so, "a fault")?;
    }
    Ok(())
}

fn assert_all<K: Keeper>(rt: &HostRuntime, source: &mut Faulty<K>) -> Result<(), Fail> {
    let folder = folder_for(rt, "faults")?;
    let folder = folder.as_str();
    let Ok(line) = published(rt, source, MOMENT, folder) else {
        return Err("not published".into());
    };
    ensure(line.as_slice() == LINE, "what is printed")?;
    let before = bytes_in(rt, folder)?;
    for (why, wanted) in [
        (Some(Unpublished::Memory), Some(JobFailure::Memory)),
        (Some(Unpublished::Store), Some(JobFailure::Store)),
        (Some(Unpublished::Large), Some(JobFailure::Large)),
        (Some(Unpublished::Read), Some(JobFailure::Read)),
        (Some(Unpublished::Write), Some(JobFailure::Write)),
        (Some(Unpublished::Refused(Refusal::Clock)), None),
        (None, Some(JobFailure::Read)),
    ] {
        assert_each_ask(rt, source, folder, why, wanted)?;
    }
    ensure(bytes_in(rt, folder)? == before, "what is there")?;
    Ok(fs::remove_dir_all(rt, folder)?)
}

/// A source that fails.
#[derive(Drop)]
struct FailingSource;

impl Exercise for FailingSource {
    fn done<K: Keeper + Drop>(self, rt: &HostRuntime, keeper: K) -> Result<String, Fail> {
        let mut source = Faulty {
            office: opened(rt, keeper, LINES)?,
            asks: ASKS,
            why: None,
        };
        let done = assert_all(rt, &mut source);
        drop(source);
        done?;
        Ok(String::new(rt.alloc()))
    }
}

#[test]
fn a_source_that_fails_at_each_ask(rt: HostRuntime) -> Result<(), Fail> {
    over_lists(&rt, FailingSource)?;
    Ok(())
}
