//! The requests that wait, in the order in which they came.
ghost use Rattle.std.specs.Prelude.{◌≡◌, IfOk, map};
ghost use Rattle.reg_core.specs.Arrivals.{waiting_list};
ghost use Rattle.reg_keeper.specs.Keeper.{Selects};
ghost use Rattle.reg_registers.specs.Arrivals.{arrived_in};

use crate::gathering::with_row;
use reg_core::case_file::{CaseFile, WaitingFile};
use reg_core::rows::Rows;
use reg_keeper::keeper::{Fault, Keeper};
use std::alloc::{AllocError, Global};

/// A request that waits, with the number of the last act by which it came.
#[derive(Drop)]
pub struct Arrived {
    pub number: u64,
    pub waiting: WaitingFile,
}

/// The requests that wait, with their experts and all advice on them, and with the moments at which
/// they came, in the order in which they came.
pub fn waiting<K: Keeper>(alloc: Global, keeper: &mut K) -> Result<Rows<WaitingFile>, Fault>
    ensures { Selects K.world K.Holds K.Sound K.FAILS keeper.old keeper.new result
        (λ w files. files ≡ waiting_list w) }
{
    let files = keeper.pending()?.into_vec();
    let mut arrived = arrived_each(alloc, keeper, files)?;
    arrived.sort_by_key(|one| {
        let request = &one.waiting.file.request;
        (one.number, (request.account, request.reference))
    })?;
    Ok(Rows::from_vec(files_of(alloc, arrived)?))
}

// Requests with the numbers and the moments of their arrivals, looked up one by one.
fn arrived_each<K: Keeper>(
    alloc: Global,
    keeper: &mut K,
    files: Vec<CaseFile>,
) -> Result<Vec<Arrived>, Fault>
    ensures { Selects K.world K.Holds K.Sound K.FAILS keeper.old keeper.new result
        (λ w arrived. arrived.items ≡ map (arrived_in w) files.items) }
{
    let mut arrived = Vec::new(alloc);
    for file in files {
        let one = arrived_one(keeper, file)?;
        arrived = with_row(arrived, one)?;
    }
    Ok(arrived)
}

// A request with the number and the moment of its arrival.
fn arrived_one<K: Keeper>(keeper: &mut K, file: CaseFile) -> Result<Arrived, Fault>
    ensures { Selects K.world K.Holds K.Sound K.FAILS keeper.old keeper.new result
        (λ w one. one ≡ arrived_in w file) }
{
    match keeper.arrival(&file.request.account, &file.request.reference) {
        Ok(arrival) => Ok(Arrived {
            number: arrival.number,
            waiting: WaitingFile {
                submitted: arrival.moment,
                file,
            },
        }),
        Err(fault) => {
            drop(file);
            Err(fault)
        }
    }
}

// The files of these, in their order.
fn files_of(alloc: Global, arrived: Vec<Arrived>) -> Result<Vec<WaitingFile>, AllocError>
    ensures { IfOk result (λ files. files.items ≡ map (λ one. one.waiting) arrived.items) }
{
    arrived.into_iter().map(|one| one.waiting).collect(alloc)
}
