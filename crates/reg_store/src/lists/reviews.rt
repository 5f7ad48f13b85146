//! Requests, the experts to whom they are assigned and the advice on them, by request and by
//! expert.
ghost use Rattle.std.specs.Prelude.{◌≡◌, ℕ, List, None, false, IfOk, OnOk, OnErr, option_map};
ghost use Rattle.std.specs.FinMap as fin;
ghost use Rattle.reg_maps.specs.Maps.{text_cmp};
ghost use Rattle.reg_maps.specs.Groups.{pair_map};
ghost use Rattle.reg_core.specs.File.{file as file_of, waiting_files};
ghost use Rattle.reg_core.specs.Queue.{queue_row as queue_row_of, queue_rows};
ghost use Rattle.reg_core.specs.View.{queue_of};
ghost use Rattle.reg_core.specs.World.{name_cmp, empty_world, applied, with_state};
ghost use Rattle.reg_core.specs.declared.change.Change.TheVariants.{Submit, Assign, Advise};
ghost use Rattle.reg_store.specs.Lists.File.{review_world};
ghost use Rattle.reg_store.specs.Lists.Panels.{seats};
ghost use Rattle.reg_store.specs.Lists.Queues.{AreInStep, all_queues, row_for};

use crate::groups::{list_group, put_row, row_in, take_row};
use crate::lists::file::{file_in, waiting_in};
use crate::lists::opinions::{Opinions, advice_in};
use crate::lists::panels::Panels;
use crate::lists::queues::{Queues, queued_in, set_advice, set_words};
use crate::lists::requests::{RequestName, Requests, set_state};
use reg_core::advice::Advice;
use reg_core::ask::Ask;
use reg_core::case_file::CaseFile;
use reg_core::queue::QueueRow;
use reg_core::request::{Case, State};
use reg_core::rows::Rows;
use reg_core::text::{Account, Ref};
use std::alloc::{AllocError, Global};
use std::collections::BTreeMap;

/// Requests, the experts to whom they are assigned and the advice on them, by request; and, once
/// more, by expert, what is assigned to each as the expert sees it. So no row of a queue is looked
/// up among the requests.
#[derive(Drop)]
pub struct Reviews {
    requests: Requests,
    panels: Panels,
    opinions: Opinions,
    queues: Queues,
    ghost in_step: { AreInStep (review_world requests panels opinions) (all_queues queues) },
}

impl Reviews {
    ghost use Rattle.reg_store.specs.Lists.Reviews.{world_of};

    /// No request.
    pub fn new(alloc: Global) -> Self
        ensures { world_of result ≡ empty_world }
    {
        Reviews {
            requests: BTreeMap::new(alloc),
            panels: BTreeMap::new(alloc),
            opinions: BTreeMap::new(alloc),
            queues: BTreeMap::new(alloc),
        }
    }

    /// All requests.
    pub fn requests(&self) -> &Requests
        ensures { result.now ≡ self.now.requests }
    {
        &self.requests
    }

    /// The request of an account under a reference, with its experts and all advice on it.
    pub fn file(
        &self,
        alloc: Global,
        account: &Account,
        reference: &Ref,
    ) -> Result<Option<CaseFile>, AllocError>
        ensures { IfOk result (λ file. file ≡
            option_map (file_of (world_of self.now) (account.now, reference.now))
            (fin.get (world_of self.now).requests (account.now, reference.now))) }
    {
        file_in(
            alloc,
            &self.requests,
            &self.panels,
            &self.opinions,
            account,
            reference,
        )
    }

    /// The requests that wait, with their experts and all advice on them, by account and then by
    /// reference.
    pub fn waiting(&self, alloc: Global) -> Result<Rows<CaseFile>, AllocError>
        ensures { IfOk result (λ files. files ≡ waiting_files (world_of self.now)) }
    {
        waiting_in(alloc, &self.requests, &self.panels, &self.opinions)
    }

    /// All requests that are assigned to an expert, by account and then by reference.
    pub fn queue(&self, alloc: Global, expert: &Account) -> Result<Rows<QueueRow>, AllocError>
        ensures { IfOk result (λ rows. rows
            ≡ queue_rows (queue_of expert.now (world_of self.now))) }
    {
        Ok(Rows::from_vec(list_group(alloc, &self.queues, expert, |_, row| row.copy())?))
    }

    /// The request of an account under a reference, if it is assigned to an expert.
    pub fn queue_one(
        &self,
        expert: &Account,
        account: &Account,
        reference: &Ref,
    ) -> Result<Option<QueueRow>, AllocError>
        ensures { IfOk result (λ row. row ≡ option_map (queue_row_of (account.now, reference.now))
            (fin.get (queue_of expert.now (world_of self.now)) (account.now, reference.now))) }
    {
        let name = (*account, *reference);
        queued_in(&self.queues, expert, &name)
    }

    /// Adds a pending request.
    pub fn submit(
        &mut self,
        alloc: Global,
        account: Account,
        reference: Ref,
        ask: Ask,
    ) -> Result<(), AllocError>
        requires { (expert : List ℕ) →
            fin.contains_key (world_of self.old).queue ((account, reference), expert) ≡ false }
        ensures ok { OnOk result (world_of self.new ≡
            applied (world_of self.old) (Submit account reference ask)) }
        ensures err { OnErr result (world_of self.new ≡ world_of self.old) }
    {
        let case = Case {
            ask,
            state: State::Pending,
        };
        put_row(alloc, &mut self.requests, account, reference, case)
    }

    /// Puts the request of an account under a reference in a state, if it is there.
    pub fn set_state(&mut self, account: Account, reference: Ref, state: State)
        ensures { world_of self.new ≡ with_state (world_of self.old) (account, reference) state }
    {
        let name = (account, reference);
        set_words(&mut self.queues, &self.panels, &name, state.word());
        set_state(&mut self.requests, &name.0, &name.1, state);
    }

    /// Assigns a request to an expert.
    pub fn assign(
        &mut self,
        alloc: Global,
        name: RequestName,
        expert: Account,
    ) -> Result<(), AllocError>
        ensures ok { OnOk result (world_of self.new ≡
            applied (world_of self.old) (Assign name.0 name.1 expert)) }
        ensures err { OnErr result (world_of self.new ≡ world_of self.old) }
    {
        match row_to_queue(&self.requests, &self.opinions, &expert, &name)? {
            Some(row) => put_seat(
                alloc,
                &mut self.panels,
                &mut self.queues,
                &name,
                &expert,
                row,
            ),
            // what is not there is in no queue
            None => put_row(alloc, &mut self.panels, name, expert, ()),
        }
    }

    /// Adds an expert's advice on a request, or replaces the one that the expert gave before.
    pub fn advise(
        &mut self,
        alloc: Global,
        name: RequestName,
        expert: Account,
        advice: Advice,
    ) -> Result<(), AllocError>
        ensures ok { OnOk result (world_of self.new ≡
            applied (world_of self.old) (Advise name.0 name.1 expert advice)) }
        ensures err { OnErr result (world_of self.new ≡ world_of self.old) }
    {
        put_row(alloc, &mut self.opinions, name, expert, advice.copy()?)?;
        set_advice(&mut self.queues, &expert, &name, advice);
        Ok(())
    }
}

// The row of a request, if there is one of this name, for the queue of an expert.
fn row_to_queue(
    requests: &Requests,
    opinions: &Opinions,
    expert: &Account,
    name: &RequestName,
) -> Result<Option<QueueRow>, AllocError>
    ensures { IfOk result (λ row. row ≡ row_for (pair_map text_cmp text_cmp requests.now)
        (pair_map name_cmp text_cmp opinions.now) expert.now name.now) }
{
    match row_in(requests, &name.0, &name.1) {
        Some(case) => Ok(Some(QueueRow {
            account: name.0,
            reference: name.1,
            ask: case.ask.copy()?,
            word: case.state.word(),
            advice: advice_in(opinions, name, expert)?,
        })),
        None => Ok(None),
    }
}

// Into both orders, or, where there is no memory for the second, into none.
fn put_seat(
    alloc: Global,
    panels: &mut Panels,
    queues: &mut Queues,
    name: &RequestName,
    expert: &Account,
    row: QueueRow,
) -> Result<(), AllocError>
    requires { fin.get (seats panels.old) (name.now, expert.now) ≡ None
        → fin.get (all_queues queues.old) (expert.now, name.now) ≡ None }
    ensures seats { OnOk result (seats panels.new
        ≡ fin.insert (seats panels.old) (name.now, expert.now) tt) }
    ensures rows { OnOk result (all_queues queues.new ≡
        fin.insert (all_queues queues.old) (expert.now, name.now) row) }
    ensures same_seats { OnErr result (seats panels.new ≡ seats panels.old) }
    ensures same_rows { OnErr result (all_queues queues.new ≡ all_queues queues.old) }
{
    put_row(alloc, queues, *expert, *name, row)?;
    match put_row(alloc, panels, *name, *expert, ()) {
        Ok(()) => Ok(()),
        Err(error) => {
            take_row(queues, expert, name);
            Err(error)
        }
    }
}
