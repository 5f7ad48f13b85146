//! Requests by the experts to whom they are assigned, as these see them.
ghost use Rattle.std.specs.Prelude.{◌≡◌, is_some, IfOk};
ghost use Rattle.std.specs.BTreeMap as tree;
ghost use Rattle.std.specs.FinMap as fin;
ghost use Rattle.reg_maps.specs.Maps.{text_cmp, update};
ghost use Rattle.reg_store.specs.Lists.Panels.{seats};
ghost use Rattle.reg_store.specs.Lists.Queues.{AreWorded, all_queues, with_advice};

use crate::groups::{change_row, group_in, row_in};
use crate::lists::panels::{Panel, Panels};
use crate::lists::requests::RequestName;
use reg_core::advice::Advice;
use reg_core::queue::QueueRow;
use reg_core::request::StateWord;
use reg_core::text::Account;
use std::alloc::AllocError;
use std::collections::BTreeMap;

/// What is assigned to experts, by expert and then by request.
pub type Queues = BTreeMap<Account, BTreeMap<RequestName, QueueRow>>;

/// The row of a request in the queue of an expert.
pub fn queued_in(
    queues: &Queues,
    expert: &Account,
    name: &RequestName,
) -> Result<Option<QueueRow>, AllocError>
    ensures { IfOk result (λ row. row ≡ fin.get (all_queues queues.now) (expert.now, name.now)) }
{
    match row_in(queues, expert, name) {
        Some(row) => Ok(Some(row.copy()?)),
        None => Ok(None),
    }
}

/// Puts an expert's advice into the row of a request in the expert's queue, if it is there.
pub fn set_advice(queues: &mut Queues, expert: &Account, name: &RequestName, advice: Advice)
    ensures { all_queues queues.new
        ≡ update (all_queues queues.old) (expert.now, name.now) (with_advice advice) }
{
    change_row(queues, expert, name, |row| row.advice = Some(advice));
}

/// Puts the bare word of a request's state into its rows in the queues of its experts.
pub fn set_words(queues: &mut Queues, panels: &Panels, name: &RequestName, word: StateWord)
    ensures { AreWorded (λ e. fin.contains_key (seats panels.now) (name.now, e)) name.now word
        (all_queues queues.old) (all_queues queues.new) }
{
    if let Some(panel) = group_in(panels, name) {
        set_words_of(queues, panel, name, word);
    }
}

fn set_words_of(queues: &mut Queues, panel: &Panel, name: &RequestName, word: StateWord)
    ensures { AreWorded (λ e. is_some (tree.get text_cmp panel.now e)) name.now word
        (all_queues queues.old) (all_queues queues.new) }
{
    for expert in panel.keys() {
        change_row(queues, expert, name, |row| row.word = word);
    }
}
