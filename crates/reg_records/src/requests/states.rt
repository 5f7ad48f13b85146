//! Where the requests in rows stand.
ghost use Rattle.std.specs.Prelude.{◌≡◌, IfOk};
ghost use Rattle.sqlite.specs.Order.{column};
ghost use Rattle.reg_records.specs.Columns.{read_in};
ghost use Rattle.reg_records.specs.Requests.Reading.{approved_in, declined_in, read_given, state_in, written_block};

use crate::column;
use crate::column::are_null;
use crate::record::in_form;
use crate::requests::{COUNT, GIVEN, REASON, STATE};
use reg_blocks::block::Block;
use reg_core::ask::Ask;
use reg_core::request::{Given, State, StateWord};
use reg_ranges::number::read_number;
use sqlite::Row;
use std::alloc::{AllocError, Global};

/// Where the request of a row stands that asks for this.
#[tactic(auto, unfolding(crate::specs::Requests::Reading::state_in))]
pub(crate) fn state(alloc: Global, row: &Row, ask: &Ask) -> Result<Option<State>, AllocError>
    ensures { IfOk result (λ state. state ≡ state_in ask.now row.now) }
{
    let word = in_form!(column::word(row, STATE));
    match word {
        StateWord::Pending => Ok(are_null(row, GIVEN..COUNT).then_some(State::Pending)),
        StateWord::Approved => approved(alloc, row, ask),
        StateWord::Declined => declined(alloc, row),
        StateWord::Withdrawn => Ok(are_null(row, GIVEN..COUNT).then_some(State::Withdrawn)),
    }
}

// The state of an approved request, which has no reason.
fn approved(alloc: Global, row: &Row, ask: &Ask) -> Result<Option<State>, AllocError>
    ensures { IfOk result (λ state. state ≡ approved_in ask.now row.now) }
{
    if !are_null(row, REASON..COUNT) {
        return Ok(None);
    }
    Ok(given(alloc, row, ask)?.map(State::Approved))
}

// The state of a declined request, which was given nothing.
fn declined(alloc: Global, row: &Row) -> Result<Option<State>, AllocError>
    ensures { IfOk result (λ state. state ≡ declined_in row.now) }
{
    if !are_null(row, GIVEN..REASON) {
        return Ok(None);
    }
    Ok(column::printable(alloc, row, REASON)?.map(State::Declined))
}

fn given(alloc: Global, row: &Row, ask: &Ask) -> Result<Option<Given>, AllocError>
    ensures { IfOk result
        (λ given. given ≡ read_in (read_given ask.now) (column row.now GIVEN)) }
{
    let text = in_form!(column::text(row, GIVEN));
    match ask {
        Ask::Block(_) => Ok(written_block(alloc, text)?.map(Given::Block)),
        Ask::Code(_) | Ask::Early(_) | Ask::Renew(_) | Ask::Permanent(_) => {
            Ok(read_number(text).map(Given::Value))
        }
    }
}

// The block whose text this is, also in the case of its letters.
fn written_block(alloc: Global, text: &[u8]) -> Result<Option<Block>, AllocError>
    ensures { IfOk result (λ block. block ≡ written_block text.now) }
{
    let block = in_form!(Block::read(text));
    if block.text(alloc)?.as_bytes() == text {
        Ok(Some(block))
    } else {
        Ok(None)
    }
}
