//! The laws of the rows of requests. Each function is its contract.
ghost use Rattle.reg_records.specs.Laws.{KeepsRows};
ghost use Rattle.reg_records.specs.Requests.Forms.{is_request};
ghost use Rattle.reg_records.specs.Requests.Laws.{KeptRequestsHaveRows, RequestsReadBare, RowsReadByTheirColumns, StatesAreReplaced};
ghost use Rattle.reg_records.specs.Requests.Reading.{request_columns, request_in};
ghost use Rattle.reg_records.specs.Requests.Values.{request_values};

/// What is written for a request reads as it, and a row that reads has exactly what is written for
/// what it reads as. A renewal reads as it without its minute, which is a row of its own.
#[tactic(auto, using(crate::proofs::RequestLaws::Rows::requests_kept, crate::proofs::RequestLaws::Rows::request_bare))]
pub fn requests_read_back()
    ensures kept { KeepsRows request_columns request_in request_values is_request }
    ensures bare { RequestsReadBare }
{}

/// The columns of the state alone put a request in another state.
#[tactic(auto, using(crate::proofs::RequestLaws::Rows::state_replaced))]
pub fn states_are_replaced()
    ensures { StatesAreReplaced }
{}

/// What a row has past the columns of the table does not count.
#[tactic(auto, using(crate::proofs::RequestLaws::Selected::request_in_columns))]
pub fn rows_read_by_their_columns()
    ensures { RowsReadByTheirColumns }
{}

/// Each request of a well kept world can be written without its minute, and reads back.
#[tactic(auto, using(crate::proofs::RequestLaws::Kept::kept_is_request))]
pub fn kept_requests_have_rows()
    ensures { KeptRequestsHaveRows }
{}
