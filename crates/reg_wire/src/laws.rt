//! Laws of calls and their answers, over their definitions, and of requests over HTTP, by those of
//! calls. Lines of scripts have theirs by those of calls too.
ghost use Rattle.reg_wire.specs.Laws.{AsksReadBack, CallsAreAnsweredAlike, CallsRunAsTheModel, UnseenCallsLeaveNoTrace};
ghost use Rattle.reg_wire.specs.RequestLaws.{RequestsAreAnsweredAlike, RequestsRunAsTheModel, RequestsStandSoFar, UnseenRequestsLeaveNoTrace};

pub use reg_head::laws::{bytes_ask_one_thing, readers_ask_by_all_their_bytes};
use reg_keeper::keeper::Keeper;
pub use reg_parse::laws::{commands_have_form, files_have_own_faults};
pub use reg_print::laws::rows_cover_ranges;

/// What is printed of an ask reads back as the same ask.
pub fn asks_read_back()
    ensures { AsksReadBack }
{}

/// The answers to calls are those of the model's run of the events among them, with the refusals of
/// the other calls between them, and so is the last world.
pub fn calls_run_as_the_model()
    ensures { CallsRunAsTheModel }
{}

/// Isolation, to the byte: two well kept offices that show the caller, who is no clerk, the same
/// view give its call the same answer, with the same status and bytes, and then show the caller the
/// same view again, whatever else they hold.
pub fn calls_are_answered_alike()
    ensures { CallsAreAnsweredAlike }
{
    reg_office::laws::two_worlds();
}

/// Striking, of calls: the answers to calls, and to others that have their events but for those
/// about requests that an account does not see, are the replies at their stages; these are alike at
/// each event that is left, but for rows of these requests where they list requests of others; and
/// at the end both show the account the same. What is left changes none of these requests; and
/// where none of them is there, such a list is the other list without their rows.
pub fn unseen_calls_leave_no_trace()
    ensures { UnseenCallsLeaveNoTrace }
{
    reg_office::laws::struck();
}

/// Isolation, to the byte: two well kept offices that show whoever the bytes of a request come
/// from, who is no clerk, the same view answer them at the same moment by the same bytes, and then
/// show it the same view again. Answers 503 `storage` are left out.
pub fn requests_are_answered_alike()
    ensures { RequestsAreAnsweredAlike }
{
    bytes_ask_one_thing();
    calls_are_answered_alike();
}

/// Without those that were answered 503 `storage`, requests in turn are answered as the model's run
/// of their events, with what is wrong with other bytes between, and so is the last world.
pub fn requests_run_as_the_model()
    ensures { RequestsRunAsTheModel }
{
    calls_run_as_the_model();
}

/// What is promised of requests in turn stands under the premise of the store right after them,
/// whatever comes later: the first of them, as many as one likes, were answered in turn as the
/// contents are, and so as the model's run of their events, where the premise is true then. It is,
/// where it was at the beginning, the store failed at none of them and the device behind it was
/// sound until then; want of memory ends nothing. `serve_listener` changes an office by such
/// requests.
pub fn requests_stand_so_far<K: Keeper>()
    ensures { RequestsStandSoFar K.world K.Holds K.Sound K.FAILS }
{
    calls_run_as_the_model();
}

/// Striking, to the byte: take the requests whose events are about requests that an account does
/// not see out of a list. The others are answered by the same bytes, but where an answer lists
/// requests of others; and there by the same bytes but for the rows of these requests. At the end
/// both show the account the same. Answers 503 `storage` are left out.
pub fn unseen_requests_leave_no_trace()
    ensures { UnseenRequestsLeaveNoTrace }
{
    unseen_calls_leave_no_trace();
}
