//! Laws of scripts, over their definitions.
ghost use Rattle.reg_wire.specs.Script.Laws.{LinesAreRead, IsCutOneWay, AnswersAreLines, AreAnswers, RunsAsTheModel, LinesAreAnsweredAlike, UnseenLinesLeaveNoTrace, LinesStandSoFar};

use crate::laws::{calls_are_answered_alike, calls_run_as_the_model, unseen_calls_leave_no_trace};
use reg_keeper::keeper::Keeper;

/// A line is read as it is written: `moment token METHOD path body`, with one space between. Other
/// bytes are no line.
pub fn lines_are_read()
    ensures { LinesAreRead }
{}

/// Each script is cut into lines in one way.
pub fn lines_are_cut_one_way()
    ensures { IsCutOneWay }
{}

/// The answer to a line is one line.
pub fn answers_are_lines()
    ensures { AnswersAreLines }
{}

/// The answers to a line that is none, and to one at which the store or memory failed, are printed
/// as all others are.
pub fn refusals_are_answers()
    ensures { AreAnswers }
{}

/// Without the lines that were answered 503 `storage`, the answers to a script are those to its
/// calls: those of the model's run of its events, with the refusals of the other lines between
/// them, and so is the last world.
pub fn runs_as_the_model()
    ensures { RunsAsTheModel }
{
    calls_run_as_the_model();
}

/// What is promised of lines stands under the premise of the store right after them, whatever comes
/// later: the first lines of a run were answered in turn as their contents are, where the premise
/// is true then. It is, where it was at the beginning, the store failed at none of them and the
/// device behind it was sound until then; want of memory ends nothing.
pub fn lines_stand_so_far<K: Keeper>()
    ensures { LinesStandSoFar K.world K.Holds K.Sound K.FAILS }
{}

/// Isolation, of lines: two well kept offices that show the sender of a line, who is no clerk, the
/// same view answer it by the same bytes, and then show the sender the same view again, as of
/// calls. Lines that are answered 503 `storage` are left out.
pub fn lines_are_answered_alike()
    ensures { LinesAreAnsweredAlike }
{
    calls_are_answered_alike();
}

/// Striking, of scripts, to the byte: take the lines of a script whose events are about requests
/// that an account does not see out of it. At each line that is left, both scripts are answered by
/// the same bytes, but where the answer lists requests of others; and there by the same bytes but
/// for the rows of these requests. So is each script that gives the commands that are left, in
/// whatever lines. Lines that are answered 503 `storage` are left out.
pub fn unseen_lines_leave_no_trace()
    ensures { UnseenLinesLeaveNoTrace }
{
    unseen_calls_leave_no_trace();
}
