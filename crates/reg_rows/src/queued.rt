//! Requests that are assigned, with the minutes that they name, as their experts see them.
ghost use Rattle.std.specs.Prelude.{◌≡◌};
ghost use Rattle.reg_core.specs.Queue.{queue_row};
ghost use Rattle.reg_core.specs.Request.{case_of};
ghost use Rattle.reg_core.specs.View.{as_queued};
ghost use Rattle.reg_rows.specs.Marks.{seen_minuted};

use crate::minutes::Minuted;
use reg_core::advice::Advice;
use reg_core::queue::QueueRow;
use reg_core::request::Request;
use reg_keeper::keeper::Fault;
use reg_records::queued::QueuedRequest;
use reg_statements::loads::Loads;
use reg_tables::reports::Reports;
use sqlite::Connection;
use std::alloc::Global;

/// A request that is assigned, as its expert sees it.
pub fn queued(request: Request, advice: Option<Advice>) -> QueueRow
    ensures { result ≡ queue_row (request.account, request.reference)
        (as_queued advice (case_of request)) }
{
    QueueRow {
        account: request.account,
        reference: request.reference,
        word: request.state.word(),
        ask: request.ask,
        advice,
    }
}

/// A request that is assigned, as its expert sees it.
impl Minuted for QueuedRequest {
    type Whole = QueueRow;

    ghost minuted = { seen_minuted };

    fn minuted<S: Reports + Loads>(
        self,
        alloc: Global,
        conn: &mut Connection<S>,
    ) -> Result<QueueRow, Fault> {
        let advice = self.advice;
        match self.request.minuted(alloc, conn) {
            Ok(request) => Ok(queued(request, advice)),
            Err(fault) => Err(fault),
        }
    }
}
