//! What connections do to an office, over its definition.
ghost use Rattle.reg_http.specs.Known.{KnownConnectionsAreAnswered};

use reg_keeper::keeper::Keeper;
use reg_wire::laws::{calls_run_as_the_model, readers_ask_by_all_their_bytes};

/// What is promised of connections of which all bytes are known: to each there is one answer at most,
/// to all its bytes, at the moment that the clock said when it came; where there is none nothing is
/// written over it. What is written is the answer, whole or its first bytes, and exactly the whole ones
/// are counted. By these answers, in turn, and by nothing else the office is changed; under the premise
/// of the store they are those of the model's run of their events.
pub fn known_connections_are_answered<K: Keeper>()
    ensures { KnownConnectionsAreAnswered K.world K.Holds K.Sound K.FAILS }
{
    calls_run_as_the_model();
    readers_ask_by_all_their_bytes();
}
