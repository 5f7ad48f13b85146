//! A call and its answer, whatever carries them.
ghost use Rattle.std.specs.Prelude.{◌≡◌, IfOk};
ghost use Rattle.reg_office.specs.Caller.{step_by};
ghost use Rattle.reg_keeper.specs.Keeper.{Makes};
ghost use Rattle.reg_wire.specs.Exchange.{call_view, answer_to, world_then, IsNotStorage};

use reg_core::command::Command;
use reg_core::reply::Reply;
use reg_core::wire_refusal::ReadFault;
use reg_keeper::keeper::{Fault, Keeper};
use reg_office::Office;
use reg_parse::command::read_command;
use reg_parse::route::Routes;
use reg_print::answer::Answer;
use std::alloc::Global;

/// What is asked at a moment, by whoever has a token.
#[derive(Clone, Copy)]
pub struct Call<'a> {
    /// Seconds since 1970-01-01T00:00:00Z.
    pub moment: u64,
    /// The bearer token, if there is one.
    pub token: Option<&'a [u8]>,
    pub method: &'a [u8],
    pub path: &'a [u8],
    /// Empty where there is none.
    pub body: &'a [u8],
}

/// What is answered to a call: the refusal of bytes that spell no command, or what the office
/// answers to the command, which is then carried out. `body_of` prints it. A fault where the store
/// or memory failed, with the content of the office unchanged: the answer is then
/// `Answer::Storage`.
pub fn answer_to<K: Keeper>(
    alloc: Global,
    office: &mut Office<K>,
    routes: &Routes,
    call: &Call<'_>,
) -> Result<Answer, Fault>
    ensures answer { K.Holds office.new → IfOk result
        (λ a. a ≡ answer_to (K.world office.old) (call_view call.now)) }
    ensures world { Makes K.world K.Holds K.Sound K.FAILS office.old office.new result
        (λ w. world_then w (call_view call.now)) }
    ensures is_answered { IfOk result IsNotStorage }
{
    match read_command(alloc, routes, call.method, call.path, call.body) {
        Ok(command) => Ok(Answer::Reply(handle(office, call, command)?)),
        Err(ReadFault::Refused(refusal)) => Ok(Answer::Wire(refusal)),
        Err(ReadFault::Memory) => Err(Fault::Memory),
    }
}

fn handle<K: Keeper>(
    office: &mut Office<K>,
    call: &Call<'_>,
    command: Command,
) -> Result<Reply, Fault>
    ensures reply { let step = step_by (K.world office.old) (call_view call.now).token in
        K.Holds office.new → IfOk result (λ r. r ≡ (step call.now.moment command).reply) }
    ensures world { Makes K.world K.Holds K.Sound K.FAILS office.old office.new result
        (λ w. (step_by w (call_view call.now).token call.now.moment command).world) }
{
    let reply = office.handle(call.moment, call.token, &command);
    drop(command);
    reply
}
