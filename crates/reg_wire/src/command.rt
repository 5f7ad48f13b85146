//! The command that a method, a path and a body spell.
ghost use Rattle.std.specs.Prelude.{◌≡◌, true, IfOk};
ghost use Rattle.reg_core.specs.Command.{has_command_form};
ghost use Rattle.reg_json.specs.Members.{Gives};
ghost use Rattle.reg_parse.specs.Command.{asked};

use reg_core::command::Command;
use reg_core::wire_refusal::ReadFault;
use reg_parse::command::read_command as read_routed;
use reg_parse::route::Routes;
use std::alloc::Global;

/// The command that these bytes spell, or what is wrong with them first, in the order of
/// `reg_parse`. `Memory` comes only where there was none for the routes, which are made for this one
/// call, or for the reading. Who reads many commands keeps the routes.
pub fn read_command(
    alloc: Global,
    method: &[u8],
    path: &[u8],
    body: &[u8],
) -> Result<Command, ReadFault>
    ensures spelled { Gives result (asked method.now path.now body.now) }
    ensures form { IfOk result (λ command. has_command_form command ≡ true) }
{
    let routes = Routes::new(alloc)?;
    read_routed(alloc, &routes, method, path, body)
}
