//! Offices as sources.
ghost use Rattle.std.specs.Prelude.{◌≡◌, IfOk};
ghost use Rattle.reg_core.specs.View.{published as shown};
ghost use Rattle.reg_core.specs.declared.reply.Reply.TheVariants.{Accepted};

use crate::source::Source;
use crate::unpublished::Unpublished;
use reg_core::command::{Command, PublicCommand};
use reg_core::reply::Reply;
use reg_core::told::Told;
use reg_keeper::keeper::Keeper;
use reg_office::Office;

impl<K: Keeper> Source for Office<K> {
    ghost published = { λ office. shown (K.world office) };

    ghost Holds = { K.Holds };

    fn ask(&mut self, moment: u64, command: &PublicCommand) -> Result<Told, Unpublished> {
        let reply = self.handle(moment, None, &Command::Public(*command))?;
        told_by(reply)
    }
}

// What a reply tells, or its refusal.
fn told_by(reply: Reply) -> Result<Told, Unpublished>
    ensures { IfOk result (λ told. reply ≡ Accepted told) }
{
    match reply {
        Reply::Accepted(told) => Ok(told),
        Reply::Refused(refusal) => Err(Unpublished::Refused(refusal)),
    }
}
