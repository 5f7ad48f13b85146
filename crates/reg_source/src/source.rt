//! Whom is asked what is published.
ghost use Rattle.std.specs.Prelude.{◌≡◌, IfOk};
ghost use Rattle.reg_core.specs.View.{Published};
ghost use Rattle.reg_core.specs.declared.reply.Reply.TheVariants.{Accepted};
ghost use Rattle.reg_source.specs.Source.{Asks};
ghost use Rattle.reg_site.specs.Site.{told_to_all};

use crate::unpublished::Unpublished;
use reg_core::command::PublicCommand;
use reg_core::told::Told;

/// What answers anybody's commands.
pub trait Source {
    /// What is published there.
    ghost published: { Self → Published };

    /// The premise under which that is what is told.
    ghost Holds: { Self → Type 0 };

    /// What anybody is told by this command. An office that is served answers at the moment of its
    /// own clock; any other at this moment, in seconds since 1970-01-01T00:00:00Z.
    fn ask(&mut self, moment: u64, command: &PublicCommand) -> Result<Told, Unpublished>
        ensures { Asks published Holds self.old self.new (λ p. IfOk result
            (λ told. told_to_all p moment command.now ≡ Accepted told)) };
}
