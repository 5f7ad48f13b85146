//! Asks as the bodies of requests.
ghost use Rattle.std.specs.Prelude.{◌≡◌, IfOk};
ghost use Rattle.serde_json.specs.Written.{compact_text};
ghost use Rattle.reg_print.specs.Trees.Ask.{ask_tree};

use crate::printing::printed;
use reg_core::ask::Ask;
use std::alloc::{AllocError, Global};

/// The body of a request for this, as JSON without white space.
pub fn ask_text(alloc: Global, ask: &Ask) -> Result<Vec<u8>, AllocError>
    ensures { IfOk result (λ text. text.items ≡ compact_text (ask_tree ask.now)) }
{
    printed(alloc, ask)
}
