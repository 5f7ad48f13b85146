//! Capabilities by the digests of their tokens.
ghost use Rattle.std.specs.Prelude.{◌≡◌, IfOk};
ghost use Rattle.std.specs.FinMap as fin;
ghost use Rattle.reg_maps.specs.Maps.{text_cmp, finite_map};
ghost use Rattle.reg_core.specs.CapRows.{cap_rows};
ghost use Rattle.reg_core.specs.World.{without};

use crate::maps::{push_rows, row_at, unset_row};
use reg_core::capability::{Cap, CapRow};
use reg_core::rows::Rows;
use reg_core::text::Digest;
use std::alloc::{AllocError, Global};
use std::collections::BTreeMap;

/// Capabilities by digest.
pub type Caps = BTreeMap<Digest, Cap>;

/// The capability at a digest.
pub fn cap_in(caps: &Caps, digest: &Digest) -> Option<Cap>
    ensures { result ≡ fin.get (finite_map text_cmp caps.now) digest.now }
{
    row_at(caps, digest).copied()
}

/// All capabilities, by digest.
pub fn caps_in(alloc: Global, caps: &Caps) -> Result<Rows<CapRow>, AllocError>
    ensures { IfOk result (λ rows. rows ≡ cap_rows (finite_map text_cmp caps.now)) }
{
    let mut rows = Vec::with_capacity(alloc, caps.len())?;
    push_rows(&mut rows, caps, |digest, cap| {
        Ok(CapRow {
            digest: *digest,
            cap: *cap,
        })
    })?;
    Ok(Rows::from_vec(rows))
}

/// Takes the capabilities at these digests away, which needs no memory.
pub fn take_caps(caps: &mut Caps, digests: &[Digest])
    ensures { finite_map text_cmp caps.new ≡ without digests.now (finite_map text_cmp caps.old) }
{
    for digest in digests {
        unset_row(caps, digest);
    }
}
