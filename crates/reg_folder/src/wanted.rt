//! What a request asks of a site.
ghost use Rattle.std.specs.Prelude.{◌≡◌, Some, IfOk, codes};
ghost use Rattle.std.specs.Str.{bytes_eq};
ghost use Rattle.std.specs.String.{string_bytes};
ghost use Rattle.std.specs.Option.{option_copied};
ghost use Rattle.reg_folder.specs.Path.{aim_at, aim_behind, aim_in, behind, file_at, indexed};

use crate::segments::is_path;
use http::Method;
use reg_core::wire_refusal::WireRefusal;
use reg_head::message::Parts;
use std::alloc::{AllocError, Global};
use std::str;

/// What the paths of a site begin with.
const SITE: &[u8] = b"/site/";

/// The file that a path means which ends in a slash.
const INDEX: &str = "index.html";

/// What a request asks of a site.
#[derive(Drop)]
pub enum Wanted {
    /// Nothing: its path is not below `/site/`.
    Nothing,
    /// Something that is refused as the office refuses it.
    Refusal(WireRefusal),
    /// The file at this path in the folder.
    File(String),
}

/// What a request asks of a site. Only GET without a body asks for a file; `Method` and then `Body` come
/// before the path is read, and `Route` where it is no path of a file.
pub fn wanted_of(alloc: Global, parts: &Parts<'_>) -> Result<Wanted, AllocError>
    ensures { IfOk result (λ w. aim_in w ≡ aim_at parts.now.method.now parts.now.body.now parts.now.path.now) }
{
    match behind(parts.path) {
        Some(rest) => wanted_behind(alloc, parts.method, parts.body, rest),
        None => Ok(Wanted::Nothing),
    }
}

// What stands behind `/site/` in a path that begins so.
fn behind(path: &[u8]) -> Option<&[u8]>
    ensures { option_copied result ≡ behind path.now }
{
    if path.starts_with(SITE) {
        Some(&path[SITE.len()..])
    } else {
        None
    }
}

// What is asked by this method, with this body, at what stands behind `/site/`.
fn wanted_behind(
    alloc: Global,
    method: &[u8],
    body: &[u8],
    rest: &[u8],
) -> Result<Wanted, AllocError>
    ensures { IfOk result (λ w. aim_in w ≡ Some (aim_behind method.now body.now rest.now)) }
{
    if !is_get(method) {
        return Ok(Wanted::Refusal(WireRefusal::Method));
    }
    if !body.is_empty() {
        return Ok(Wanted::Refusal(WireRefusal::Body));
    }
    file_at(alloc, rest)
}

fn is_get(method: &[u8]) -> bool
    ensures { result ≡ bytes_eq method.now (codes "GET") }
{
    method == Method::GET.as_str().as_bytes()
}

// The file that is meant by what stands behind `/site/`.
fn file_at(alloc: Global, rest: &[u8]) -> Result<Wanted, AllocError>
    ensures { IfOk result (λ w. aim_in w ≡ Some (file_at rest.now)) }
{
    let Ok(rest) = str::from_utf8(rest) else {
        return Ok(Wanted::Refusal(WireRefusal::Route));
    };
    let path = indexed(alloc, rest)?;
    if is_path(path.as_str()) {
        Ok(Wanted::File(path))
    } else {
        Ok(Wanted::Refusal(WireRefusal::Route))
    }
}

// A path that is empty or ends in a slash means the index there.
fn indexed(alloc: Global, rest: &str) -> Result<String, AllocError>
    ensures { IfOk result (λ path. string_bytes path ≡ indexed rest.now) }
{
    let mut path = String::from_str(alloc, rest)?;
    if rest.is_empty() || rest.as_bytes().ends_with(b"/".as_slice()) {
        path.push_str(INDEX)?;
    }
    Ok(path)
}
