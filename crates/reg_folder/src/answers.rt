//! What is answered to requests below `/site/`.
ghost use Rattle.std.specs.Prelude.{IfOk, Result};
ghost use Rattle.reg_head.specs.Reading.{IsMessage, LiesInBytes, request_view};
ghost use Rattle.reg_head.specs.Request.{BytesAsk, Request};
ghost use Rattle.reg_head.specs.declared.malformed.Malformed.{Malformed as OfBytes};
ghost use Rattle.reg_folder.specs.Answers.{AnswersAsked, AnswersFound, AnswersSite, IsGiven, IsRefusedBelow};

use crate::files::{SiteFile, SiteFiles};
use crate::head::head_of;
use crate::wanted::{Wanted, wanted_of};
use http::StatusCode;
use reg_core::wire_refusal::WireRefusal;
use reg_head::laws::readers_ask_by_all_their_bytes;
use reg_head::message::{Message, Parts};
use reg_head::reading::read_request;
use reg_head::unread::Unread;
use reg_head::watch::Watch;
use reg_http::front::{Front, FrontAnswer};
use reg_print::answer::{Answer, body_of};
use reg_wire::response::reply_bytes;
use std::alloc::{AllocError, Global};

/// A site in front of an office, if there is one.
#[derive(Drop)]
pub struct SiteFront<S> {
    /// The folder of the site.
    pub files: Option<S>,
}

impl<S: SiteFiles> Front for SiteFront<S> {
    type Content = S::Content;

    fn answer(
        &mut self,
        alloc: Global,
        request: &[u8],
    ) -> Result<Option<FrontAnswer<S::Content>>, AllocError> {
        match &mut self.files {
            Some(files) => match answer_to(alloc, files, request) {
                Ok(answer) => Ok(answer),
                // The bytes are there, so no read of them fails.
                Err(_) => Err(AllocError),
            },
            None => Ok(None),
        }
    }
}

/// The answer to these bytes by the folder of a site; none where they are the office's, as those are that
/// are no request. `Read` and `Memory` where they could not be read or there was no memory for the answer.
pub fn answer_to<S: SiteFiles>(
    alloc: Global,
    files: &mut S,
    request: &[u8],
) -> Result<Option<FrontAnswer<S::Content>>, Unread>
    ensures { IfOk result (λ given. (asked : Result Request OfBytes) × BytesAsk request.now asked
        × AnswersAsked S.Finds files.old files.new asked given) }
{
    readers_ask_by_all_their_bytes();
    let mut reader = request;
    let mut watch = Watch::new();
    match read_request(alloc, &mut reader, &mut watch) {
        Ok(message) => {
            let answer = answer_message(alloc, files, &message);
            drop(message);
            Ok(answer?)
        }
        Err(Unread::Refused(_)) => Ok(None),
        Err(why) => Err(why),
    }
}

fn answer_message<S: SiteFiles>(
    alloc: Global,
    files: &mut S,
    message: &Message,
) -> Result<Option<FrontAnswer<S::Content>>, AllocError>
    requires { LiesInBytes message.now }
    ensures { IfOk result (λ given. (request : Request) → IsMessage message.now request
        → AnswersSite S.Finds files.old files.new request given) }
{
    answer_parts(alloc, files, &message.parts())
}

fn answer_parts<S: SiteFiles>(
    alloc: Global,
    files: &mut S,
    parts: &Parts<'_>,
) -> Result<Option<FrontAnswer<S::Content>>, AllocError>
    ensures { IfOk result (λ given.
        AnswersSite S.Finds files.old files.new (request_view parts.now) given) }
{
    match wanted_of(alloc, parts)? {
        Wanted::Nothing => Ok(None),
        Wanted::Refusal(why) => Ok(Some(refused(alloc, parts.method, why)?)),
        Wanted::File(path) => {
            let found = files.find(path.as_str())?;
            Ok(Some(found_answer(alloc, parts.method, parts.path, path.as_str(), found)?))
        }
    }
}

// The answer where this was found at a path in the folder.
fn found_answer<C: Drop>(
    alloc: Global,
    method: &[u8],
    asked: &[u8],
    path: &str,
    found: Option<SiteFile<C>>,
) -> Result<FrontAnswer<C>, AllocError>
    ensures { IfOk result (AnswersFound method.now asked.now path.now found) }
{
    match found {
        Some(file) => given(alloc, method, asked, path, file),
        None => refused(alloc, method, WireRefusal::Route),
    }
}

// The answer that has a file.
fn given<C: Drop>(
    alloc: Global,
    method: &[u8],
    asked: &[u8],
    path: &str,
    file: SiteFile<C>,
) -> Result<FrontAnswer<C>, AllocError>
    ensures { IfOk result (IsGiven method.now asked.now path.now file) }
{
    let SiteFile { length, content } = file;
    let head = head_of(alloc, path, length)?.into_bytes();
    Ok(FrontAnswer {
        head,
        status: StatusCode::OK,
        length,
        method: method.to_vec(alloc)?,
        path: Some(asked.to_vec(alloc)?),
        content: Some(content),
    })
}

// The office's answer to what is refused so.
fn refused<C: Drop>(
    alloc: Global,
    method: &[u8],
    why: WireRefusal,
) -> Result<FrontAnswer<C>, AllocError>
    ensures { IfOk result (IsRefusedBelow method.now why) }
{
    let method = method.to_vec(alloc)?;
    let answer = Answer::Wire(why);
    let status = answer.status();
    let head = reply_bytes(alloc, &answer);
    let body = body_of(alloc, &answer);
    drop(answer);
    let head = head?;
    let (_, body) = body?;
    Ok(FrontAnswer {
        head,
        status,
        length: body.len(),
        method,
        path: None,
        content: None,
    })
}
