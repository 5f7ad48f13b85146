//! Lines that an office is asked, and their answers.
use crate::tests::transcript::{answered, sent};
use std::alloc::{AllocError, Global};

/// The answer to a line at which the store failed.
pub const STORAGE: &[u8] = b"503 {\"error\":\"storage\"}\n";

// How a line begins that takes capabilities away, and what it is answered where nothing is left.
const REVOCATION: &str = "1700000000 clerk-token-00001 DELETE /desk/";

const NOTHING_LEFT: &[u8] = b"200 []\n";

/// A line of a script, and its answer.
#[derive(Drop)]
pub struct Row {
    pub line: String,
    pub answer: Vec<u8>,
}

impl Row {
    /// It is answered as when it was carried out before: by 200, and the same body, or an empty list
    /// where the body says what was taken away.
    pub fn is_repeated(&self, answer: &[u8]) -> bool {
        if self.line.as_str().starts_with(REVOCATION) {
            return answer == NOTHING_LEFT;
        }
        answer.starts_with(b"200 ") && answer.get(4..) == self.answer.get(4..)
    }
}

/// The rows of these transcripts, in their order.
pub fn rows(alloc: Global, transcripts: &[&str]) -> Result<Vec<Row>, AllocError> {
    let (lines, answers) = (sent(alloc, transcripts)?, answered(alloc, transcripts)?);
    let mut rows = Vec::new(alloc);
    for (line, answer) in lines.lines().zip(answers.lines()) {
        let line = format!(in alloc; "{line}\n")?;
        let answer = format!(in alloc; "{answer}\n")?.into_bytes();
        rows.push(Row { line, answer })?;
    }
    Ok(rows)
}

/// What shows an office's content.
pub const LOOKS: &str = "\
1700000000 - GET /registries
1700000000 - GET /registries/flags
1700000000 - GET /pool
1700000000 - GET /listings/blocks
1700000000 alice-token-00001 GET /requests
1700000000 alice-token-00001 GET /holdings
1700000000 alice-token-00001 GET /agents
1700000000 bobby-token-00001 GET /requests
1700000000 bobby-token-00001 GET /principals
1700000000 bobby-token-00001 GET /principals/alice/requests
1700000000 xpert-token-00001 GET /queue
1700000000 clerk-token-00001 GET /desk/requests
1700000000 clerk-token-00001 GET /desk/requests/alice/a-1
1700000000 clerk-token-00001 GET /desk/tokens
1700000000 clerk-token-00001 GET /desk/journal/days/2023-11-14
1700000000 clerk-token-00001 GET /desk/journal/actors/clerk
1700000000 alice-token-00001 GET /times
";
