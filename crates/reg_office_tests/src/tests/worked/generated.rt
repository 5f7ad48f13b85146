//! Requests that a fixed sequence of numbers draws, as lines of a script.
use std::alloc::{AllocError, Global};

/// How many requests are drawn.
const REQUESTS: usize = 2_000;

// The requests in turn, by token, method, path and body. In them `%` and a letter is what is drawn.
const ROUTES: &str = r#"- GET /registries
- GET /registries/%N
- GET /listings/registries/%N
- GET /listings/blocks
- GET /pool
alice-token-00001 GET /requests
alice-token-00001 GET /requests/%N
alice-token-00001 PUT /requests/%N %A
alice-token-00001 DELETE /requests/%N
alice-token-00001 GET /holdings
alice-token-00001 PUT /holdings/%B {"private":%M}
alice-token-00001 PUT /agents/%N {"reads":%M}
alice-token-00001 GET /agents
bobby-token-00001 GET /principals
bobby-token-00001 GET /principals/alice/requests
bobby-token-00001 GET /principals/%N/requests
xpert-token-00001 GET /queue
xpert-token-00001 PUT /queue/alice/%N {"text":"%T","verdict":"for"}
clerk-token-00001 GET /desk/requests
clerk-token-00001 GET /desk/requests/alice/%N
clerk-token-00001 PUT /desk/experts/alice/%N/xan
clerk-token-00001 PUT /desk/approve/alice/%N
clerk-token-00001 PUT /desk/decline/alice/%N {"reason":"%T"}
clerk-token-00001 PUT /desk/holds/flags/%V {"held":%M}
clerk-token-00001 PUT /desk/registries/%N/1 %R
clerk-token-00001 PUT /desk/pool/%P
clerk-token-00001 PUT /desk/tokens {"account":"%N","kind":"applicant","token":"%K","until":%U}
clerk-token-00001 GET /desk/pending
clerk-token-00001 GET /desk/tokens
clerk-token-00001 DELETE /desk/tokens/%D
clerk-token-00001 DELETE /desk/accounts/%O
clerk-token-00001 GET /desk/counts"#;

// Asks, of which one is drawn for `%A`.
const ASKS: &str =
    r#"{"contact":"c","kind":"code","label":"%T","least":"first-come-first-served","registry":"flags"}
{"address":"%T","kind":"block","organization":"O, Inc.","size":"%S"}
{"chair":"c","director":"a","draft":"d","interest":true,"kind":"early","label":"%T","registry":"flags","stable":true,"value":%V}
{"chair":"c","director":"a","draft":"d","iesg":"%T","interest":true,"kind":"renew","registry":"flags","stable":true,"value":%V}
{"contact":"c","kind":"code","label":"%T","registry":"flags","value":%V}
{"contact":"%T","kind":"code","label":"%T","registry":"flags","value":%V}"#;

// A range file for `%R`.
const RANGES: &str = "lo,hi,treatment,note\t0,0,first-come-first-served,\t1,1,reserved,kept\t";

/// A text of the most letters.
pub const TEXT: &str =
    "tttttttttttttttttttttttttttttttttttttttttttttttttttttttttttttttttttttttttttttttttttttttttttttttttttttttttttttttttttttttttttttttttttttttttttttttttttttttttttttttttttttttttttttttttttttttttttttttttttttttt";

/// A fixed sequence of numbers. The multiplier and the increment are those of Knuth's MMIX.
#[derive(Drop)]
struct Sequence {
    state: u64,
}

impl Sequence {
    // The next number below a limit, 0 for the limit 0.
    fn below(&mut self, limit: usize) -> usize {
        self.state = self
            .state
            .wrapping_mul(6_364_136_223_846_793_005)
            .wrapping_add(1_442_695_040_888_963_407);
        let drawn = usize::try_from(self.state >> 33).unwrap_or(0);
        drawn.checked_rem(limit).unwrap_or(0)
    }

    // One of these words, or lines.
    fn one_of<'a>(&mut self, words: &'a str, end: char) -> &'a str {
        let place = self.below(words.split(end).count());
        words.split(end).nth(place).unwrap_or("")
    }

    // What is drawn for a letter: a text from 1 to 200 letters, one of both ends now and then; a range file; or
    // a word.
    fn drawn(&mut self, letter: char) -> &'static str {
        let words = match letter {
            'T' => {
                let length = match self.below(8) {
                    0 => 1,
                    1 => 200,
                    _ => self.below(200).saturating_add(1),
                };
                return TEXT.get(..length).unwrap_or("");
            }
            'R' => return RANGES,
            'N' => "a a-1 b-2 flags alice xan 0 abcdefghijklmnopqrstuvwxyz-01234",
            'P' => "000000 FCFFFF 001A2B 011A2B 0000012",
            'B' => "000000 0000000 000000001 001A2B0 FCFFFFFFF G",
            'S' => "MA-L MA-M MA-S",
            'M' => "true false",
            'V' => "0 5 6 7 64 65 66 70 71 72 100 191 192 200 255 256 4294967295",
            'U' => "0 1700000000 1800000000 32503679999 32503680000 32503680001",
            'K' => "other-token-00000 other-token-00001 other-token-00002 short",
            'D' => "ff2676003e48 ff267600 f722f90f a4eb0813a20d 00000000 0000000",
            _ => "a a-1 flags 0 nobody abcdefghijklmnopqrstuvwxyz-01234",
        };
        self.one_of(words, ' ')
    }

    // Puts a text in which `%` and a letter is what is drawn.
    fn put(&mut self, line: &mut String, text: &str) -> Result<(), AllocError> {
        let mut pieces = text.split('%');
        line.push_str(pieces.next().unwrap_or(""))?;
        for piece in pieces {
            let mut chars = piece.chars();
            if let Some(letter) = chars.next() {
                line.push_str(self.drawn(letter))?;
            }
            line.push_str(chars.as_str())?;
        }
        Ok(())
    }
}

/// The requests, in their order, each a line of a script with a line feed.
pub fn requests(alloc: Global) -> Result<String, AllocError> {
    let mut numbers = Sequence { state: 1 };
    let mut lines = String::new(alloc);
    for count in 0..REQUESTS {
        lines.push_str("1700000000 ")?;
        let place = count.checked_rem(ROUTES.split('\n').count()).unwrap_or(0);
        let route = ROUTES.split('\n').nth(place).unwrap_or("");
        match route.strip_suffix("%A") {
            Some(first) => {
                numbers.put(&mut lines, first)?;
                let ask = numbers.one_of(ASKS, '\n');
                numbers.put(&mut lines, ask)?;
            }
            None => numbers.put(&mut lines, route)?,
        }
        lines.push('\n')?;
    }
    Ok(lines)
}
