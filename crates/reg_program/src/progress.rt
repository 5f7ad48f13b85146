//! How far a script is.
ghost use Rattle.std.specs.Prelude.{◌≡◌};

use std::io;
use std::io::Write;
use std::time::{Clock, Duration};

/// Passes bytes on. Where somebody watches a script, they are its answers: it counts them, and tells on a
/// terminal, about once a second, how many lines were answered, how many of them were refused, and how many
/// are answered a second. A flush says that there are no more. What is told goes beside what is passed on.
#[derive(Drop)]
pub struct Progress<'a, C: Clock, W: Write, E: Write> {
    clock: &'a C,
    output: W,
    terminal: E,
    is_watched: bool,
    // When it began, and what was told last, by the monotonic clock.
    began: Option<Duration>,
    told: Option<Duration>,
    tally: Tally,
}

/// How many lines were answered, and refused.
#[derive(Clone, Copy, Debug, PartialEq, Eq)]
pub struct Tally {
    /// Lines that were answered.
    pub answered: u64,
    /// Lines of these that were refused: their status is not 2xx.
    pub refused: u64,
    // Whether the next byte begins an answer.
    is_between: bool,
}

impl Tally {
    /// No line yet.
    pub fn new() -> Tally {
        Tally {
            answered: 0,
            refused: 0,
            is_between: true,
        }
    }

    /// Counts the answers in the next bytes.
    pub fn count(&mut self, bytes: &[u8]) {
        for byte in bytes {
            if self.is_between && *byte != b'2' {
                self.refused = self.refused.saturating_add(1);
            }
            self.is_between = *byte == b'\n';
            if self.is_between {
                self.answered = self.answered.saturating_add(1);
            }
        }
    }
}

impl<'a, C: Clock, W: Write, E: Write> Progress<'a, C, W, E> {
    /// What passes bytes on to this output, and may be watched on this terminal.
    pub fn new(clock: &'a C, output: W, terminal: E, is_watched: bool) -> Self {
        let began = clock.monotonic().ok();
        Progress {
            clock,
            output,
            terminal,
            is_watched,
            began,
            told: began,
            tally: Tally::new(),
        }
    }

    // Counts the answers in the next bytes, and tells how far it is where that is due.
    fn count(&mut self, bytes: &[u8])
        ensures { self.new.output ≡ self.old.output }
    {
        if !self.is_watched {
            return;
        }
        self.tally.count(bytes);
        let now = self.clock.monotonic().ok();
        if elapsed(self.told, now) >= 1000 {
            self.tell(now);
        }
    }

    // Tells how far it came, ends the line, and tells no more. It does not matter whether that can be written.
    fn end(&mut self)
        ensures { self.new.output ≡ self.old.output }
    {
        if !self.is_watched {
            return;
        }
        let now = self.clock.monotonic().ok();
        self.tell(now);
        let _ = self.terminal.write_all(b"\n");
        self.is_watched = false;
    }

    fn tell(&mut self, now: Option<Duration>)
        ensures { self.new.output ≡ self.old.output }
    {
        let Tally {
            answered,
            refused,
            ..
        } = self.tally;
        let rate = rate(answered, elapsed(self.began, now));
        let _ = write!(
            self.terminal,
            "\r{answered} lines answered, {refused} refused, {rate} a second  "
        );
        let _ = self.terminal.flush();
        self.told = now;
    }
}

// How many milliseconds lie between; 0 where the clock failed.
fn elapsed(from: Option<Duration>, to: Option<Duration>) -> u64 {
    match (from, to) {
        (Some(from), Some(to)) => match to.checked_sub(from) {
            Some(time) => time
                .as_secs()
                .saturating_mul(1000)
                .saturating_add(u64::from(time.subsec_millis())),
            None => 0,
        },
        _ => 0,
    }
}

// How many a second that is.
fn rate(count: u64, milliseconds: u64) -> u64 {
    if milliseconds == 0 {
        return 0;
    }
    count.saturating_mul(1000) / milliseconds
}

impl<C: Clock, W: Write, E: Write> Write for Progress<'_, C, W, E> {
    ghost contents = { λ p. W.contents p.output };

    fn write(&mut self, buf: &[u8]) -> io::Result<usize> {
        let count = self.output.write(buf)?;
        self.count(&buf[..count]);
        Ok(count)
    }

    fn flush(&mut self) -> io::Result<()> {
        self.end();
        self.output.flush()
    }
}
