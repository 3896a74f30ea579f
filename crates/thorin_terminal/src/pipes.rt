//! Standard output, of which is kept why it took nothing.

ghost use Rattle.std.specs.Prelude.{◌≡◌, None};
ghost use Rattle.thorin_terminal.specs.Watching.{failure_of};

use std::io::{self, Write};

/// A writer, and why a write failed.
#[derive(Drop)]
pub struct WatchedWriter<O> {
    /// The writer.
    pub out: O,
    /// Why the last write that failed did, if one did.
    failure: Option<io::Error>,
}

impl<O: Write> WatchedWriter<O> {
    /// A writer that took nothing yet.
    pub fn new(out: O) -> WatchedWriter<O>
        ensures out { result.out ≡ out }
        ensures whole { failure_of result ≡ None }
    {
        WatchedWriter { out, failure: None }
    }

    /// Why the last write that failed did, if one did.
    pub fn failure(&self) -> Option<io::Error>
        ensures { result ≡ failure_of self.now }
    {
        let WatchedWriter { failure, .. } = self;
        *failure
    }
}

impl<O: Write> Write for WatchedWriter<O> {
    ghost contents = { λ watched. O.contents watched.out };

    fn write(&mut self, bytes: &[u8]) -> io::Result<usize> {
        let answer = self.out.write(bytes);
        if let Err(cause) = answer {
            self.failure = Some(cause);
        }
        answer
    }

    fn flush(&mut self) -> io::Result<()> {
        let answer = self.out.flush();
        if let Err(cause) = answer {
            self.failure = Some(cause);
        }
        answer
    }
}
