//! How far packing is, in a line on a terminal that is gone again before anything else is printed.

use std::cell::Cell;
use std::io::{self, Write};
use std::time::Instant;

/// Standard error, with a line that tells how far packing is.
#[derive(Drop)]
pub struct Console<'r, 'e, E> {
    rt: &'r HostRuntime,
    err: Cell<Option<&'e mut E>>,
    progress: Cell<Progress>,
}

/// How far packing is, and when a line tells that.
#[derive(Clone, Copy, Default)]
struct Progress {
    /// When packing began; none where that isn't told.
    start: Option<Instant>,
    /// How many milliseconds must pass from one line to the next, and before the next.
    pause: u64,
    next: u64,
    /// How many files are to be read, where that is known.
    all: Option<u64>,
    /// How many files were read, and their bytes.
    files: u64,
    bytes: u64,
    is_shown: bool,
}

impl<'r, 'e, E: Write> Console<'r, 'e, E> {
    /// One that tells nothing yet.
    pub fn new(rt: &'r HostRuntime, err: &'e mut E) -> Console<'r, 'e, E> {
        Console {
            rt,
            err: Cell::new(Some(err)),
            progress: Cell::new(Progress::default()),
        }
    }

    /// Tells from now on how far packing is, after some milliseconds, and then every tenth of them.
    pub(crate) fn begin(&self, patience: u64, all: Option<u64>) {
        self.progress.set(Progress {
            start: Instant::now(self.rt).ok(),
            pause: patience / 10,
            next: patience,
            all,
            ..self.progress.get()
        });
    }

    /// Counts a file that was read, and tells how far packing is where it is time for that.
    pub(crate) fn count(&self, size: usize) {
        let mut progress = self.progress.get();
        progress.files = progress.files.saturating_add(1);
        progress.bytes = progress.bytes.saturating_add(size as u64);
        self.progress.set(progress);
        let Some(Ok(passed)) = progress.start.map(|start| start.elapsed(self.rt)) else {
            return;
        };
        let passed = u64::try_from(passed.as_millis()).unwrap_or(u64::MAX);
        if passed < progress.next {
            return;
        }
        progress.next = passed.saturating_add(progress.pause);
        if let Some(err) = self.err.replace(None) {
            let files = progress.files;
            let megabytes = progress.bytes / 1_000_000;
            let shown = match progress.all {
                Some(all) => write!(err, "\rpacking {files} of {all}, {megabytes} MB\x1b[K"),
                None => write!(err, "\rpacking {files}, {megabytes} MB\x1b[K"),
            };
            progress.is_shown = shown.is_ok();
            self.err.set(Some(err));
        }
        self.progress.set(progress);
    }

    /// Takes the line away, where there is one.
    pub(crate) fn clear(&self) {
        let mut progress = self.progress.get();
        if !progress.is_shown {
            return;
        }
        progress.is_shown = false;
        self.progress.set(progress);
        if let Some(err) = self.err.replace(None) {
            let _ = write!(err, "\r\x1b[K");
            self.err.set(Some(err));
        }
    }
}

/// The lines that are printed while packing.
#[derive(Drop)]
pub struct Lines<'c, 'r, 'e, E>(pub &'c Console<'r, 'e, E>);

impl<E: Write> Write for Lines<'_, '_, '_, E> {
    fn write(&mut self, bytes: &[u8]) -> io::Result<usize> {
        self.0.clear();
        match self.0.err.replace(None) {
            Some(err) => {
                let written = err.write(bytes);
                self.0.err.set(Some(err));
                written
            }
            None => Err(io::Error::from(io::ErrorKind::Other)),
        }
    }

    fn flush(&mut self) -> io::Result<()> {
        match self.0.err.replace(None) {
            Some(err) => {
                let flushed = err.flush();
                self.0.err.set(Some(err));
                flushed
            }
            None => Ok(()),
        }
    }
}
