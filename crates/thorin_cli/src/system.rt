//! Where the program runs and as which, and what it reads beside the files that it packs.

use thorin_find::{FileReader, HostReader, Unread};

/// Files that are read, of which is known which couldn't be.
pub trait NotedReader: FileReader {
    /// The last file that couldn't be read, as far as there was memory to keep it. Asked for once.
    fn unread(&self) -> Option<Unread>;
}

impl NotedReader for HostReader<'_> {
    fn unread(&self) -> Option<Unread> {
        HostReader::unread(self)
    }
}

/// Where files are read.
#[derive(Clone, Copy)]
pub struct Readers<'s, R, P> {
    /// Those of all commands but `pack`.
    pub files: &'s R,
    /// Response files.
    pub responses: &'s P,
}

/// What is known of where the program runs.
#[derive(Clone, Copy)]
pub struct Facts<'a> {
    /// The commit that the program was built from, and empty where that isn't known: `--version`
    /// prints it.
    pub commit: &'a str,
    /// Whether standard error is a terminal.
    pub on_terminal: bool,
    /// After how many milliseconds a terminal is told how far packing is.
    pub patience: u64,
}

/// How the program does what words ask for.
#[derive(Clone, Copy)]
pub struct ProgramManner {
    /// Whether it does what a peer does without being told.
    pub of_peer: bool,
    /// Whether a terminal is told more: how far packing is, while it lasts, and of a file that is
    /// listed that it has no index.
    pub on_terminal: bool,
}
