//! The program `thorin`, as a function over its words and two writers.
#![tactic(auto)]

ghost use Rattle.thorin_print.specs.declared.output.Failure.TheVariants as failures;
ghost use Rattle.std.specs.Prelude.{IfOk, IsSome, map, string_bytes, ◌≡◌};
ghost use Rattle.thorin_cli.specs.Telling.{HasTriedOr, inside_text, ReportsFirst, response_text};
ghost use Rattle.thorin_cli.specs.Telling.{HasTried, no_memory};
ghost use Rattle.std.specs.{declared.io.ErrorKind.TheVariants.OutOfMemory, IoError.error_kind};
ghost use Rattle.thorin_print.specs.Watching.{LacksLine};
ghost use Rattle.thorin_terminal.specs.Watching.{failure_of};
ghost use Rattle.thorin_cli.specs.Doing.{is_name_of_peer, line_of, Runs};

mod notes;
mod program;
mod settings;
mod system;

use crate::notes::{note_response, put_note};
use crate::program::Program;
pub use crate::system::{Facts, NotedReader, ProgramManner, Readers};
use std::alloc::{AllocError, Global};
use std::convert::AsStr;
use std::io::{self, Write};
use thorin_arguments::is_peer;
pub use thorin_find::HostReader;
pub use thorin_print::{Failure, WatchedLines};
use thorin_print::{Form, put_spelled};
pub use thorin_terminal::{Console, HostFiles, HostResponses, Lines, WatchedWriter};
use thorin_terminal::{NotedFiles, NotedResponses};
use thorin_words::{ResponseError, expanded, printed};

/// Does what a command line asks for: `words` are the program's name and its arguments, where
/// `@FILE` stands for the words of a file. What is printed goes to `out`, and an error as one line
/// `error: ` and its text to `err`; lines `note: ` behind it say what it is about. Answers the
/// status: 0; 1 where the command was refused, a package has faults or a line can't be written; 2
/// for a bad command line. Under the names `dwp` and `llvm-dwp` it takes the command lines of those
/// programs. `facts` is what is known of where the program runs.
pub fn run<F: NotedFiles, R: NotedReader, P: NotedResponses, S: AsStr, O: Write, E: Write>(
    alloc: Global,
    words: &[S],
    facts: Facts<'_>,
    files: &mut F,
    readers: Readers<'_, R, P>,
    out: &mut WatchedWriter<O>,
    err: &mut WatchedLines<E>,
) -> u8
    ensures did { Runs (record {
      offer = F.offer;
      known = F.known;
      begun = F.begun;
      contents = λ out. O.contents out.out;
      failed = λ out. IsSome (failure_of out);
      told = λ err. E.contents err.writer;
      untold = λ err. LacksLine err;
      read = R.offer readers.entry.files.now;
    }) (P.offer readers.entry.responses.now) (P.fails readers.entry.responses.now)
        facts.entry.on_terminal (line_of (map S.text words.now))
        (record { files = files.old; out = out.old; err = err.old }) result
        (record { files = files.new; out = out.new; err = err.new }) }
{
    let (program, line) = named_program(words);
    match expanded(alloc, readers.responses, program, line) {
        Ok(words) => {
            let manner = ProgramManner {
                of_peer: is_peer(program),
                on_terminal: facts.on_terminal,
            };
            let mut program = Program {
                alloc,
                manner,
                patience: facts.patience,
                files,
                reader: readers.files,
                out,
                err,
            };
            thorin_arguments::run(alloc, words.as_slice(), facts.commit, &mut program)
        }
        Err(error) => {
            refuse_response(alloc, err, &error);
            note_response(alloc, readers.responses, &error, &mut err.writer);
            1
        }
    }
}

/// The name that a command line is of, and the words behind it: a peer's name that stands where a
/// command does takes the place of the program's own.
fn named_program<S: AsStr>(words: &[S]) -> (&str, &[S])
    ensures { (result.0.now, map S.text result.1.now) ≡ line_of (map S.text words.now) }
{
    let Some((program, line)) = words.split_first() else {
        return ("thorin", words);
    };
    match line.split_first() {
        Some((name, rest)) if is_peer_name(name.as_str()) && !is_peer(program.as_str()) => {
            (name.as_str(), rest)
        }
        _ => (program.as_str(), line),
    }
}

/// Whether a word is the name of a peer, without folders.
fn is_peer_name(word: &str) -> bool
    ensures { result ≡ is_name_of_peer word.now }
{
    !word.as_bytes().contains(&b'/') && is_peer(word)
}

/// Prints why the words of a command line can't be told.
fn refuse_response<E: Write>(alloc: Global, err: &mut WatchedLines<E>, error: &ResponseError)
    ensures { HasTriedOr no_memory (E.contents err.old.writer) err.new
        (E.contents err.new.writer) (response_text error.now) }
{
    match error {
        ResponseError::Inside(name) => refuse_file(alloc, err, name.as_str(), "itself"),
        ResponseError::TooDeep(name) => refuse_file(alloc, err, name.as_str(), "64 others"),
        ResponseError::TooLong => tell(err, "Response files are too long"),
        ResponseError::Unreadable | ResponseError::TooMany | ResponseError::NotUtf8 => {
            tell(err, "Failed to read response file")
        }
        ResponseError::Memory => tell(err, "Out of memory"),
    }
}

/// Prints that a response file is inside others.
fn refuse_file<E: Write>(alloc: Global, err: &mut WatchedLines<E>, name: &str, others: &str)
    ensures { HasTriedOr no_memory (E.contents err.old.writer) err.new
        (E.contents err.new.writer) (inside_text name.now others.now) }
{
    match inside(alloc, name, others) {
        Ok(text) => tell(err, text.as_str()),
        Err(AllocError) => tell(err, "Out of memory"),
    }
}

/// What is said of a response file that is inside others.
fn inside(alloc: Global, name: &str, others: &str) -> Result<String, AllocError>
    ensures { IfOk result (λ text. string_bytes text ≡ inside_text name.now others.now) }
{
    let name = printed(alloc, name)?;
    format!(in alloc; "Response file {name} is inside {others}")
}

/// Prints an error of a text.
fn tell<E: Write>(err: &mut WatchedLines<E>, text: &str)
    ensures { HasTried (E.contents err.old.writer) err.new (E.contents err.new.writer) text.now }
{
    let _told = err.tell(&text);
}

/// What the program answers where its command line can't be taken: this word of it isn't UTF-8, or
/// memory ran out.
pub fn refuse_words<E: Write>(
    alloc: Global,
    err: &mut WatchedLines<E>,
    cause: &io::Error,
    word: &[u8],
) -> u8
    ensures memory { error_kind cause.now ≡ OutOfMemory
        → ReportsFirst failures.Memory (E.contents err.old.writer) (E.contents err.new.writer)
        (LacksLine err.new) result }
    ensures words { ¬ (error_kind cause.now ≡ OutOfMemory)
        → ReportsFirst failures.BadCommand (E.contents err.old.writer) (E.contents err.new.writer)
        (LacksLine err.new) result }
{
    if cause.kind() == io::ErrorKind::OutOfMemory {
        return err.report(&Failure::Memory);
    }
    let status = err.report(&Failure::BadCommand);
    let note = word_note(alloc, word).unwrap_or(String::new(alloc));
    put_note(note.as_str(), &mut err.writer);
    status
}

/// The note on a word that isn't UTF-8.
fn word_note(alloc: Global, word: &[u8]) -> Result<String, AllocError> {
    let mut note = String::from_str(alloc, "note: ")?;
    put_spelled(word, Form::Lines, &mut note)?;
    note.push_str(": not UTF-8: name a link to it\n")?;
    Ok(note)
}
