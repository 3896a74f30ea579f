//! A command line is read, and done or refused: by clap, and where options don't go together that
//! clap takes.

ghost use Rattle.std.specs.Prelude.{IfOk, is_some, List, Option, if◌then◌else◌, ◌||◌, ◌≡◌};
ghost use Rattle.std.specs.Prelude.{option_map};
ghost use Rattle.clap.specs.{Walk.Text, Words.app_of, Words.found_of, Words.rows_of};
ghost use Rattle.thorin_arguments.specs.Asked.{Does, IsCallBy, IsCallOf, words_in};
ghost use Rattle.thorin_arguments.specs.{Grammar.IsLine, Peers.peer_of};
ghost use Rattle.thorin_arguments.specs.Reading.{are_wrong, AreReadAs, IsReadAs, IsTested};
ghost use Rattle.thorin_arguments.specs.Wrong.{is_given, is_wrong_pack, is_wrong_peer, lack_marks};

use crate::asking::{Commands, dispatch, has_flag, value_of, values_of};
use crate::command;
use crate::peers::{completed, cut_at_last, is_peer};
use clap::error::ErrorKind;
use clap::{ArgMatches, Command, Error};
use std::alloc::{AllocError, Global};
use thorin_words::printed;

const PACK_TIP: &'static str = "packing is a command: 'thorin pack -o OUT ..'";

const CHECK_TIP: &'static str = "checking is a command: 'thorin check OUT -e EXEC'";

const EXEC_TIP: &'static str = "an executable is named behind '-e'";

/// Does what a command line asks for, and answers the status. Under the names `dwp` and `llvm-dwp`,
/// with a target or a version in them too, it takes the command lines of those programs. `commit`
/// is the one that the program was built from, where that is known, for `--version`.
pub fn run<C: Commands>(alloc: Global, words: &[String], commit: &str, commands: &mut C) -> u8
    ensures called { Does C.does (IsCallOf (words_in words.now)) commands.old result commands.new }
{
    let Ok(version) = command::version_with(alloc, command::VERSION, commit) else {
        return commands.lack_memory();
    };
    let version = version.as_str();
    match peer_name(words) {
        Some(name) => match completed(alloc, name, words) {
            Ok(whole) => run_as(alloc, Some(name), version, whole.as_slice(), commands),
            Err(AllocError) => commands.lack_memory(),
        },
        None => run_as(alloc, None, version, words, commands),
    }
}

/// Does what the words of a peer's line ask for, or those of `thorin` where no peer is named.
fn run_as<C: Commands>(
    alloc: Global,
    peer: Option<&str>,
    version: &str,
    words: &[String],
    commands: &mut C,
) -> u8
    ensures { (line : List Text) → AreReadAs (option_map (λ s. s.now) peer.entry) line
        (words_in words.now) → Does C.does (IsCallBy (option_map (λ s. s.now) peer.entry) line)
        commands.old result commands.new }
{
    let is_peer = peer.is_some();
    let Ok(mut command) = command_line(alloc, peer, version) else {
        return commands.lack_memory();
    };
    let read = read_by(alloc, &mut command, is_peer, words);
    drop(command);
    match read {
        Ok(matches) => dispatch(&matches, is_peer, commands),
        Err(error) if error.kind() == ErrorKind::OutOfMemory => commands.lack_memory(),
        Err(error) if error.use_stderr() => match refusal(alloc, words, version, &error) {
            Ok(text) => commands.refuse(&text),
            Err(AllocError) => commands.lack_memory(),
        },
        Err(error) => commands.show(&error),
    }
}

/// Why words are refused, with a tip where there is one: what is said of them as they are printed,
/// since some may have characters that aren't; this error where they aren't refused then.
fn refusal(
    alloc: Global,
    words: &[String],
    version: &str,
    error: &Error,
) -> Result<String, AllocError> {
    let mut shown = Vec::with_capacity(alloc, words.len())?;
    for word in words {
        shown.push(printed(alloc, word.as_str())?)?;
    }
    let peer = peer_name(shown.as_slice());
    // As errors show it, the value of LLVM's option may be left out.
    let mut command = command_line(alloc, peer, version)?.mut_arg(
        "continue-on-cu-index-overflow",
        |arg| { Ok(arg.num_args(0..=1).require_equals(true)) },
    )?;
    let again = read_by(alloc, &mut command, peer.is_some(), shown.as_slice());
    drop(command);
    match again {
        Ok(_matches) => format!(in alloc; "{error}"),
        Err(own) if own.kind() == ErrorKind::OutOfMemory => Err(AllocError),
        Err(own) => with_tip(alloc, shown.as_slice(), &own),
    }
}

/// What is said of words that are refused; of `thorin`'s with a tip in the place of clap's.
fn with_tip(alloc: Global, words: &[String], error: &Error) -> Result<String, AllocError> {
    let text = format!(in alloc; "{error}")?;
    let Some((front, usage)) = text.as_str().split_once("\n\nUsage: ") else {
        return Ok(text);
    };
    let (said, advice) = front.split_once("\n\n  tip: ").unwrap_or((front, ""));
    let tip = match error.kind() {
        _ if peer_name(words).is_some() => String::new(alloc),
        ErrorKind::InvalidSubcommand if advice.is_empty() => String::from_str(alloc, PACK_TIP)?,
        ErrorKind::UnknownArgument => tip_on(alloc, said, usage)?,
        _ => String::new(alloc),
    };
    if tip.is_empty() {
        return Ok(text);
    }
    format!(in alloc; "{said}\n\n  tip: {tip}\n\nUsage: {usage}")
}

/// A tip on a word that a command doesn't take, by what is said of it and the usage; may be empty.
fn tip_on(alloc: Global, said: &str, usage: &str) -> Result<String, AllocError> {
    let word = said.split('\'').nth(1).unwrap_or("");
    if word == "--verify-only" {
        return String::from_str(alloc, CHECK_TIP);
    }
    if !word.starts_with("-") && usage.starts_with("thorin check") {
        return String::from_str(alloc, EXEC_TIP);
    }
    let takers = command::takers_of(alloc, word)?;
    if takers.is_empty() {
        return Ok(takers);
    }
    format!(in alloc; "'{word}' is an option of {takers}")
}

/// Reads the words by a command line, of a peer where it is one.
fn read_by<'a>(
    alloc: Global,
    command: &mut Command<'a>,
    is_peer: bool,
    words: &'a [String],
) -> Result<ArgMatches<'a>, Error>
    ensures { (peer : Option Text) → is_some peer ≡ is_peer → IsLine peer (app_of command.old)
        → (line : List Text) → AreReadAs peer line (words_in words.now)
        → IsReadAs peer line result }
{
    let matches = command.try_get_matches_from_mut(words)?;
    tested(alloc, command, is_peer, &matches)?;
    Ok(matches)
}

/// Whether nothing is wrong beside what clap tests; else what is said, with the command's usage.
#[tactic(auto, using(crate::proofs::Matched::no_text))]
fn tested(
    alloc: Global,
    command: &mut Command<'_>,
    is_peer: bool,
    matches: &ArgMatches<'_>,
) -> Result<(), Error>
    ensures { IsTested is_peer matches.now result }
{
    let Some(text) = wrong_in(is_peer, matches) else {
        return Ok(());
    };
    let Some((name, _words)) = matches.subcommand() else {
        return Err(command.error(ErrorKind::ArgumentConflict, text)?);
    };
    let mut own = command::part(alloc, name)?;
    let error = own.error(ErrorKind::ArgumentConflict, text);
    drop(own);
    Err(error?)
}

fn command_line<'a>(
    alloc: Global,
    peer: Option<&'a str>,
    version: &'a str,
) -> Result<Command<'a>, AllocError>
    ensures { IfOk result (λ c. IsLine (option_map (λ s. s.now) peer.entry) (app_of c)) }
{
    match peer {
        Some(name) => command::peer(alloc, name, version),
        None => command::command(alloc, version),
    }
}

/// The program's name without folders, where it is that of a peer.
fn peer_name(words: &[String]) -> Option<&str>
    ensures { option_map (λ s. s.now) result ≡ peer_of (words_in words.now) }
{
    let path = words.first()?.as_str();
    is_peer(path).then_some(cut_at_last(path, '/').1)
}

/// What is wrong with the matches of a line, of a peer where it is one, if anything is.
fn wrong_in(is_peer: bool, matches: &ArgMatches<'_>) -> Option<&'static str>
    ensures { is_some result ≡ are_wrong is_peer matches.now }
{
    if is_peer {
        return wrong_in_packing(true, matches);
    }
    let (name, words) = matches.subcommand()?;
    match name {
        "pack" => wrong_in_packing(false, words),
        "find" if is_given(words, "section") && is_given(words, "string") => {
            Some("the argument '--section <SECTION>' cannot be used with '--string <N>'")
        }
        "find" if is_given(words, "section") && has_flag(words, "json") => {
            Some("the argument '--section <SECTION>' cannot be used with '--json'")
        }
        "list" if has_flag(words, "columns") && has_flag(words, "names") => {
            Some("the argument '--columns' cannot be used with '--names'")
        }
        "list" if has_flag(words, "columns") && has_flag(words, "json") => {
            Some("the argument '--columns' cannot be used with '--json'")
        }
        _ => None,
    }
}

/// What is wrong with words of `pack` or of a peer, whose package a single executable names.
fn wrong_in_packing(is_peer: bool, matches: &ArgMatches<'_>) -> Option<&'static str>
    ensures { is_some result ≡ (if is_peer then is_wrong_peer (rows_of (found_of matches.now))
        else is_wrong_pack (rows_of (found_of matches.now))) }
{
    let lists_missing = has_flag(matches, "missing");
    if !lists_missing && !is_given(matches, "output") {
        let executables = values_of(matches, "exec").unwrap_or(&[]).len();
        if is_peer && executables > 1 {
            return Some("--output <OUT> is required with more than one --exec <EXEC>");
        }
        if !is_peer || executables == 0 {
            return Some("the following required arguments were not provided:\n  --output <OUT>");
        }
    }
    if lists_missing && !is_given(matches, "exec") {
        Some("--missing needs --exec <EXEC>")
    } else if lack_marks(matches) {
        Some("the value of --prefix-map <FROM=TO> has no `=`")
    } else if has_flag(matches, "last-macros") && has_flag(matches, "no-macros") {
        Some("the argument '--last-macros' cannot be used with '--no-macros'")
    } else {
        None
    }
}

/// Whether an option with a value is given.
fn is_given(matches: &ArgMatches<'_>, name: &str) -> bool
    ensures { result ≡ is_given (rows_of (found_of matches.now)) name.now }
{
    value_of(matches, name).is_some()
}

/// Whether one of the words FROM=TO has no `=`.
fn lack_marks(matches: &ArgMatches<'_>) -> bool
    ensures { result ≡ lack_marks (rows_of (found_of matches.now)) }
{
    values_of(matches, "prefix-map")
        .unwrap_or(&[])
        .iter()
        .any(|word| !word.as_bytes().contains(&b'='))
}
