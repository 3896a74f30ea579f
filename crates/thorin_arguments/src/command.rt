//! The command lines: their words and texts, and what clap makes of them.

ghost use Rattle.thorin_arguments.specs.Grammar as grammar;
ghost use Rattle.std.specs.Prelude.{IfOk, option_map, Some, string_bytes, ◌≡◌};
ghost use Rattle.thorin_arguments.specs.Rules.{AreLines, AreLongNames, ArePeerWords, rule_in};
ghost use Rattle.clap.specs.{Walk.texts, Words.app_of, Words.new_rule, Words.rule_of};
ghost use Rattle.thorin_arguments.specs.{Rules.app_in, Versions.version_with};

use crate::peers::is_of_llvm;
use crate::texts::{
    CHECK_EXAMPLES, EXAMPLES, FIND_EXAMPLES, LIST_EXAMPLES, PACK_EXAMPLES, PEER_NOTES,
};
use clap::{Arg, ArgAction, Command};
use std::alloc::{AllocError, Global};

pub(crate) const VERSION: &'static str = "1.2.0";

/// A command: its names, what it does, and its words.
#[derive(Clone, Copy)]
struct Line<'a> {
    name: &'a str,
    full_name: &'static str,
    about: &'static str,
    words: &'static [Word],
}

/// A word that a command line may have.
#[derive(Clone, Copy)]
enum Word {
    /// `-o OUT`.
    Output,
    /// `-e EXEC`, as often as one likes, with its help.
    Executables(&'static str),
    /// `-v`.
    Verbose,
    /// An option without a value: its name and its help.
    Flag(&'static str, &'static str),
    /// An option with any value: its name, how help shows the value, its help.
    Value(&'static str, &'static str, &'static str),
    /// An option with a value, as often as one likes: its name, how help shows the value, its help.
    Values(&'static str, &'static str, &'static str),
    /// An option with one of some values: its name, how help shows the value, its help, the values.
    /// Help leaves it out where it has no help.
    Choice(&'static str, &'static str, &'static str, &'static [&'static str]),
    /// `INPUT`, as often as one likes.
    Inputs,
    /// One that must be there at its place: its name, how help shows it, its help.
    Place(&'static str, &'static str, &'static str),
}

const FILE: Word = Word::Place("file", "FILE", "The package");

const PACKED: Word = Word::Executables("Executables whose objects are packed, after all inputs");

const FORCE: Word = Word::Flag("force", "Write OUT even if it is an input");

const DECOMPRESS: Word = Word::Flag(
    "decompress",
    "Read inputs and executables that are compressed by zlib or zstd",
);

const DECOMPRESS_PACKAGE: Word = Word::Flag(
    "decompress",
    "Read a package that is compressed by zlib or zstd",
);

const DECOMPRESS_ALL: Word = Word::Flag(
    "decompress",
    "Read a package and executables that are compressed by zlib or zstd",
);

const ARCHIVES: Word = Word::Flag(
    "archives",
    "Pack the split objects that inputs have as archives",
);

const SKIP_NAMELESS: Word = Word::Flag("skip-nameless", "Skip units of EXECs that name no object");

const JSON: Word = Word::Flag("json", "Print a JSON object a line");

const OVERLAP: Word = Word::Flag(
    "allow-overlap",
    "Take inputs that make a package larger than they are",
);

const LAST_MACROS: Word = Word::Flag(
    "last-macros",
    "Keep only the last .debug_macro.dwo of each object",
);

const NO_MACROS: Word = Word::Flag("no-macros", "Leave out .debug_macro.dwo of all objects");

const SKIP_MISSING: Word = Word::Flag(
    "skip-missing",
    "Skip missing objects; their units must come from another input",
);

const PARTIAL: Word = Word::Flag(
    "partial",
    "Pack what is there; warn of each unit of EXEC that isn't",
);

const MISSING: Word = Word::Flag(
    "missing",
    "List the missing objects of EXECs instead of packing",
);

const PREFIX_MAP: Word = Word::Values(
    "prefix-map",
    "FROM=TO",
    "Look for objects of EXECs below TO where FROM is named",
);

const WARNINGS: Word = Word::Choice(
    "warnings",
    "WHICH",
    "Warn of type units that differ: each, once or none",
    &["each", "once", "none"],
);

/// The program's own line, and those of its commands.
const LINES: [Line<'static>; 5] = [
    Line {
        name: "thorin",
        full_name: "thorin",
        about: "Pack split DWARF objects into DWARF packages, and read such packages",
        words: &[],
    },
    Line {
        name: "pack",
        full_name: "thorin pack",
        about: "Pack objects into a package",
        words: &[
            Word::Output,
            PACKED,
            SKIP_MISSING,
            SKIP_NAMELESS,
            PARTIAL,
            MISSING,
            PREFIX_MAP,
            FORCE,
            DECOMPRESS,
            ARCHIVES,
            OVERLAP,
            LAST_MACROS,
            NO_MACROS,
            WARNINGS,
            Word::Verbose,
            Word::Inputs,
        ],
    },
    Line {
        name: "find",
        full_name: "thorin find",
        about: "Show what a package has of a unit",
        words: &[
            FILE,
            Word::Place(
                "kind",
                "KIND",
                "cu for a compilation unit, tu for a type unit",
            ),
            Word::Place("id", "ID", "The unit's identifier, in hexadecimal"),
            Word::Value("string", "N", "Print the string of a number instead"),
            Word::Value(
                "section",
                "SECTION",
                "Write the unit's bytes of a section instead, as they are",
            ),
            DECOMPRESS_PACKAGE,
            JSON,
        ],
    },
    Line {
        name: "list",
        full_name: "thorin list",
        about: "List the units of a package",
        words: &[
            Word::Flag(
                "sizes",
                "Add each unit's size in each kind of section, and totals",
            ),
            Word::Flag("names", "Add the names of each unit's source and object"),
            Word::Flag(
                "columns",
                "Print sizes in columns, and each total in per cent of the file",
            ),
            DECOMPRESS_PACKAGE,
            JSON,
            FILE,
        ],
    },
    Line {
        name: "check",
        full_name: "thorin check",
        about: "Check a package and report its errors",
        words: &[
            FILE,
            Word::Executables("Executables whose units have to be in the package"),
            SKIP_NAMELESS,
            DECOMPRESS_ALL,
            JSON,
        ],
    },
];

/// The words of LLVM's peer: those of `pack`, some of which say what a peer does in any case, and at
/// the end one that only it has. Past 2^32 bytes that would write a package that can't be read, or
/// leave inputs out, where this program refuses; so help leaves it out.
const PEER: [Word; 18] = [
    Word::Output,
    PACKED,
    Word::Flag("verify-only", "Check the package OUT instead of writing it"),
    SKIP_MISSING,
    SKIP_NAMELESS,
    PARTIAL,
    MISSING,
    PREFIX_MAP,
    FORCE,
    DECOMPRESS,
    ARCHIVES,
    OVERLAP,
    LAST_MACROS,
    NO_MACROS,
    WARNINGS,
    Word::Verbose,
    Word::Inputs,
    Word::Choice(
        "continue-on-cu-index-overflow",
        "HOW",
        "",
        &["continue", "soft-stop"],
    ),
];

/// The words of a peer: those of LLVM's, or all but the last.
fn peer_words(of_llvm: bool) -> &'static [Word]
    ensures { ArePeerWords of_llvm result.now }
{
    if of_llvm { &PEER } else { &PEER[..17] }
}

/// What `--version` prints behind the program's name: this version, and the commit, if any.
#[tactic(auto, unfolding(crate::specs::Versions::version_with))]
pub(crate) fn version_with(alloc: Global, version: &str, commit: &str) -> Result<String, AllocError>
    ensures { IfOk result (λ text. string_bytes text ≡ version_with version.now commit.now) }
{
    let mut text = String::from_str(alloc, version)?;
    if !commit.is_empty() {
        text.push_str(" (")?;
        text.push_str(commit)?;
        text.push_str(")")?;
    }
    Ok(text)
}

/// These lines.
fn lines() -> &'static [Line<'static>; 5]
    ensures { AreLines result.now }
{
    &LINES
}

/// The program's command line: `pack`, `find`, `list` and `check`.
pub(crate) fn command<'a>(alloc: Global, version: &'a str) -> Result<Command<'a>, AllocError>
    ensures { IfOk result (λ c. grammar.IsThorin (app_of c)) }
{
    let lines = lines();
    let mut command = command_of(alloc, &lines[0])?
        .version(version)
        .subcommand_required(true);
    let parts = &lines[1..];
    for line in parts {
        let Ok(part) = command_of(alloc, line) else {
            drop(command);
            return Err(AllocError);
        };
        command = command.subcommand(part)?;
    }
    command.bin_name("thorin")
}

/// The command line of `dwp` and `llvm-dwp`, under one of these names. As there, the last of
/// repeated options counts.
pub(crate) fn peer<'a>(
    alloc: Global,
    name: &'a str,
    version: &'a str,
) -> Result<Command<'a>, AllocError>
    ensures { IfOk result (λ c. grammar.IsPeer name.entry.now (app_of c)) }
{
    let line = Line {
        name,
        full_name: "",
        about: "Pack split DWARF objects into a DWARF package",
        words: peer_words(is_of_llvm(name)),
    };
    command_of(alloc, &line)?
        .version(version)
        .args_override_self(true)
        .bin_name(name)
}

/// A command by its line.
fn command_of<'a>(alloc: Global, line: &Line<'a>) -> Result<Command<'a>, AllocError>
    ensures { IfOk result (λ c. app_of c ≡ app_in line.now) }
{
    let mut command = Command::new(alloc, line.name)
        .about(line.about)
        .after_help(below(line.name));
    for word in line.words {
        command = command.arg(arg_of(alloc, *word))?;
    }
    Ok(command)
}

/// What stands below the options of a command, or of a peer.
fn below(name: &str) -> &'static str {
    match name {
        "thorin" => EXAMPLES,
        "pack" => PACK_EXAMPLES,
        "find" => FIND_EXAMPLES,
        "list" => LIST_EXAMPLES,
        "check" => CHECK_EXAMPLES,
        _ => PEER_NOTES,
    }
}

/// The command line of one of the commands alone, as its usage is shown.
pub(crate) fn part<'a>(alloc: Global, name: &str) -> Result<Command<'a>, AllocError> {
    let lines = lines();
    match lines.iter().find(|line| line.name == name) {
        Some(line) => command_of(alloc, line)?.bin_name(line.full_name),
        None => command_of(alloc, &lines[0]),
    }
}

/// The names of the commands that take an option, `-v` or `--verbose` say; none where it is of none.
pub(crate) fn takers_of(alloc: Global, option: &str) -> Result<String, AllocError> {
    let mut names = String::new(alloc);
    for line in lines() {
        let takes = line.words.iter().any(|word| {
            let short = match word {
                Word::Output => "-o",
                Word::Executables(_) => "-e",
                Word::Verbose => "-v",
                _ => "",
            };
            let long = long_name(*word);
            long.is_some() && (option == short || option.strip_prefix("--") == long)
        });
        if takes {
            names.push_str(if names.is_empty() { "" } else { ", " })?;
            names.push_str(line.name)?;
        }
    }
    Ok(names)
}

/// The names of the long options of the peer of this name, with those that clap adds.
pub(crate) fn long_names(alloc: Global, peer: &str) -> Result<Vec<&'static str>, AllocError>
    ensures { IfOk result (λ names. AreLongNames peer.now (texts names.items)) }
{
    let words = peer_words(is_of_llvm(peer));
    let mut names = Vec::new(alloc);
    for word in words {
        if let Some(name) = long_name(*word) {
            names.push(name)?;
        }
    }
    names.push("help")?;
    names.push("version")?;
    Ok(names)
}

/// The long name of an option.
fn long_name(word: Word) -> Option<&'static str>
    ensures { option_map (λ s. s.now) result ≡ (rule_in word).long }
{
    match word {
        Word::Output => Some("output"),
        Word::Executables(_) => Some("exec"),
        Word::Verbose => Some("verbose"),
        Word::Flag(name, _)
        | Word::Value(name, _, _)
        | Word::Values(name, _, _)
        | Word::Choice(name, _, _, _) => Some(name),
        Word::Inputs | Word::Place(_, _, _) => None,
    }
}

/// A word in clap's terms.
fn arg_of<'a>(alloc: Global, word: Word) -> Arg<'a>
    ensures { rule_of result ≡ rule_in word }
{
    match word {
        Word::Output => valued(
            alloc,
            "output",
            "OUT",
            "The package to write; - for standard output",
            ArgAction::Set,
        )
        .long("output")
        .short('o'),
        Word::Executables(help) => valued(alloc, "exec", "EXEC", help, ArgAction::Append)
            .long("exec")
            .short('e'),
        Word::Verbose => flag(alloc, "verbose", "Report each input").short('v'),
        Word::Flag(name, help) => flag(alloc, name, help),
        Word::Value(name, value, help) => {
            valued(alloc, name, value, help, ArgAction::Set).long(name)
        }
        Word::Values(name, value, help) => {
            valued(alloc, name, value, help, ArgAction::Append).long(name)
        }
        Word::Choice(name, value, help, values) => {
            valued(alloc, name, value, help, ArgAction::Set)
                .long(name)
                .value_parser(values)
                .hide_possible_values(true)
                .hide(help.is_empty())
        }
        Word::Inputs => valued(
            alloc,
            "input",
            "INPUT",
            "Objects to pack, in order",
            ArgAction::Append,
        )
        .num_args(0..),
        Word::Place(name, value, help) => {
            valued(alloc, name, value, help, ArgAction::Set).required(true)
        }
    }
}

/// A word that is a value or has one, which help shows so.
fn valued<'a>(
    alloc: Global,
    name: &'a str,
    value: &'a str,
    help: &'a str,
    action: ArgAction,
) -> Arg<'a>
    ensures { rule_of result
        ≡ record (new_rule name.entry.now) { value_names = 1; action = Some action } }
{
    Arg::new(alloc, name)
        .value_name(value)
        .help(help)
        .action(action)
}

/// An option without a value.
fn flag<'a>(alloc: Global, name: &'a str, help: &'a str) -> Arg<'a>
    ensures { rule_of result ≡ grammar.flag name.entry.now }
{
    Arg::new(alloc, name)
        .long(name)
        .help(help)
        .action(ArgAction::SetTrue)
}
