//! The command lines of peers: the names under which the program takes them, and their words, whose
//! long options may be cut short.

ghost use Rattle.thorin_arguments.specs.Peers as peers;
ghost use Rattle.std.specs.Prelude.{IfOk, option_map, Some, string_bytes, ◌<◌, ◌≡◌};
ghost use Rattle.clap.specs.{Lexer.long_of, Lexer.strip_byte, Walk.texts};
ghost use Rattle.thorin_arguments.specs.{Asked.words_in, Reading.AreReadAs};
ghost use Rattle.thorin_arguments.specs.Whole as spec;

use crate::command;
use std::alloc::{AllocError, Global};

const OVERFLOW: &'static str = "-continue-on-cu-index-overflow";

/// Whether a program is called as a peer: behind its folders, its last part is `dwp`, as in
/// `llvm-dwp` and `x86_64-linux-gnu-dwp`, or `dwp` and a version, as in `llvm-dwp-19`.
#[tactic(auto, unfolding(crate::specs::Peers::is_peer, crate::specs::Peers::has_peer_name, crate::specs::Peers::is_dwp))]
pub fn is_peer(program: &str) -> bool
    ensures { result ≡ peers.is_peer program.now }
{
    let (_folders, name) = cut_at_last(program, '/');
    let (front, last) = cut_at_last(name, '-');
    last == "dwp"
        || (matches!(last.as_bytes().first(), Some(byte) if *byte > 47 && *byte < 58)
            && cut_at_last(front, '-').1 == "dwp")
}

/// What stands before the last of a mark, and behind it; where there is none all is behind it.
pub(crate) fn cut_at_last(text: &str, mark: char) -> (&str, &str)
    requires { mark < 128 }
    ensures front { result.0.now ≡ peers.before_last mark text.now }
    ensures last { result.1.now ≡ peers.last_part mark text.now }
{
    match text.rsplit_once(mark) {
        Some((front, last)) => (front, last),
        None => ("", text),
    }
}

/// The words of this peer's line as its grammar has them: long options up to `--` in full.
pub(crate) fn completed(
    alloc: Global,
    name: &str,
    words: &[String],
) -> Result<Vec<String>, AllocError>
    ensures { IfOk result (λ whole.
        AreReadAs (Some name.now) (words_in words.now) (words_in whole.items)) }
{
    let of_llvm = is_of_llvm(name);
    let names = command::long_names(alloc, name)?;
    let mut whole = Vec::with_capacity(alloc, words.len())?;
    let mut takes_options = true;
    for word in words {
        takes_options = takes_options && word.as_str() != "--";
        if takes_options {
            whole.push(whole_word(alloc, of_llvm, names.as_slice(), word.as_str())?)?;
        } else {
            whole.push(String::from_str(alloc, word.as_str())?)?;
        }
    }
    Ok(whole)
}

/// A word, as one of LLVM's with the dashes that it has to have.
fn whole_word(
    alloc: Global,
    of_llvm: bool,
    names: &[&str],
    word: &str,
) -> Result<String, AllocError>
    ensures { IfOk result (λ text. string_bytes text
        ≡ spec.whole_word of_llvm (texts names.now) word.now) }
{
    if of_llvm && (word == "-version" || word == "-help" || begins(OVERFLOW, word)) {
        let dashed = format!(in alloc; "-{word}")?;
        whole_long(alloc, names, dashed.as_str())
    } else {
        whole_long(alloc, names, word)
    }
}

/// A word, with its whole name where it is a long option; LLVM's takes a value that is left out.
fn whole_long(alloc: Global, names: &[&str], word: &str) -> Result<String, AllocError>
    ensures { IfOk result (λ text. string_bytes text ≡ spec.whole_long (texts names.now) word.now) }
{
    let Some((start, value)) = long_of(word) else {
        return String::from_str(alloc, word);
    };
    let name = whole_name(names, start);
    let mut text = String::from_str(alloc, "--")?;
    text.push_str(name)?;
    match value {
        Some(value) => {
            text.push_str("=")?;
            text.push_str(value)?;
        }
        None if name == "continue-on-cu-index-overflow" => text.push_str("=continue")?,
        None => {}
    }
    Ok(text)
}

/// The one of these names that begins so; this name where none does, or several.
fn whole_name<'a>(names: &[&'a str], name: &'a str) -> &'a str
    ensures { result.now ≡ spec.whole_name (texts names.now) name.now }
{
    let mut whole = name;
    let mut is_begun = false;
    for other in names {
        if begins(name, other) {
            if is_begun {
                return name;
            }
            whole = *other;
            is_begun = true;
        }
    }
    whole
}

/// Whether a peer's name is that of LLVM's.
pub(crate) fn is_of_llvm(name: &str) -> bool
    ensures { result ≡ spec.is_of_llvm name.now }
{
    begins("llvm-", name)
}

/// Whether a text begins so.
fn begins(start: &str, text: &str) -> bool
    ensures { result ≡ spec.begins start.now text.now }
{
    text.as_bytes().starts_with(start.as_bytes())
}

/// A word `--NAME` or `--NAME=VALUE`, as its name and its value.
fn long_of(word: &str) -> Option<(&str, Option<&str>)>
    ensures { option_map (λ p. (p.0.now, option_map (λ s. s.now) p.1)) result ≡ long_of word.now }
{
    let rest = behind_dash(behind_dash(word)?)?;
    if rest.is_empty() {
        return None;
    }
    match rest.split_once('=') {
        Some((name, value)) => Some((name, Some(value))),
        None => Some((rest, None)),
    }
}

/// What stands behind a dash.
fn behind_dash(word: &str) -> Option<&str>
    ensures { option_map (λ s. s.now) result ≡ strip_byte 45 word.now }
{
    word.strip_prefix('-')
}
