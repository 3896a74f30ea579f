//! `@FILE` among the words of a command line: a response file, as linkers have it.

ghost use Rattle.std.specs.Prelude.{IfOk, List, map, Option, Some, [], ℕ, ◌+◌, ◌<◌, ◌∷◌, ◌≡◌, ◌≤◌};
ghost use Rattle.std.specs.Prelude.{IfErr, IfSome, length, OnOk, option_map, string_bytes};
ghost use Rattle.thorin_words.specs.Responses.{Answers, AreRead, is_among, IsOfReading, words_in};
ghost use Rattle.thorin_words.specs.{Responses.IsRead, Responses.Opens, Words.words_of};
ghost use Rattle.thorin_words.specs.declared.responses.ResponseError.TheVariants as errors;

use crate::words::next_word;
use std::alloc::{AllocError, AllocFailed, Global};
use std::convert::AsStr;
use std::str;

/// How many response files a command line may name, those among them that response files name.
const MOST_FILES: u32 = 2000;

/// How many bytes these files, each as often as it is named, and the words beside may cost.
const MOST_BYTES: u32 = 1 << 26;

/// How many of them may be inside one another.
const MOST_DEEP: usize = 64;

/// What a word costs beside its bytes.
const BYTES_OF_A_WORD: usize = 32;

/// Where response files are read.
pub trait ResponseFiles {
    ghost use Rattle.thorin_words.specs.declared.responses.ResponseError.{ResponseError};

    // What a read of the file of a name may give: its text, or that there is no such file.
    ghost offer: { Self → List ℕ → Option (List ℕ) → Type 0 };

    // By which errors it may fail.
    ghost fails: { Self → List ℕ → ResponseError → Type 0 };

    /// The text of the file of a name, none where there is no such file. Errors: `Unreadable`,
    /// `TooLong` where it has more bytes than `most`, `Memory`.
    fn text(&self, name: &str, most: u32) -> Result<Option<Vec<u8>>, ResponseError>
        ensures offered { IfOk result (λ text. offer self.now name.now
            (option_map (λ bytes. bytes.items) text)) }
        ensures within { IfOk result (λ text. IfSome text (λ bytes. length bytes.items ≤ most)) }
        ensures failed { IfErr result (λ e. fails self.now name.now e) }
        ensures long { IfErr result (λ e. e ≡ errors.TooLong
            → (bytes : List ℕ) × offer self.now name.now (Some bytes) × (most < length bytes)) }
        ensures outside { IfErr result IsOfReading };
}

/// Why the words of a command line can't be told.
#[derive(Debug, Drop)]
pub enum ResponseError {
    /// A response file is inside itself, over any number of steps; its name.
    Inside(String),
    /// A response file is inside as many others as may be inside one another; its name.
    TooDeep(String),
    /// A response file can't be read.
    Unreadable,
    /// There are too many response files.
    TooMany,
    /// The response files have too many bytes together.
    TooLong,
    /// A word isn't UTF-8.
    NotUtf8,
    /// Memory ran out.
    Memory,
}

impl From<AllocError> for ResponseError {
    ghost from_gives = { λ _ error. error ≡ errors.Memory };

    fn from(_e: AllocError) -> ResponseError {
        ResponseError::Memory
    }
}

impl<T: Drop> From<AllocFailed<T>> for ResponseError {
    ghost from_gives = { λ _ error. error ≡ errors.Memory };

    fn from(_e: AllocFailed<T>) -> ResponseError {
        ResponseError::Memory
    }
}

/// How many files may still be named, and how many bytes may still be held.
#[derive(Clone, Copy)]
struct Allowance {
    files: u32,
    bytes: u32,
}

/// A program's name, and the words of its command line with the words of response files in place of
/// each `@FILE`. Those of a file may name files again. A name for which there is no file stays a
/// word. Errors: `Inside` where a file is inside itself, `TooDeep` where one is inside 64 others;
/// `Unreadable` where one that is named can't be read; `TooMany` where more than 2,000 are named;
/// `TooLong` where one is too long, or all, each as often as it is named, and 32 for each word that
/// stands for itself, have more than 67,108,864 bytes; `NotUtf8` where a word of one isn't UTF-8;
/// `Memory`.
pub fn expanded<S: AsStr, F: ResponseFiles>(
    alloc: Global,
    files: &F,
    program: &str,
    line: &[S],
) -> Result<Vec<String>, ResponseError>
    ensures { Answers (F.offer files.now) (F.fails files.now) program.now (map S.text line.now)
        result }
{
    let mut all = program_alone(alloc, program)?;
    let mut names = Vec::new(alloc);
    let left = Allowance {
        files: MOST_FILES,
        bytes: MOST_BYTES,
    };
    add_line(files, line, &mut names, left, &mut all)?;
    Ok(all)
}

/// A program's name, and no word behind it.
#[tactic(auto, using(crate::proofs::Standing::alone))]
fn program_alone(alloc: Global, program: &str) -> Result<Vec<String>, ResponseError>
    ensures alone { IfOk result (λ all. words_in all ≡ program.now ∷ []) }
    ensures cause { IfErr result (λ e. e ≡ errors.Memory) }
{
    let mut all = Vec::new(alloc);
    all.push(String::from_str(alloc, program)?)?;
    Ok(all)
}

/// Adds the words of a line, with those of files in place of each `@FILE`. Answers what is left.
fn add_line<S: AsStr, F: ResponseFiles>(
    files: &F,
    line: &[S],
    names: &mut Vec<String>,
    left: Allowance,
    all: &mut Vec<String>,
) -> Result<Allowance, ResponseError>
    ensures { AreRead (F.offer files.now) (F.fails files.now) (words_in names.old)
        (map S.text line.now) [] (words_in all.old) (words_in all.new) left result }
{
    let mut left = left;
    for word in line {
        left = add_word(files, word.as_str(), names, left, all)?;
    }
    Ok(left)
}

/// Adds a word, or those of the file that it names. Answers what is left.
#[cycle(responses)]
fn add_word<F: ResponseFiles>(
    files: &F,
    word: &str,
    names: &mut Vec<String>,
    left: Allowance,
    all: &mut Vec<String>,
) -> Result<Allowance, ResponseError>
    ensures read { IsRead (F.offer files.now) (F.fails files.now) (words_in names.old) word.now
        (words_in all.old) (words_in all.new) left result }
    ensures names { OnOk result (words_in names.new ≡ words_in names.old) }
    ensures files { IfOk result (λ now. now.files ≤ left.files) }
{
    let alloc = *all.allocator();
    match open_word(files, alloc, word, names.as_slice(), left)? {
        None => {
            let left = left_after(left, BYTES_OF_A_WORD)?;
            all.push(String::from_str(alloc, word)?)?;
            Ok(left)
        }
        Some((name, text, inside)) => {
            let before = names.len();
            names.push(name)?;
            let result = add_text(files, text.as_slice(), names, inside, all);
            names.truncate(before);
            result
        }
    }
}

/// Adds the words of a text, with those of files in place of each `@FILE`. Answers what is left.
#[cycle(responses)]
fn add_text<F: ResponseFiles>(
    files: &F,
    text: &[u8],
    names: &mut Vec<String>,
    left: Allowance,
    all: &mut Vec<String>,
) -> Result<Allowance, ResponseError>
    ensures read { AreRead (F.offer files.now) (F.fails files.now) (words_in names.old)
        (words_of text.now) [] (words_in all.old) (words_in all.new) left result }
    ensures names { OnOk result (words_in names.new ≡ words_in names.old) }
    ensures files { IfOk result (λ now. now.files ≤ left.files) }
{
    let mut left = left;
    let mut at = 0;
    let mut word = Vec::new(*all.allocator());
    while let Some(end) = next_word(text, at, &mut word)? {
        at = end;
        let word = match str::from_utf8(word.as_slice()) {
            Ok(word) => word,
            Err(_error) => return Err(ResponseError::NotUtf8),
        };
        left = add_word(files, word, names, left, all)?;
    }
    Ok(left)
}

/// The file that a word names inside the files of these names: its name, its text, and what is left
/// after it. None where the word stands for itself.
fn open_word<F: ResponseFiles>(
    files: &F,
    alloc: Global,
    word: &str,
    names: &[String],
    left: Allowance,
) -> Result<Option<(String, Vec<u8>, Allowance)>, ResponseError>
    ensures { Opens (F.offer files.now) (F.fails files.now) (map string_bytes names.now) word.now
        left result }
{
    let Some(name) = word.strip_prefix("@") else {
        return Ok(None);
    };
    if has_name(names, name) {
        return Err(ResponseError::Inside(String::from_str(alloc, name)?));
    }
    let Some(text) = files.text(name, left.bytes)? else {
        return Ok(None);
    };
    if MOST_DEEP <= names.len() {
        return Err(ResponseError::TooDeep(String::from_str(alloc, name)?));
    }
    if left.files == 0 {
        return Err(ResponseError::TooMany);
    }
    let fewer = Allowance {
        files: left.files - 1,
        bytes: left.bytes,
    };
    let inside = left_after(fewer, text.len())?;
    Ok(Some((String::from_str(alloc, name)?, text, inside)))
}

/// Whether a name is among those of files.
fn has_name(names: &[String], name: &str) -> bool
    ensures { result ≡ is_among (map string_bytes names.now) name.now }
{
    names.iter().any(|outer| outer.as_str() == name)
}

/// What is left after so many bytes.
fn left_after(left: Allowance, count: usize) -> Result<Allowance, ResponseError>
    ensures files { IfOk result (λ now. now.files ≡ left.files) }
    ensures bytes { IfOk result (λ now. now.bytes + count ≡ left.bytes) }
    ensures cause { IfErr result (λ e. (e ≡ errors.TooLong) × (left.bytes < count)) }
{
    if count > left.bytes as usize {
        return Err(ResponseError::TooLong);
    }
    Ok(Allowance {
        files: left.files,
        bytes: left.bytes - count as u32,
    })
}
