//! The words of a text, as linkers read those of a response file.

ghost use Rattle.std.specs.Prelude.{◌≡◌, ◌≤◌, length, IfOk};
ghost use Rattle.thorin_words.specs.Words.{behind, keeps, is_between, is_space, is_mark, IsNext};

use std::alloc::AllocError;

/// What is known where a byte of the text stands.
#[derive(Clone, Copy)]
pub(crate) enum LexerState {
    /// Between two words.
    Between,
    /// In a word, behind this quotation mark where there is one.
    Inside(Option<u8>),
    /// In a word, directly behind a backslash.
    Escaped(Option<u8>),
}

impl LexerState {
    /// The state behind a byte.
    pub(crate) fn behind(self, byte: u8) -> LexerState
        ensures { result ≡ behind self byte }
    {
        let quote = match self {
            LexerState::Between => None,
            LexerState::Inside(quote) => quote,
            LexerState::Escaped(quote) => return LexerState::Inside(quote),
        };
        match quote {
            _ if byte == b'\\' => LexerState::Escaped(quote),
            Some(mark) if byte == mark => LexerState::Inside(None),
            Some(_) => LexerState::Inside(quote),
            None if is_space(byte) => LexerState::Between,
            None if is_mark(byte) => LexerState::Inside(Some(byte)),
            None => LexerState::Inside(None),
        }
    }

    /// Whether a byte in this state belongs to the word.
    pub(crate) fn keeps(self, byte: u8) -> bool
        ensures { result ≡ keeps self byte }
    {
        match self {
            LexerState::Escaped(_) => true,
            LexerState::Inside(Some(mark)) => byte != b'\\' && byte != mark,
            _ => byte != b'\\' && !is_mark(byte) && !is_space(byte),
        }
    }

    pub(crate) fn is_between(self) -> bool
        ensures { result ≡ is_between self }
    {
        matches!(self, LexerState::Between)
    }
}

/// A blank, or one of the five control characters from the tabulator to the carriage return.
fn is_space(byte: u8) -> bool
    ensures { result ≡ is_space byte }
{
    byte == b' ' || (b'\t'..=b'\r').contains(&byte)
}

fn is_mark(byte: u8) -> bool
    ensures { result ≡ is_mark byte }
{
    byte == b'\'' || byte == b'"'
}

/// Reads the first word that begins at a place of a text or behind it, into a word's room, and
/// answers the place behind it; none where there is no more word. Whitespace separates words; a
/// quotation mark, `'` or `"`, takes what stands up to the next one of its kind into the word, and
/// a backslash the byte behind it, also between quotation marks. The text's end ends all. Errors:
/// want of memory.
#[tactic(auto, using(crate::proofs::Splitting::anew, crate::proofs::Splitting::at_end, crate::proofs::Splitting::further), unfolding(crate::specs::Words::words_of))]
pub(crate) fn next_word(
    text: &[u8],
    start: usize,
    word: &mut Vec<u8>,
) -> Result<Option<usize>, AllocError>
    requires { start ≤ length text.now }
    ensures { IfOk result (IsNext text.now start word.new.items) }
{
    word.clear();
    let mut state = LexerState::Between;
    for i in start..text.len() {
        let byte = text[i];
        let was = state;
        state = was.behind(byte);
        if was.keeps(byte) {
            word.push(byte)?;
        } else if state.is_between() && !was.is_between() {
            return Ok(Some(i + 1));
        }
    }
    if state.is_between() {
        Ok(None)
    } else {
        Ok(Some(text.len()))
    }
}
