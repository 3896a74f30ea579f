//! Names and texts as they are printed: cut, spelled, plain or in JSON (RFC 8259, 7).

ghost use Rattle.std.specs.Prelude.{◌≡◌, ◌<◌, ◌++◌, IfOk, OnOk, string_bytes};
ghost use Rattle.std.specs.Option.{option_copied};
ghost use Rattle.thorin_print.specs.Shown as spec;
ghost use Rattle.thorin_print.specs.Spelled.{spelled, spelled_or, spelled_character, escape_in};

use crate::form::Form;
use std::alloc::{AllocError, Global};
use thorin_words::{is_control, printed, push_control, push_digits};

/// How many bytes of a long name are printed of its beginning, and of its end.
const END: usize = 2047;

/// How many in a line that many units may have.
const BRIEF_END: usize = 383;

/// Adds a text: `-` for none, in JSON a string or `null`. A control, a separator of lines and a mark
/// that turns the direction of a text are spelled by their numbers, as is each byte above ASCII of a
/// text that isn't UTF-8.
pub fn put_spelled_or(bytes: Option<&[u8]>, form: Form, text: &mut String) -> Result<(), AllocError>
    ensures { OnOk result (string_bytes text.new ≡ string_bytes text.old
        ++ spelled_or form (option_copied bytes.entry)) }
{
    match (bytes, form) {
        (None, Form::Lines) => text.push_str("-"),
        (None, Form::Json) => text.push_str("null"),
        (Some(bytes), Form::Lines) => put_spelled(bytes, form, text),
        (Some(bytes), Form::Json) => {
            text.push_str("\"")?;
            put_spelled(bytes, form, text)?;
            text.push_str("\"")
        }
    }
}

/// Adds a text as it is spelled.
pub fn put_spelled(bytes: &[u8], form: Form, text: &mut String) -> Result<(), AllocError>
    ensures { OnOk result (string_bytes text.new ≡ string_bytes text.old
        ++ spelled form bytes.now) }
{
    if let Ok(name) = str::from_utf8(bytes) {
        for c in name.chars() {
            put_character(c, form, text)?;
        }
        return Ok(());
    }
    for byte in bytes {
        if *byte < 128 {
            put_character(char::from(*byte), form, text)?;
        } else {
            text.push_str(escape_in(form))?;
            push_digits(text, u32::from(*byte))?;
        }
    }
    Ok(())
}

/// Adds a character.
fn put_character(c: char, form: Form, text: &mut String) -> Result<(), AllocError>
    ensures { OnOk result (string_bytes text.new ≡ string_bytes text.old
        ++ spelled_character form c) }
{
    if is_control(c) {
        return push_control(text, escape_in(form), c);
    }
    if matches!(form, Form::Json) && (c == '"' || c == '\\') {
        text.push_str("\\")?;
    }
    text.push(c)
}

/// What the two digits of a number stand behind.
fn escape_in(form: Form) -> &'static str
    ensures { result.now ≡ escape_in form }
{
    match form {
        Form::Lines => "\\x",
        Form::Json => "\\u00",
    }
}

/// A name as it is printed: of one of more than 4,096 bytes the beginning, `..` and the end; each
/// control character as `\x` and two digits, so that no name forges a line or commands a terminal.
/// What is spelled so is cut once more. Errors: want of memory.
pub fn shown(alloc: Global, name: &str) -> Result<String, AllocError>
    ensures { IfOk result (λ text. string_bytes text ≡ spec.shown name.now) }
{
    shown_by(alloc, END, name)
}

/// A name as it is printed in a line that many units may have, so that a long one which they share
/// isn't printed whole for each: of one of more than 768 bytes the beginning, `..` and the end.
/// Errors: want of memory.
pub fn shown_briefly(alloc: Global, name: &str) -> Result<String, AllocError>
    ensures { IfOk result (λ text. string_bytes text ≡ spec.shown_briefly name.now) }
{
    shown_by(alloc, BRIEF_END, name)
}

/// A name as it is printed, of a long one two ends.
#[tactic(auto, unfolding(crate::specs::Shown::shown_by))]
fn shown_by(alloc: Global, end: usize, name: &str) -> Result<String, AllocError>
    requires some { 0 < end }
    requires small { end < 65536 }
    ensures { IfOk result (λ text. string_bytes text ≡ spec.shown_by end name.now) }
{
    let kept = cut(alloc, end, name)?;
    let spelled = printed(alloc, kept.as_str())?;
    cut(alloc, end, spelled.as_str())
}

/// A text, cut where it is long.
#[tactic(auto, using(crate::proofs::Cuts::is_whole, crate::proofs::Cuts::is_cut))]
fn cut(alloc: Global, end: usize, text: &str) -> Result<String, AllocError>
    requires some { 0 < end }
    requires small { end < 65536 }
    ensures { IfOk result (λ kept. string_bytes kept ≡ spec.cut end text.now) }
{
    let most = 2 * end + 2;
    if text.len() <= most {
        return String::from_str(alloc, text);
    }
    let first = text.floor_char_boundary(end);
    let last = text.floor_char_boundary(text.len() - end);
    let front = &text[..first];
    let back = &text[last..];
    format!(in alloc; "{front}..{back}")
}
