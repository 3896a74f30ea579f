//! What the program prints: failures, lines through a buffer, texts as they are spelled, plain and in
//! JSON, and names as they are shown.
#![tactic(auto)]

mod form;
mod line_output;
mod output;
mod spelled;

pub use form::Form;
pub use line_output::{LineOutput, WatchedLines, tell_taken};
pub use output::{Failure, answer, buffer, flush, print, show};
pub use spelled::{put_spelled, put_spelled_or, shown, shown_briefly};
