//! The forms in which a command prints what it tells.

/// In lines, or as JSON objects (RFC 8259), each on a line.
#[derive(Clone, Copy)]
pub enum Form {
    /// Lines.
    Lines,
    /// JSON objects.
    Json,
}
