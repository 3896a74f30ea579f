//! The commit that the program is built from.

/// The commit's short name. It is empty here: `.ci/prove` writes it into the copy that `./build`
/// proves, where git knows it and nothing is changed since.
pub(crate) const COMMIT: &'static str = "";
