//! Calls of `dwp_inflate` and `dwp_zstd`: streams that Python's zlib or the `zstd` tool wrote, and
//! each error of a stream.

use dwp_inflate::inflate;
use dwp_zstd::decompress;
use test_rows::{Row, Said, place};

/// A stream and how many bytes it gives: these bytes, or its error.
pub fn inflated(row: Row<'_>, said: &mut Said) {
    said.bytes(&inflate(row.alloc, row.bytes(1), place(row.word(2))));
}

/// A stream of zstd's and how many bytes it gives: these bytes, or its error.
pub fn decoded(row: Row<'_>, said: &mut Said) {
    said.bytes(&decompress(row.alloc, row.bytes(1), place(row.word(2))));
}
