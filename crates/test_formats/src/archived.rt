//! Calls of `dwp_archive`: archives in each variant, and each error.

use dwp_archive::{Member, members};
use test_rows::{Hex, Row, Said, Text};

/// An archive: the name and the content of each member, or its error.
pub fn archived(row: Row<'_>, said: &mut Said) {
    match members(row.alloc, row.bytes(1)) {
        Ok(members) => put_members(&members, said),
        Err(error) => said.error(&error),
    }
}

fn put_members(members: &[Member<'_>], said: &mut Said) {
    said.put(&members.len());
    for member in members {
        said.put(&(Text(member.name()), Hex(member.content())));
    }
}
