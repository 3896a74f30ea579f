//! Packs objects that are in memory.

use std::alloc::Global;
use thorin::{Bump, BytesSession, Error, Input, pack};

/// The package of these objects, or the first error.
pub fn package_of(alloc: Global, objects: &[&[u8]]) -> Result<Vec<u8>, Error> {
    let arena = Bump::new(alloc);
    let session = BytesSession::new(&arena);
    let mut inputs = Vec::new(alloc);
    for bytes in objects {
        inputs.push(Input::Bytes(bytes))?;
    }
    let packed = pack(alloc, &session, &inputs)?;
    for outcome in packed.outcomes {
        outcome?;
    }
    packed.file
}
