//! Files with plain sections in place of compressed ones.

ghost use Rattle.std.specs.Prelude.{◌≡◌, ◌≢◌, pos, length, Ok, Err, Some, None};
ghost use Rattle.dwp_decompress.specs.Result.{decompressed_of};
ghost use Rattle.dwp_decompress.specs.declared.asked.Asked.TheVariants.{All};
ghost use Rattle.thorin_c.specs.Plain.{Decompresses, NeedsRoom, IsError, TellsError, IsPlainStatus};
ghost use Rattle.thorin_c.specs.Plain.{status_of};

use crate::status::{
    DAMAGED, DAMAGED_ZSTD, DONE, MALFORMED_FILE, NO_MEMORY, NOT_COMPRESSED, TOO_SMALL,
    UNKNOWN_COMPRESSION, UNWRITABLE,
};
use dwp_decompress::{Asked, DecompressError, decompressed, plain_length};
use std::alloc::Global;

/// Writes a file with plain sections in place of compressed ones to the beginning of `out`, and
/// answers 0; its length is in `size`. 14 where no section is compressed: the file is to be used as
/// it is. 10 where `out` is too small, and `size` is the length that is needed by what the headers
/// of compressed sections say: no stream is read then, and no memory taken. 3 where the file can't be
/// read, 15 where a compressed section's header is damaged or its stream of zlib's, 18 where that of
/// zstd's is, 16 where it is compressed in another way, 17 where the plain file can't be written, 13
/// where memory ran out. `out` is left as it is but at 0, and `size` but at 0 and 10.
#[tactic(auto, using(crate::proofs::Files::plain_put, crate::proofs::Files::room_needed, crate::proofs::Files::told, crate::proofs::Files::told_early, crate::proofs::Files::tells_none))]
#[unsafe(no_mangle)]
pub extern "C" fn thorin_decompress(
    alloc: Global,
    bytes: &[u8],
    out: &mut [u8],
    size: &mut u64,
) -> i32
    ensures plain { result ≡ pos 0 → Decompresses bytes.now size.new out.old out.new }
    ensures small { result ≡ pos 10 → NeedsRoom bytes.now size.new (length out.old) }
    ensures none { result ≡ pos 14 → decompressed_of All bytes.now ≡ Ok None }
    ensures error { TellsError result → IsError bytes.now result }
    ensures status { IsPlainStatus result }
    ensures unchanged { result ≢ pos 0 → out.new ≡ out.old }
    ensures untold { result ≢ pos 0 → result ≢ pos 10 → size.new ≡ size.old }
{
    match plain_length(bytes, Asked::All) {
        Ok(Some(length)) if length > out.len() as u64 => {
            *size = length;
            return TOO_SMALL;
        }
        Ok(_) => {}
        Err(error) => return status_of(error),
    }
    match decompressed(alloc, bytes, Asked::All) {
        Ok(Some(file)) => {
            let len = file.len();
            *size = len as u64;
            if len > out.len() {
                return TOO_SMALL;
            }
            out[..len].copy_from_slice(file.as_slice());
            DONE
        }
        Ok(None) => NOT_COMPRESSED,
        Err(error) => status_of(error),
    }
}

fn status_of(error: DecompressError) -> i32
    ensures { result ≡ status_of error }
{
    match error {
        DecompressError::Read(_) => MALFORMED_FILE,
        DecompressError::Header | DecompressError::Zlib(_) => DAMAGED,
        DecompressError::Zstd(_) => DAMAGED_ZSTD,
        DecompressError::UnknownType(_) => UNKNOWN_COMPRESSION,
        DecompressError::Unrepresentable => UNWRITABLE,
        DecompressError::Memory => NO_MEMORY,
    }
}
