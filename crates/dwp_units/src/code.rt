//! The code of an abbreviation (DWARF 5, 7.5.2 and 7.5.3).

ghost use Rattle.dwp_base.specs.Reading.{Reads};
ghost use Rattle.dwp_units.specs.AbbreviationCodes.{code_at};

use dwp_bytes::{ReadError, Reader};

/// The code of an abbreviation, before a declaration or an entry; 0 at the end of the bytes.
/// Errors: `UnexpectedEof` or `BigLeb` for a code that can't be read. The reader stays where it is
/// then.
#[tactic(auto, unfolding(crate::specs::AbbreviationCodes::code_at))]
pub fn read_code<R: Reader>(reader: &mut R) -> Result<u64, ReadError>
    ensures { Reads (λ x. x) result (R.input reader.old) (R.input reader.new) code_at }
{
    if reader.is_empty() {
        Ok(0)
    } else {
        reader.read_uleb128()
    }
}
