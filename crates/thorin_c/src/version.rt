//! What the library is, and what its statuses mean.

ghost use Rattle.std.specs.Prelude.{length, ◌≡◌};
ghost use Rattle.thorin_c.specs.{Listing.written_over, Statuses.status_text};

use crate::listing::write_over;
use crate::status::{
    ABSENT, DAMAGED, DAMAGED_ZSTD, DONE, MALFORMED_FILE, MALFORMED_INDEX, MALFORMED_STRING,
    MALFORMED_UNIT, NO_MEMORY, NO_SUCH_KIND, NO_SUCH_SECTION, NO_SUCH_STRING, NOT_COMPRESSED,
    RANGE_OUTSIDE, REFUSED, TOO_SMALL, UNFINISHED, UNKNOWN_COMPRESSION, UNWRITABLE,
};

/// The version, 1.2.0: 65,536 times its first number, 256 times its second, and its third.
#[unsafe(no_mangle)]
pub extern "C" fn thorin_version() -> u32
    ensures { result ≡ 66048 }
{
    66048
}

/// What a status means: its text, as far as there is room in `text`. Answers how many bytes the
/// text has.
#[unsafe(no_mangle)]
pub extern "C" fn thorin_status_text(status: i32, text: &mut [u8]) -> usize
    ensures text { text.new ≡ written_over text.old (status_text status) }
    ensures size { result ≡ length (status_text status) }
{
    let whole = status_text(status).as_bytes();
    write_over(whole, text);
    whole.len()
}

fn status_text(status: i32) -> &'static str
    ensures { result.now ≡ status_text status }
{
    match status {
        DONE => "Done",
        ABSENT => "The package has no such unit",
        NO_SUCH_KIND => "No such kind of units",
        MALFORMED_FILE => "Malformed ELF file",
        MALFORMED_INDEX => "Malformed index",
        RANGE_OUTSIDE => "Range of a unit is outside its section",
        MALFORMED_UNIT => "Malformed unit",
        NO_SUCH_SECTION => "No such section",
        NO_SUCH_STRING => "The unit has no such string",
        MALFORMED_STRING => "Malformed string",
        TOO_SMALL => "Too little room",
        REFUSED => "An input was refused",
        UNFINISHED => "The package can't be finished",
        NO_MEMORY => "Out of memory",
        NOT_COMPRESSED => "No section is compressed",
        DAMAGED => "A compressed section is damaged",
        UNKNOWN_COMPRESSION => "A section isn't compressed by zlib or zstd",
        UNWRITABLE => "The plain file can't be written",
        DAMAGED_ZSTD => "A section compressed by zstd is damaged",
        _ => "No such status",
    }
}
