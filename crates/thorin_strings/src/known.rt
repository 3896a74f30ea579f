//! Entries of string offsets whose strings are told without room for an error (DWARF 5, 7.26).

ghost use Rattle.std.specs.Prelude.{◌≡◌, ◌≤◌, length, take, Ok, IsNone, IfSome};
ghost use Rattle.thorin_strings.specs.Known.{offset_read, AreKnown};

use crate::repeats::Repeats;
use crate::table::PackageStringTable;
use dwp_strings::{ROUNDS, end_of, short_end};

#[tactic(auto, using(crate::proofs::Remapping::are_known_later, std::proofs::lemmas::List::take_all))]
impl PackageStringTable {
    /// The offset of a string, where no table's offset is past the limit, and its length, where its
    /// end is near, if it has to be.
    #[inline(always)]
    fn placed(
        &mut self,
        debug_str: &[u8],
        named: u64,
        limit: u64,
        is_near: bool,
    ) -> Option<(u64, usize)>
        ensures meaning { IfSome result (λ told.
            offset_read debug_str.now named self.old ≡ Ok (told.0, self.new)) }
        ensures fits { IfSome result (λ told. told.0 ≤ limit) }
        ensures kept { take (length self.old) self.new ≡ self.old }
        ensures none { IsNone result → self.new ≡ self.old }
    {
        let at = named as usize;
        if debug_str.len() < at {
            return None;
        }
        let rest = &debug_str[at..];
        let end = if is_near {
            short_end(rest, ROUNDS)?
        } else {
            end_of(rest)?
        };
        if limit < self.data().len() as u64 {
            return None;
        }
        let Ok(offset) = self.strings.place(&rest[..end]) else {
            return None;
        };
        Some((offset as u64, end))
    }

    /// As `offset_told`, where short strings aren't remembered. (Two for speed alone: this stays a
    /// call, and the other stands in the loop over all other ranges.)
    #[inline(never)]
    pub(crate) fn other_offset(
        &mut self,
        repeats: &mut Repeats,
        debug_str: &[u8],
        named: u64,
        limit: u64,
    ) -> Option<u64>
        requires known { AreKnown debug_str.now self.old repeats.old }
        ensures meaning { IfSome result (λ offset.
            offset_read debug_str.now named self.old ≡ Ok (offset, self.new)) }
        ensures fits { IfSome result (λ offset. offset ≤ limit) }
        ensures kept { take (length self.old) self.new ≡ self.old }
        ensures none { IsNone result → self.new ≡ self.old }
        ensures known { AreKnown debug_str.now self.new repeats.new }
    {
        if let Some(known) = repeats.find(named) {
            return if known <= limit { Some(known) } else { None };
        }
        match self.placed(debug_str, named, limit, true) {
            Some(told) => Some(told.0),
            None => self.offset_told(repeats, debug_str, named, limit),
        }
    }

    /// The offset of a string that may be remembered, where no table's offset is past the limit.
    #[inline(always)]
    pub(crate) fn offset_told(
        &mut self,
        repeats: &mut Repeats,
        debug_str: &[u8],
        named: u64,
        limit: u64,
    ) -> Option<u64>
        requires known { AreKnown debug_str.now self.old repeats.old }
        ensures meaning { IfSome result (λ offset.
            offset_read debug_str.now named self.old ≡ Ok (offset, self.new)) }
        ensures fits { IfSome result (λ offset. offset ≤ limit) }
        ensures kept { take (length self.old) self.new ≡ self.old }
        ensures none { IsNone result → self.new ≡ self.old }
        ensures known { AreKnown debug_str.now self.new repeats.new }
    {
        if let Some(known) = repeats.find(named) {
            return if known <= limit { Some(known) } else { None };
        }
        let (offset, length) = self.placed(debug_str, named, limit, false)?;
        let _remembered = repeats.enter(length, named, offset);
        Some(offset)
    }
}
