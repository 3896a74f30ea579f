//! Places of strings by their hashes, none of which is lost.

ghost use Rattle.std.specs.Prelude.{◌≡◌, ◌≢◌, ◌<◌, ◌+◌, ◌-◌, ◌^◌, ℕ, length, Some, None, IfSome};
ghost use Rattle.std.specs.Prelude.{IsTrue, OnErr, IfOk, IfErr, true, false, slice_index_or};
ghost use Rattle.dwp_strings.specs.Places.{free, place_in, place_of, shared};
ghost use Rattle.dwp_strings.specs.Places.{IsNext, IsNextIn, IsSlotOf};

use std::alloc::Global;

/// How many slots are looked at for a hash.
const PROBES: usize = 128;

/// At how many slots hashes begin, from step to step; then at twice as many each time.
const SIZES: [u32; 5] = [1 << 10, 1 << 14, 3 << 15, 1 << 18, 3 << 18];

/// A free slot: `behind` alone tells that. (Not all of its bytes are zero: so many are written 16
/// bytes at a time.)
const FREE: Slot = Slot { hash: 1, behind: 0 };

/// The place of a hash that strings share, at which none of them is kept.
pub(crate) const SHARED: usize = 0xffff_fffe;

/// A hash, and one more than the place that it has; 0 in a free slot.
#[derive(Clone, Copy)]
pub(crate) struct Slot {
    hash: u32,
    behind: u32,
}

/// One more than a place, where a slot has room for it.
pub(crate) fn behind(place: usize) -> Option<u32>
    ensures value { IfSome result (λ behind. behind ≡ place + 1) }
    ensures fits { IfSome result (λ _. place < shared) }
{
    if place >= SHARED {
        return None;
    }
    Some(place as u32 + 1)
}

/// The slot of a hash, or the one that is next for it, past all if none is.
#[tactic(auto, using(crate::proofs::Hashed::passed_more))]
#[inline(always)]
fn find(slots: &[Slot], size: u32, hash: u32) -> Result<usize, usize>
    ensures found { IfOk result (IsSlotOf slots.now size hash) }
    ensures none { OnErr result (place_of slots.now size hash ≡ None) }
    ensures next { IfErr result (λ number. number < length slots.now
        → IsNext slots.now size hash number) }
{
    let home = (u64::from(hash) * u64::from(size) >> 32) as usize;
    let last = slots.len().min(home + PROBES);
    for number in home..last {
        let slot = slots[number];
        if slot.behind == 0 {
            return Err(number);
        }
        if slot.hash == hash {
            return Ok(number);
        }
    }
    Err(slots.len())
}

/// Puts a slot where it is next for its hash, if there is a free one.
#[inline(always)]
fn put_next(slots: &mut [Slot], number: usize, slot: Slot) -> bool
    requires some { slot.behind ≢ 0 }
    requires free { number < length slots.old → (slice_index_or slots.old number free).behind ≡ 0 }
    ensures put { IsTrue result → (size n : ℕ) → IsNext slots.old size slot.hash number
        → place_of slots.old size slot.hash ≡ None → n + 1 ≡ slot.behind
        → place_of slots.new size slot.hash ≡ Some n }
    ensures within { IsTrue result → number < length slots.old }
    ensures kept { (size h n : ℕ) → place_of slots.old size h ≡ Some n
        → place_of slots.new size h ≡ Some n }
    ensures same { result ≡ false → slots.new ≡ slots.old }
{
    if number >= slots.len() {
        return false;
    }
    slots[number] = slot;
    true
}

/// Puts a slot into the first free one of its hash, where one is free and the hash has no place.
fn put(slots: &mut [Slot], size: u32, slot: Slot) -> bool
    requires some { slot.behind ≢ 0 }
    ensures put { IsTrue result → (n : ℕ) → n + 1 ≡ slot.behind
        → place_of slots.new size slot.hash ≡ Some n }
    ensures kept { (h n : ℕ) → place_of slots.old size h ≡ Some n
        → place_of slots.new size h ≡ Some n }
{
    match find(slots, size, slot.hash) {
        Ok(_) => false,
        Err(number) => put_next(slots, number, slot),
    }
}

/// Puts the used ones of other slots into slots; how many there are. None where one can't be put.
fn put_again(slots: &mut [Slot], size: u32, others: &[Slot]) -> Option<usize>
    ensures { IfSome result (λ _. (other h n : ℕ) → place_of others.now other h ≡ Some n
        → place_of slots.new size h ≡ Some n) }
{
    let mut used: usize = 0;
    for number in 0..others.len() {
        let slot = others[number];
        if slot.behind == 0 {
            continue;
        }
        if !put(slots, size, slot) {
            return None;
        }
        used = used.saturating_add(1);
    }
    Some(used)
}

/// How many slots are used at most, where hashes begin at so many: five of eight.
fn most(size: u32) -> usize {
    size as usize / 8 * 5
}

/// Places of strings by their hashes.
///
/// What has a place keeps it, and one of a hash is found by at most 128 slots. Where a new one
/// would need more, where four bytes don't hold it, or there is no memory for more slots, it isn't
/// entered, and none is from then on.
#[derive(Drop)]
pub(crate) struct HashedPlaces {
    pub alloc: Global,
    pub slots: Vec<Slot>,
    pub size: u32,
    /// How many more slots may be used.
    pub left: usize,
    /// Whether no more places are entered.
    pub is_full: bool,
}

#[tactic(auto, using(crate::proofs::Hashed::slot_within))]
impl HashedPlaces {
    /// No places, which take no memory.
    pub fn new(alloc: Global) -> Self {
        HashedPlaces {
            alloc,
            slots: Vec::new(alloc),
            size: 0,
            left: 0,
            is_full: false,
        }
    }

    /// The place that a hash has, or the slot that is next for it.
    #[inline(always)]
    pub fn seek(&self, hash: u32) -> Result<usize, usize>
        ensures found { IfOk result (λ place. place_in self.now hash ≡ Some place) }
        ensures fits { IfOk result (λ place. place < 2 ^ 32) }
        ensures none { OnErr result (place_in self.now hash ≡ None) }
        ensures next { IfErr result (IsNextIn self.now hash) }
    {
        let number = find(&self.slots, self.size, hash)?;
        Ok(self.slots[number].behind as usize - 1)
    }

    /// The places in more slots, with one more. None where they don't fit or there is no memory.
    fn grown(&self, slot: Slot) -> Option<HashedPlaces>
        requires some { slot.behind ≢ 0 }
        ensures entered { IfSome result (λ new. (n : ℕ) → n + 1 ≡ slot.behind
            → place_in new slot.hash ≡ Some n) }
        ensures kept { IfSome result (λ new. (h n : ℕ) → place_in self.now h ≡ Some n
            → place_in new h ≡ Some n) }
    {
        let size = SIZES
            .into_iter()
            .find(|next| self.size < *next)
            .unwrap_or(self.size.saturating_mul(2));
        let count = (size as usize).saturating_add(PROBES);
        let mut slots = Vec::from_elem(self.alloc, FREE, count).ok()?;
        let used = put_again(&mut slots, size, &self.slots)?;
        if !put(&mut slots, size, slot) {
            return None;
        }
        Some(HashedPlaces {
            alloc: self.alloc,
            slots,
            size,
            left: most(size).saturating_sub(used).saturating_sub(1),
            is_full: false,
        })
    }

    /// Enters a slot among more slots, if a quarter is used (of fewer, such hashes were chosen).
    #[inline(never)]
    fn enter_in_more(&mut self, slot: Slot) -> bool
        requires some { slot.behind ≢ 0 }
        ensures entered { IsTrue result → (n : ℕ) → n + 1 ≡ slot.behind
            → place_in self.new slot.hash ≡ Some n }
        ensures kept { (h n : ℕ) → place_in self.old h ≡ Some n → place_in self.new h ≡ Some n }
        ensures slots { result ≡ false → self.new.slots.items ≡ self.old.slots.items }
        ensures size { result ≡ false → self.new.size ≡ self.old.size }
        ensures full { result ≡ false → self.new.is_full ≡ true }
    {
        let used = most(self.size).saturating_sub(self.left);
        if self.left == 0 || used >= self.size as usize / 4 {
            if let Some(more) = self.grown(slot) {
                *self = more;
                return true;
            }
        }
        self.is_full = true;
        false
    }

    /// Enters the place of a hash that has none, by the slot that is next for it, or among more
    /// slots; false where that can't be, and then no more are entered.
    pub fn enter(&mut self, hash: u32, next: usize, place: usize) -> bool
        requires open { self.old.is_full ≡ false }
        requires none { place_in self.old hash ≡ None }
        requires next { IsNextIn self.old hash next }
        ensures entered { IsTrue result → place_in self.new hash ≡ Some place }
        ensures fits { IsTrue result → place < shared }
        ensures kept { (h n : ℕ) → place_in self.old h ≡ Some n → place_in self.new h ≡ Some n }
        ensures none { result ≡ false → place_in self.new hash ≡ None }
        ensures full { result ≡ false → self.new.is_full ≡ true }
    {
        let Some(behind) = behind(place) else {
            self.is_full = true;
            return false;
        };
        let slot = Slot { hash, behind };
        if self.left == 0 {
            return self.enter_in_more(slot);
        }
        if put_next(&mut self.slots, next, slot) {
            self.left -= 1;
            return true;
        }
        self.enter_in_more(slot)
    }

    /// Gives a hash that has a place another one, which is one less than `behind`.
    pub fn give(&mut self, hash: u32, behind: u32)
        requires some { behind ≢ 0 }
        ensures given { (n : ℕ) → place_in self.old hash ≡ Some n
            → place_in self.new hash ≡ Some (behind - 1) }
        ensures others { (h : ℕ) → h ≢ hash → place_in self.new h ≡ place_in self.old h }
        ensures full { self.new.is_full ≡ self.old.is_full }
    {
        if let Ok(number) = find(&self.slots, self.size, hash) {
            self.slots[number].behind = behind;
        }
    }
}
