//! The places of an identifier in a hash table (DWARF 5, 7.3.5.3).

ghost use Rattle.std.specs.Prelude.{length, List, [], ℕ, ◌++◌, ◌+◌, ◌-◌, ◌<◌, ◌^◌, ◌∷◌, ◌≡◌, ◌≤◌};
ghost use Rattle.std.specs.Prelude.{IsSomeAnd, IsTrue};
ghost use Rattle.std.specs.{Int.is_power_of_two, Option.option_map};
ghost use Rattle.dwp_table.specs.Probing.{place};
ghost use Rattle.dwp_table.specs.Table.{first_unused, IsHashTable, IsPlacedAfter, rows_with};

/// The slot that the look-up of `x` looks at first, in a table of `size` slots.
#[tactic(auto, unfolding(crate::specs::Probing::place))]
#[inline(always)]
pub fn first_place(size: u32, x: u64) -> u32
    requires { IsTrue (is_power_of_two size) }
    ensures first { result ≡ place size x 0 }
    ensures within { result < size }
{
    (x & (size as u64 - 1)) as u32
}

/// The slot that the look-up of `x` looks at after `current`, in a table of `size` slots.
#[tactic(auto, unfolding(crate::specs::Probing::step), using(crate::proofs::Places::place_next))]
#[inline(always)]
pub fn place_after(size: u32, x: u64, current: u32) -> u32
    requires power { IsTrue (is_power_of_two size) }
    requires within { current < size }
    ensures next { (i : ℕ) → current ≡ place size x i → result ≡ place size x (i + 1) }
    ensures within { result < size }
{
    let mask = size as u64 - 1;
    let step = ((x >> 32) & mask) | 1;
    ((current as u64 + step) & mask) as u32
}

/// Writes `row` into the first unused slot among the places of `x`, and answers how many slots were
/// looked at; None where every slot is used, which leaves them as they were.
pub fn place_row(slots: &mut [u32], x: u64, row: u32) -> Option<u32>
    requires power { IsTrue (is_power_of_two (length slots.old)) }
    requires small { length slots.old < 2 ^ 32 }
    ensures looked { result ≡ option_map (λ i. i + 1) (first_unused slots.old x) }
    ensures placed { slots.new ≡ rows_with slots.old x row }

    // What was placed stays at its place.
    ensures kept { (y r i : ℕ) → 0 < r → IsPlacedAfter slots.old y r i
        → IsPlacedAfter slots.new y r i }

    // A table has the identifier as its last then, in the last slot that was looked at.
    ensures table { (ids : List ℕ) → IsHashTable ids slots.old → row ≡ length ids + 1
        → row < length slots.old → IsHashTable (ids ++ x ∷ []) slots.new }
    ensures last { (ids : List ℕ) → IsHashTable ids slots.old → row ≡ length ids + 1
        → IsSomeAnd result (λ looked. (0 < looked) × IsPlacedAfter slots.new x row (looked - 1)) }
    ensures count { (ids : List ℕ) → IsHashTable ids slots.old
        → IsSomeAnd result (λ looked. looked ≤ length ids + 1) }
{
    let size = slots.len() as u32;
    let mut at = first_place(size, x);
    for i in 0..size {
        if slots[at as usize] == 0 {
            slots[at as usize] = row;
            return Some(i + 1);
        }
        at = place_after(size, x, at);
    }
    None
}
