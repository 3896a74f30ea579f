//! What probing, looking up and unused slots are, as laws.

ghost use Rattle.std.specs.Prelude.{IsTrue, length, List, [], ℕ, ◌%◌, ◌+◌, ◌<◌, ◌^◌, ◌≡◌, ◌≤◌};
ghost use Rattle.std.specs.{Int.is_power_of_two, Prelude.replicate};
ghost use Rattle.dwp_table.specs.Probing.{found_row, look_count};
ghost use Rattle.dwp_table.specs.Table.{FindsExactly, IsHashTable, IsIndex, VisitsEachOnce};

/// The law of probing: an odd step modulo a power of two visits every slot once. It does nothing.
pub fn odd_step_visits_every_slot()
    ensures { (size start step : ℕ) → IsTrue (is_power_of_two size) → step % 2 ≡ 1
        → VisitsEachOnce size start step }
{}

/// The law of look-up: it looks at no more slots than there are. In a table of distinct identifiers
/// each is found, after at most as many slots as its row's number, and every other is absent, after
/// at most one slot more than there are identifiers. It does nothing.
pub fn look_up_finds_exactly()
    ensures bound { (signatures rows : List ℕ) (x : ℕ)
        → look_count signatures rows x ≤ length rows }
    ensures exact { (ids signatures rows : List ℕ) (x : ℕ) → IsIndex ids signatures rows
        → FindsExactly ids x (found_row signatures rows x) (look_count signatures rows x) }
    ensures few { (ids signatures rows : List ℕ) (x : ℕ) → IsIndex ids signatures rows
        → look_count signatures rows x ≤ length ids + 1 }
{}

/// The law of the empty table: unused slots are a table of no identifiers. It does nothing.
pub fn unused_slots_are_a_table()
    ensures { (size : ℕ) → IsTrue (is_power_of_two size) → size < 2 ^ 32
        → IsHashTable [] (replicate size 0) }
{}
