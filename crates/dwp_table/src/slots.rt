//! How many slots a hash table has (DWARF 5, 7.3.5.3).

ghost use Rattle.std.specs.Prelude.{◌*◌, ◌≤◌, ◌<◌, IsTrue};
ghost use Rattle.std.specs.Int.{is_power_of_two};
ghost use Rattle.dwp_table.specs.Table.{HasSlots};

/// How many slots a table of that many identifiers is written with: 2 below two identifiers, else
/// the least power of two above half as many again (DWARF 5, 7.3.5.3).
pub fn slot_count(units: u32) -> u32
    requires { units ≤ 1431655765 }
    ensures slots { HasSlots units result }
    ensures power { IsTrue (is_power_of_two result) }
    ensures room { units < result }
{
    let wanted = units * 3;
    let mut size: u32 = 2;
    while size <= wanted / 2 {
        size *= 2;
    }
    size
}
