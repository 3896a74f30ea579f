//! What packing means, what inputs add to a package, where their ranges lie, and which strings they
//! bring, as laws.

ghost use Rattle.std.specs.Prelude.{length, List, Option, Some, ℕ, ◌*◌, ◌+◌, ◌<◌, ◌^◌, ◌≡◌, ◌≤◌};
ghost use Rattle.thorin_join.specs.Builder.{finish_test, IsFinished, IsFinishedState, with_input};
ghost use Rattle.thorin_join.specs.Sizes.{carried_size, container_most, offsets_size, strings_size};
ghost use Rattle.thorin_join.specs.Sizes.{bytes_of_contents, bytes_of_strings, IsSizeFinished};
ghost use Rattle.thorin_join.specs.Sizes.{bytes_begun, used_size, with_inputs};
ghost use Rattle.std.specs.{List.sum_by, Prelude.All, Prelude.Ok};
ghost use Rattle.dwp_base.specs.declared.section.SectionKind.TheVariants.{CuIndex, TuIndex};
ghost use Rattle.dwp_elf.specs.FileText.{file_text, Object};
ghost use Rattle.dwp_elf.specs.{Contents.KindsDiffer, Numbers.Fits};
ghost use Rattle.dwp_index.specs.{Index.Index, Package.package_of};
ghost use Rattle.thorin_join.specs.{Builder.State, StandApart.StandApart, State.InProgress};
ghost use Rattle.thorin_join.specs.FirstUse.{strings_begun, UsesStrings};
ghost use Rattle.thorin_join.specs.Join.{IsPackageOnceWritten, Joins};
ghost use Rattle.thorin_join.specs.Represents.{IsSoundBegun, units_begun, units_in};
ghost use Rattle.thorin_join.specs.WrittenPackage.{IsIndexIn, package_with};

/// The law of accepted inputs: a package whose units can be found and read has, once an input was
/// taken, the units that it had and those that the input joins to them, and all of them can be
/// found and read. It does nothing.
pub fn inputs_are_joined()
    ensures sound { (bytes : List ℕ) (begun now : Option InProgress) → IsSoundBegun begun
        → with_input bytes begun ≡ Ok now → IsSoundBegun now }
    ensures joins { (bytes : List ℕ) (begun now : Option InProgress) → IsSoundBegun begun
        → with_input bytes begun ≡ Ok now → Joins bytes (units_begun begun) (units_begun now) }
{}

/// The law of ranges: those of an input's units lie behind all that were there, so that ranges of
/// different inputs in one section don't overlap, and each lies inside its section and has bytes.
/// It does nothing.
pub fn inputs_stand_apart()
    ensures { (bytes : List ℕ) (begun : Option InProgress) (now : InProgress) → IsSoundBegun begun
        → with_input bytes begun ≡ Ok (Some now) → StandApart begun now }
{}

/// The law of strings: after an input the package's strings are those before and then those that
/// the input's string offsets name, in order of first use, none twice. It does nothing.
pub fn strings_stand_in_order_of_first_use()
    ensures { (bytes : List ℕ) (begun : Option InProgress) (now : InProgress) → IsSoundBegun begun
        → with_input bytes begun ≡ Ok (Some now) → UsesStrings bytes begun now }
{}

/// The law of written packages: a file that is written of contents of distinct kinds, and whose
/// numbers fit its class, is read as the package of these contents, with the indexes that stand in
/// them. It does nothing.
pub fn written_packages_are_read()
    ensures { (file : Object) → KindsDiffer file.contents → file.machine < 256 ^ 2 → Fits file
        → (compilations types : Option Index)
        → IsIndexIn file CuIndex compilations
        → IsIndexIn file TuIndex types
        → package_of (file_text file) ≡ Ok (package_with file compilations types) }
{}

/// The law of finished packages: where a state's package has its units, none twice, and the tests
/// of finishing pass, its file is a package of these units, once it is written and read back:
/// looking up any name by the standard's probing finds just the unit of that name, with its bytes,
/// its abbreviations, line tables, location and range lists and macros, and, where it has its
/// input's encoding, its strings; or nothing (DWARF 5, 7.3.5). It does nothing.
pub fn finished_packages_are_read()
    ensures { (state : State) (file : Object)
        → IsSoundBegun state.begun
        → finish_test state ≡ Ok tt
        → IsFinishedState state file
        → IsPackageOnceWritten (units_in state) file }
{}

/// The law of sizes: an input adds to the contents of a package at most the bytes of its used
/// sections, without strings and indexes, which a package has of its own; inputs one after another
/// at most the sum. That is at most the bytes of the inputs, where none has used sections of more
/// bytes than itself, as only overlapping ones have. It does nothing.
pub fn packages_grow_by_used_sections()
    ensures input { (bytes : List ℕ) (begun now : Option InProgress)
        → with_input bytes begun ≡ Ok now
        → bytes_begun now ≤ bytes_begun begun + carried_size bytes }
    ensures inputs { (inputs : List (List ℕ)) (begun now : Option InProgress)
        → with_inputs inputs begun ≡ Ok now
        → bytes_begun now ≤ bytes_begun begun + sum_by carried_size inputs }
    ensures carried { (bytes : List ℕ) → carried_size bytes ≤ used_size bytes }
    ensures files { (inputs : List (List ℕ)) (begun now : Option InProgress)
        → All (λ bytes. used_size bytes ≤ length bytes) inputs
        → with_inputs inputs begun ≡ Ok now
        → bytes_begun now ≤ bytes_begun begun + sum_by length inputs }
{}

/// The law of strings' sizes: the strings that an input brings, each with its zero byte, have at
/// most a quarter of the bytes of its string offsets times the bytes of its section of strings, as
/// if each offset of 4 bytes named a string of its own that fills the section.
///
/// The bytes of the inputs themselves are no bound: an offset may point into a string, so that one
/// long string can bring each of its ends, and each is a string of its own. It does nothing.
pub fn strings_grow_by_offsets()
    ensures input { (bytes : List ℕ) (begun now : Option InProgress)
        → with_input bytes begun ≡ Ok now
        → 4 * bytes_of_strings (strings_begun now)
        ≤ 4 * bytes_of_strings (strings_begun begun) + offsets_size bytes * strings_size bytes }
    ensures inputs { (inputs : List (List ℕ)) (begun now : Option InProgress)
        → with_inputs inputs begun ≡ Ok now
        → 4 * bytes_of_strings (strings_begun now)
        ≤ 4 * bytes_of_strings (strings_begun begun)
        + sum_by (λ bytes. offsets_size bytes * strings_size bytes) inputs }
{}

/// The law of finished sizes: what finishing adds to the contents is each string with its zero byte
/// and both indexes, whose sizes the rows determine; the ELF file of any contents of distinct kinds
/// has at most `container_most` bytes beside them. It does nothing.
pub fn finished_packages_have_their_sizes()
    ensures contents { (made : InProgress) (file : Object)
        → IsFinished made file
        → IsSizeFinished made (bytes_of_contents file.contents) }
    ensures file { (file : Object)
        → KindsDiffer file.contents
        → length (file_text file) ≤ bytes_of_contents file.contents + container_most }
{}
