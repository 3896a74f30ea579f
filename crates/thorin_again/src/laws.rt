//! What a written package is as an input again, and which inputs pack again, as laws.

ghost use Rattle.std.specs.Prelude.{All, List, Ok, Option, Some, true, ℕ, ◌++◌, ◌↔◌, ◌≡◌};
ghost use Rattle.thorin_join.specs.Builder.{finish_test, IsFinishedState, order_of, State, taken};
ghost use Rattle.thorin_again.specs.OneEncoding.{AnswersOnceWritten, HaveEncodingOnceWritten};
ghost use Rattle.thorin_again.specs.OneEncoding.{IsOfEncoding, IsOfOneEncoding};
ghost use Rattle.thorin_again.specs.OwnInput.{IsOwn, TakesUpToParts, written_object, written_used};
ghost use Rattle.thorin_again.specs.OwnInput.{CanTake, own_source, TakesParts};
ghost use Rattle.dwp_base.specs.declared.endian.Endianness.{Endianness};
ghost use Rattle.dwp_base.specs.declared.section.SectionKind.TheVariants.{StrOffsets};
ghost use Rattle.dwp_elf_read.specs.Elf.{Elf, elf_of};
ghost use Rattle.dwp_elf.specs.Contents.{content_of, KindsDiffer};
ghost use Rattle.dwp_elf.specs.{FileText.Object, Growing.Contents};
ghost use Rattle.dwp_bytes.specs.{declared.encoding.Encoding.Encoding, Input.section};
ghost use Rattle.dwp_units.specs.Units.{Unit};
ghost use Rattle.dwp_table.specs.declared.object.DwarfObject.{DwarfObject};
ghost use Rattle.thorin_identity.specs.Identity.{identity};
ghost use Rattle.thorin_input.specs.Indexes.{Indexes, indexes_of, Source};
ghost use Rattle.thorin_join.specs.{Builder.start, State.InProgress};
ghost use Rattle.thorin_join.specs.Represents.{IsSoundBegun, units_in};
ghost use Rattle.thorin_again.specs.{Again.MeansOnceWritten, Own.packs_again, OwnUnits.HoldsOwn};
ghost use Rattle.thorin_again.specs.InFormat.{AreInFormat, HaveEncodingsOf};
ghost use Rattle.thorin_again.specs.OwnAccepted.{IsAcceptedByNewOnceWritten, IsAcceptedOnceWritten};
ghost use Rattle.thorin_again.specs.OwnTaken.{AreRewritten, AreUnitsTaken};
ghost use Rattle.thorin_again.specs.Plain.{HoldsPlain, IsPlain};
ghost use Rattle.thorin_again.specs.PlainInputs.{AreTaken, IsOfPlainObjects};

/// The law of the one encoding: where the inputs of a builder have one, there are units, and all of
/// them come from inputs of it; an input that is taken keeps that so. It does nothing.
pub fn one_encoding_is_kept()
    ensures { (bytes : List ℕ) (old new : State) → IsSoundBegun old.begun → HoldsOwn old
        → taken bytes old ≡ Ok new → HoldsOwn new }
{}

/// The law of own packages up to their parts: the bytes of a written package whose units come from
/// inputs of one encoding pass the tests of the file, its sections, its encoding, its byte order
/// and both indexes, in a package of their byte order or a new one; and its sections are taken as
/// parts where they are in the format and its string offsets can be rewritten. It does nothing.
pub fn own_packages_are_taken_up_to_their_parts()
    ensures tests { (state : State) (encoding : Encoding) (file : Object)
        → IsOwn state encoding file
        → (before : Option InProgress) → order_of before file.order ≡ file.order
        → TakesUpToParts file encoding before }
    ensures parts { (source : Source) (contents : Contents) (strings : List (List ℕ))
        → source.object.sections ≡ written_used contents → KindsDiffer contents
        → CanTake source contents strings → TakesParts source strings }
{}

/// The law of longer abbreviations: the identity that a unit has by a table of abbreviations it has
/// too where more bytes follow the table (DWARF 5, 7.5.3). It does nothing.
pub fn identities_stay_in_longer_abbreviations()
    ensures { (order : Endianness) (table rest : List ℕ) (unit : Unit) (name : Option DwarfObject)
        → identity (section order table) unit ≡ Ok name
        → identity (section order (table ++ rest)) unit ≡ Ok name }
{}

/// The law of plain packages: where the inputs of a builder have one encoding, each section that
/// units share and that has bytes has a part that a row names; the ranges of string offsets that
/// rows have fill their section, one directly behind the other, each with whole entries under a
/// header of its own (DWARF 5, 7.26), and their entries in order name the package's strings in the
/// order of these; and each unit, read of its own bytes alone, has the encoding, and by its row's
/// abbreviations its row's name. An input that is taken keeps that so. It does nothing.
pub fn plain_packages_are_kept()
    ensures { (bytes : List ℕ) (old new : State) → IsSoundBegun old.begun → HoldsPlain old
        → taken bytes old ≡ Ok new → HoldsPlain new }
{}

/// The law of own string offsets: those of a written package of plain objects of one encoding are
/// rewritten among whatever strings there are, unless the offset of a string doesn't fit the
/// format. It does nothing.
pub fn own_string_offsets_are_rewritten()
    ensures { (state : State) (encoding : Encoding) (file : Object) → IsOwn state encoding file
        → (made : InProgress) → state.begun ≡ Some made → IsPlain encoding made
        → (indexes : Indexes) → indexes_of (written_object file) encoding ≡ Ok indexes
        → AreRewritten (own_source file encoding indexes) (content_of StrOffsets file.contents) }
{}

/// The law of own units: those of a written package of plain objects of one encoding are taken by
/// any package, each with the name and by the row that it has, unless a compilation unit is there
/// already. It does nothing.
pub fn own_units_are_taken()
    ensures { (state : State) (encoding : Encoding) (file : Object) → IsOwn state encoding file
        → (made : InProgress) → state.begun ≡ Some made → IsPlain encoding made
        → (indexes : Indexes) → indexes_of (written_object file) encoding ≡ Ok indexes
        → AreUnitsTaken (own_source file encoding indexes) }
{}

/// The law of own packages: where `packs_again` is true of a builder, and its package is finished
/// and written, the written bytes are taken by any package of their byte order and by a new one,
/// whatever it holds, unless a compilation unit is there already or the offset of a string doesn't
/// fit the format. It does nothing.
pub fn own_packages_are_accepted()
    ensures { (state : State) (file : Object)
        → IsSoundBegun state.begun
        → HoldsOwn state
        → HoldsPlain state
        → finish_test state ≡ Ok tt
        → IsFinishedState state file
        → IsAcceptedOnceWritten state file }
{}

/// The law of own packages in a new one: where `packs_again` is true of a builder, and its package
/// is finished and written, the written bytes are taken by a new package: no compilation unit
/// stands in them twice, and its strings get just the offsets that they have there. It has the same
/// units then, in some order, and what is packed of it alone answers as they do. It does nothing.
pub fn own_packages_are_accepted_by_a_new_one()
    ensures { (state : State) (file : Object)
        → IsSoundBegun state.begun
        → HoldsOwn state
        → HoldsPlain state
        → finish_test state ≡ Ok tt
        → IsFinishedState state file
        → IsAcceptedByNewOnceWritten state file }
{}

/// The law of packing again: where each unit of a finished package has the encoding of the first
/// that is read of its file, the written bytes, wherever they are taken as an input, mean just
/// these units: each once, with the same bytes, contributions, strings and encoding, in some order
/// (that of the file's sections). It does nothing.
pub fn written_packages_mean_their_units()
    ensures { (state : State) (file : Object)
        → IsSoundBegun state.begun
        → finish_test state ≡ Ok tt
        → IsFinishedState state file
        → MeansOnceWritten (units_in state) file }
{}

/// The law of packing again, by the inputs: once a new builder took some inputs, `packs_again` is
/// true exactly where each of them is a plain object that added a unit, all their units have one
/// encoding, those that were passed over too, and there are abbreviations and, beside string
/// offsets, strings. It does nothing.
pub fn plain_objects_pack_again()
    ensures { (accepted : List (List ℕ)) (state : State) → AreTaken accepted start state
        → (packs_again state ≡ true) ↔ IsOfPlainObjects accepted state }
{}

/// The law of one encoding: once a new builder took some inputs, in each of which all units have
/// the encoding of the first, those that were passed over too, the file of its package, once it is
/// written, answers as its units, each with all its strings. It does nothing.
pub fn inputs_of_one_encoding_keep_their_strings()
    ensures { (accepted : List (List ℕ)) (state : State) → AreTaken accepted start state
        → All IsOfOneEncoding accepted
        → (file : Object) → finish_test state ≡ Ok tt
        → IsFinishedState state file
        → AnswersOnceWritten (units_in state) file }
{}

/// The law of packages of one encoding: once a new builder took inputs all of whose units have one
/// encoding, those that were passed over too, the first unit that is read of the written package
/// has the encoding of each of its units. It does nothing.
pub fn packages_have_the_encoding_of_their_inputs()
    ensures { (encoding : Encoding) (accepted : List (List ℕ)) (state : State)
        → AreTaken accepted start state
        → All (IsOfEncoding encoding) accepted
        → (file : Object) → IsFinishedState state file
        → HaveEncodingOnceWritten (units_in state) file }
{}

/// The law of rows: once a new builder took some inputs, an index of a row's version has a column
/// for each section that the row has a contribution to (DWARF 5, 7.3.5.3), and the row has the
/// encoding of one of the inputs. It does nothing.
pub fn taken_rows_are_in_the_format()
    ensures format { (accepted : List (List ℕ)) (state : State) → AreTaken accepted start state
        → AreInFormat state.begun }
    ensures encodings { (accepted : List (List ℕ)) (state : State) → AreTaken accepted start state
        → HaveEncodingsOf accepted state.begun }
{}

/// The law of byte order: an input leaves a package the byte order that it has, and begins one with
/// its own. It does nothing.
pub fn the_first_byte_order_stays()
    ensures { (bytes : List ℕ) (file : Elf) (old new : State) (order : Endianness)
        → elf_of bytes ≡ Ok file
        → taken bytes old ≡ Ok new
        → order_of new.begun order ≡ order_of old.begun file.order }
{}

/// The laws of own packages, by the inputs: once a new builder took some inputs, and `packs_again`
/// is true of it, its package, finished and written, is taken by any package of its byte order and
/// by a new one, unless a compilation unit is there already or the offset of a string doesn't fit
/// the format; a new one takes it in any case, and has the same units then. It does nothing.
pub fn packages_that_pack_again_are_accepted()
    ensures accepted { (accepted : List (List ℕ)) (state : State) (file : Object)
        → AreTaken accepted start state
        → finish_test state ≡ Ok tt
        → IsFinishedState state file
        → IsAcceptedOnceWritten state file }
    ensures accepted_by_new { (accepted : List (List ℕ)) (state : State) (file : Object)
        → AreTaken accepted start state
        → finish_test state ≡ Ok tt
        → IsFinishedState state file
        → IsAcceptedByNewOnceWritten state file }
{}
