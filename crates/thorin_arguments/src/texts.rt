//! What stands below the options in the help of a command.

pub(crate) const EXAMPLES: &'static str = "Example:
  gcc -c -g -gsplit-dwarf hello.c          leaves hello.o and hello.dwo
  thorin pack -o hello.dwp hello.dwo       packs it
  thorin list hello.dwp                    lists the units of the package

A word @FILE stands for the words in FILE. Whitespace separates these; quotation
marks and backslashes keep it in a word. Without such a file the word stays.

Behind `thorin dwp` or `thorin llvm-dwp` stands a command line of that program.";

pub(crate) const PACK_EXAMPLES: &'static str = "Examples:
  thorin pack -o hello.dwp hello.dwo       packs one object
  thorin pack -o all.dwp @objects.txt      packs those that objects.txt names
  thorin pack -o app.dwp -e app            packs those that app refers to

Nothing is printed where all went well, but for lines `warning: `: for each type
unit that was passed over though it differs from the one kept, and on a terminal
or with --verbose for an object with several sections of macros. At the first
input that is refused a line `error: ` says why and a line `note: ` where, and
OUT isn't written: status 1. Where a warning can't be printed the status is 1;
OUT is written, unless the warning is of --partial.";

pub(crate) const FIND_EXAMPLES: &'static str = "Example:
  thorin find hello.dwp cu 0x084a58cc96339e44

It prints the unit's encoding, the place and size of what it has in each section
(hexadecimal), the number of its strings, and how many slots of the index were
looked at. With --string it prints one of its strings, counted from 0, with
--section the bytes of what it has in a section, as they are.";

pub(crate) const LIST_EXAMPLES: &'static str = "Example:
  thorin list hello.dwp

Each line has the kind, the identifier and the size of a unit. With --sizes its
size in each section follows. A line `total` for each section then has its size
in the file, after `units` how much of it belongs to units, and after `shared`
how much larger it would be if each unit had a copy of its own. With --names the
names of its source and of its object follow, each behind a tab; - for none.";

pub(crate) const CHECK_EXAMPLES: &'static str = "Example:
  thorin check app.dwp -e app

It prints a line for each fault, then how many units and faults there are.
Status 1 where there are faults. An EXEC that names no split unit is one.";

pub(crate) const PEER_NOTES: &'static str =
    "Without -o the package of one EXEC is EXEC.dwp. This is thorin by another name.

As programs of this name do, it decompresses inputs, opens archives, skips units
that name no object, keeps the last .debug_macro.dwo of each object and compares
no type units: --decompress, --archives, --skip-nameless and --last-macros change
nothing here, and --warnings=each asks for what `thorin pack` warns of.
--no-macros helps gdb with DWARF 4 of `gcc -g3`. --skip-missing, --partial,
--missing, --prefix-map, --force and --allow-overlap are thorin's own, and
`thorin pack --help` says more. A long option may be cut short; of one that is
given twice the last counts.";
