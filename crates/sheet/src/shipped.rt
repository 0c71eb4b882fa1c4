// The sheet that the kit ships with, table 6.1 of source 002, and its levels as a constant table: what is worked out from its bytes.
ghost use Rattle.std.specs.Prelude.{◌≡◌, get_or};
ghost use Rattle.taskset.specs.Levels.{no_level};
ghost use Rattle.sheet.specs.Shipped.{shipped_sheet, shipped_levels};

use taskset::Level;

// How many bytes the sheet has.
pub const BYTES: usize = 83;

// How many tasks it has.
pub const TASKS: usize = 6;

// Its bytes; examples/table-6.1.sheet has them as a file.
const SHEET: [u8; BYTES] =
    *b"task core deadline cards\n1 0 50 3\n2 1 100 1\n3 2 80 1,2\n4 3 70 2\n5 4 120 3\n6 5 60 -\n";

// Its levels: task, task level, transaction level.
const LEVELS: [Level; TASKS] = [
    Level {
        number: 1,
        task: 6,
        transaction: 6,
    },
    Level {
        number: 2,
        task: 2,
        transaction: 4,
    },
    Level {
        number: 3,
        task: 3,
        transaction: 4,
    },
    Level {
        number: 4,
        task: 4,
        transaction: 4,
    },
    Level {
        number: 5,
        task: 1,
        transaction: 6,
    },
    Level {
        number: 6,
        task: 5,
        transaction: 0,
    },
];

// The bytes of the sheet.
pub fn sheet() -> [u8; BYTES]
    ensures { result ≡ shipped_sheet }
{
    SHEET
}

// The constant table of its levels.
pub fn levels() -> [Level; TASKS]
    ensures { result ≡ shipped_levels }
{
    LEVELS
}

// The levels of the task at a place; zeros past the last.
pub fn level(place: usize) -> Level
    ensures { result ≡ get_or shipped_levels place no_level }
{
    levels().get(place).copied().unwrap_or_default()
}
