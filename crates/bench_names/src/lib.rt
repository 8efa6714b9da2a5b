// The bench's own names: their pairs, and the table that the pairs give.
#![tactic(auto)]

ghost use Rattle.std.specs.Prelude.{◌≡◌};
ghost use Rattle.naming.specs.Examples.{bench_table};

use name_files::read_names;
use names::Table;

// The bench's own pairs, parent then child as a child-name file has them:
// 0 garage, 1 vehicle, 2 test, 3 axle, 4 curve, 5 note.
pub const BENCH_PAIRS: [u8; 14] = [0, 1, 1, 2, 1, 5, 2, 5, 2, 3, 2, 4, 3, 4];

// The bench's own table, read from its pairs.
pub fn bench_table() -> Table
    ensures { result ≡ bench_table }
{
    read_names(&BENCH_PAIRS)
}
