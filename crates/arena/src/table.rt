//! Where the entries of a table lie.
ghost use Rattle.std.specs.Prelude.{◌≡◌, ◌+◌, ◌*◌, ◌^◌, ◌<◌, ◌≤◌, ◌++◌, drop, length};
ghost use Rattle.arena.specs.Table.{entry_at, pairs};
ghost use Rattle.arena.specs.Written.{all_standing};

use crate::arena::Arena;
use crate::entry::STANDING;

/// The place of the pair's entry in a table with a row for each old state and so many columns.
pub(crate) fn place_of(columns: u16, pair: (u16, u16)) -> usize
    ensures { result ≡ pair.0 * columns + pair.1 }
{
    let (row, column) = pair;
    usize::from(row) * usize::from(columns) + usize::from(column)
}

/// The entry at the place. Past the end of the table it is that of a pair that stands.
// No `Option`: no call asks there, and docs/DECISIONS.md settles what is answered.
pub(crate) fn entry_at(table: &[u32], place: usize) -> u32
    ensures { result ≡ entry_at table.now place }
{
    table.get(place).copied().unwrap_or(STANDING)
}

/// How many pairs there are: fewer than 2 ^ 32, as many as a table's entries can number.
pub fn number_of_pairs<A: Arena>(arena: &A) -> usize
    ensures number { result ≡ pairs (A.Arena.view arena.now) }
    ensures few { result < 2 ^ 32 }
{
    usize::from(arena.old_states()) * usize::from(arena.new_states())
}

/// Makes every entry that of a pair that stands.
pub fn clear(table: &mut [u32])
    ensures { table.new ≡ all_standing (length table.old) }
{
    table.fill(STANDING);
}

/// Makes so many of the first entries those of pairs that stand.
pub(crate) fn clear_first(table: &mut [u32], entries: usize)
    requires { entries ≤ length table.old }
    ensures { table.new ≡ all_standing entries ++ drop entries table.old }
{
    clear(&mut table[..entries]);
}
