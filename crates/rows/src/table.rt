// The table of rows of 256 entries. Places are counted through all of them, and what begins at a place lies in one row.
ghost use Rattle.std.specs.Prelude.{◌≡◌, ◌+◌, ◌%◌, ◌<◌, length};
ghost use Rattle.rows.specs.Table.{capacity};
ghost use Rattle.rows.specs.Cells.{cell, put, Shaped, Room, Placed};

use crate::Table;

// Entry i of what begins at `start`.
pub(crate) fn entry(table: &Table, start: usize, i: usize) -> u32
    requires { (start < capacity) × (start % 256 + i < 256) }
    ensures { result ≡ cell table.now (start + i) }
{
    table[start / 256][start % 256 + i]
}

// Another entry there.
pub(crate) fn store(table: &mut Table, start: usize, i: usize, value: u32)
    requires { (start < capacity) × (start % 256 + i < 256) }
    ensures { table.new ≡ put table.old (start + i) value }
{
    table[start / 256][start % 256 + i] = value;
}

// A whole row from there on.
pub(crate) fn store_row(table: &mut Table, start: usize, row: &[u32])
    requires { Shaped table.old × Room start (length row.now) }
    ensures { Placed table.old start row.now table.new }
{
    for (i, value) in row.iter().enumerate() {
        store(table, start, i, *value);
    }
}
