// The cells of all items, row by row: the one in a row, and what a miss makes of them.
// Keeps 01 "The 40-byte frame", its paragraph on the desk: each slot makes an item older.
#![tactic(auto)]

ghost use Rattle.std.specs.Prelude.{◌≡◌, get_or};
ghost use Rattle.cell.specs.Cell.{blank};
ghost use Rattle.cells.specs.Cells.{cells_after, nothing};

use cell::Cell;
use frame::ITEMS;

// The cell in row k; past the last row a blank one.
pub fn cell_at(cells: [Cell; ITEMS], k: usize) -> Cell
    ensures { result ≡ get_or cells k blank }
{
    if k < ITEMS {
        return cells[k];
    }
    cell::blank()
}

// The cells after a miss: each is a slot older.
pub fn older(old: [Cell; ITEMS]) -> [Cell; ITEMS]
    ensures { result ≡ cells_after nothing old }
{
    let mut cells = old;
    for c in cells.iter_mut() {
        *c = cell::next(None, *c);
    }
    cells
}
