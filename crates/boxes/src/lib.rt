//! Boxes of a row-major memref, of any rank: where their cells lie, and which of them one transfer carries.
//!
//! Definitions and laws alone; `Every`, what holds of each element of a list, stands here since all laws of staging speak of it.
#![tactic(auto)]

ghost use Rattle.boxes.specs.Laws.{CellsKeepOrder, ElementsAreCells, OneTransferCarries};

/// Cells lie in the memref, in the order of their numbers.
pub fn cells_keep_order()
    ensures { CellsKeepOrder }
{}

/// An element within the box is the cell of its number.
pub fn elements_are_cells()
    ensures { ElementsAreCells }
{}

/// One transfer carries a box whose cells are runs at equal distances.
pub fn one_transfer_carries()
    ensures { OneTransferCarries }
{}
