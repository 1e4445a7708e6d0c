//! Conway's game of life: what a cell becomes.
use task_bodies::kernel::Window;

/// Returns what a cell becomes, which holds 1 if it lives and 0 if not: it lives with three living neighbours, and goes on
/// living with two.
pub fn next(cells: Window) -> i64 {
    let above = cells
        .north_west
        .wrapping_add(cells.north)
        .wrapping_add(cells.north_east);
    let below = cells
        .south_west
        .wrapping_add(cells.south)
        .wrapping_add(cells.south_east);
    let around = above
        .wrapping_add(below)
        .wrapping_add(cells.west)
        .wrapping_add(cells.east);
    if around == 3 || (around == 2 && cells.own == 1) {
        1
    } else {
        0
    }
}
