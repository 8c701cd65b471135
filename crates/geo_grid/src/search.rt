//! What a search needs: forms, the grids of these, and cursors over a grid.

mod cursor;
mod digits;
mod form;
mod grid;
mod place;
mod sizes;
mod wheels;

pub use cursor::Cursor;
pub use form::{Form, Scratch};
pub use grid::{Grid, GridStop};
