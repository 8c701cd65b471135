//! Tests of the whole program: the worked rows, and what no script of `cases/` can show.

mod batches;
mod failing;
mod figures;
mod gates;
mod rows;
mod sizes;
mod tables;
mod views;
mod words;
