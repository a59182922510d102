//! Rows of calls.

mod cells;
mod classes;
mod graphs;
mod plans;
mod tables;
