//! A large load, made of two numbers: a program that counts in two kinds of cells, and as many items for it as are wanted.
//!
//! `make` gives the two texts, byte for byte as `specs/Loads` has them. The program takes keys of the whole program and of
//! sessions, nests nodes that hold them, and chooses between two cases by its item.
#![tactic(auto)]

mod texts;

pub use texts::make;
