//! Trials in few and large tables.

mod doors;
mod files;
mod folders;
mod made_up;
mod streams;
