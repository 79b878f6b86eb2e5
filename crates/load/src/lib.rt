// The loader of a text job: GRID and DENS lines out of pieces of bytes, and the lines that are
// refused. What a program answers on lines of its own kind is left to it.
#![tactic(auto)]

pub mod bad;
pub mod cut;
mod dens;
mod grid;
mod head;
pub mod line;
pub mod refusal;
pub mod state;
