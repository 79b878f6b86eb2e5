// The text job: a grid, its densities and rays in lines of bytes, answered in lines of bytes.
#![tactic(auto)]

pub mod feed;
mod rays;
pub mod state;
pub mod step;
pub mod whole;
