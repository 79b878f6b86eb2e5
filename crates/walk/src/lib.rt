// The exact walk: from a scene in whole numbers without a sign to the voxels that the ray meets, in order, the parts, and the sum.
#![tactic(auto)]

pub mod call;
pub mod entries;
mod order;
pub mod plan;
pub mod steps;
