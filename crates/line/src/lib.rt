// What one axis is to a ray, and three of them, told from the lower limit up: in whole numbers without a sign.
#![tactic(auto)]

pub mod line;
pub mod quotient;
pub mod reach;
pub mod scene;
