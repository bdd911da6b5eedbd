// A number with its margin; the series weight of an element, and the blend by a weight.
#![tactic(auto)]

pub mod weight; // weight.rt: the series weight H of an element
pub mod blend; // blend.rt: the blend of two estimates by a weight

// S: weights are whole numbers 0 to S.
pub const SCALE: u64 = 1_000_000_000;

// A number with its margin.
#[derive(Clone, Copy)]
pub struct Estimate {
    pub value: u64,
    pub margin: u64,
}
