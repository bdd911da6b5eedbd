// Big-endian numbers of a byte string, and ranges.
#![tactic(auto)]

pub mod bytes; // bytes.rt: big-endian numbers of a byte string
pub mod range; // range.rt: a test that a number is in a range
