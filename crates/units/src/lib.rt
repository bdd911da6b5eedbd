// Discharge, variance and stage as types of their own, and the ceiling that their constructors hold them under.
#![tactic(auto)]

ghost use Rattle.std.specs.Prelude.{◌≡◌, [], ◌∷◌};
ghost use Rattle.units.specs.Units.{grains, thousandths};
ghost use Rattle.units.specs.Ceiling.{under_ceiling};
ghost use Rattle.refusal.specs.Answers.{answer_of};

use refusal::Refusal;

// A discharge, an inflow or a margin of one, in grains of 0.000001 m³/s.
#[repr(C)]
#[derive(Clone, Copy)]
pub struct Discharge(pub u64);

// A variance or a margin of one, in units of 0.001 (m³/s)².
#[repr(C)]
#[derive(Clone, Copy)]
pub struct Variance(pub u64);

// A stage in millimetres.
#[derive(Clone, Copy)]
pub struct Stage(pub u64);

// The ceiling C of every number that these types hold.
const CEILING: u64 = 4_000_000_000;

// What so many units make, or the refusal of a count that passes the ceiling.
fn under_ceiling<Q: Copy>(count: u64, quantity: Q) -> Result<Q, Refusal>
    ensures { answer_of result ≡ under_ceiling (count ∷ []) quantity }
{
    if CEILING < count {
        return Err(Refusal::AboveCeiling);
    }
    Ok(quantity)
}

impl Discharge {
    pub const CEILING: u64 = CEILING;

    // The discharge of so many grains, or the refusal of one that passes the ceiling.
    pub fn new(count: u64) -> Result<Self, Refusal>
        ensures { answer_of result ≡ under_ceiling (count ∷ []) (grains count) }
    {
        under_ceiling(count, Discharge(count))
    }
}

impl Variance {
    pub const CEILING: u64 = CEILING;

    // The variance of so many thousandths, or the refusal of one that passes the ceiling.
    pub fn new(count: u64) -> Result<Self, Refusal>
        ensures { answer_of result ≡ under_ceiling (count ∷ []) (thousandths count) }
    {
        under_ceiling(count, Variance(count))
    }
}
