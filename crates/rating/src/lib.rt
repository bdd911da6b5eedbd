// From a stage to a discharge, on a piece of the rating curve of a gauge, and to the noise of a reading there.
#![tactic(auto)]

ghost use Rattle.std.specs.Prelude.{◌≡◌, ◌≤◌};
ghost use Rattle.refusal.specs.Answers.{answer_of};
ghost use Rattle.units.specs.Units.{C};
ghost use Rattle.rating.specs.Rating.{offset_size, discharge_at, on_piece, PieceFits};
ghost use Rattle.rating.specs.Noise.{noise_of};
ghost use Rattle.rating.specs.Bounds.{NoiseInRange};

use refusal::Refusal;
use units::{Discharge, Stage, Variance};

// b of a piece, in millimetres of either sign.
#[derive(Clone, Copy)]
pub enum Offset {
    Plus(u64),
    Minus(u64),
}

impl Offset {
    // How far b is from 0.
    pub fn size(self) -> u64
        ensures { result ≡ offset_size self }
    {
        match self {
            Offset::Plus(b) | Offset::Minus(b) => b,
        }
    }
}

// A piece of a rating curve: z = a (h + b)² / 1,000 for the stages h below its top.
#[derive(Clone, Copy)]
pub struct Piece {
    pub top: Stage,
    pub factor: u64,
    pub offset: Offset,
}

// The curve of a gauge; the pieces in use come first.
#[derive(Clone, Copy)]
pub struct Curve {
    pub count: usize,
    pub pieces: [Piece; 5],
}

// A rated stage: its discharge, and the noise of a reading there.
#[derive(Clone, Copy)]
pub struct RatedReading {
    pub discharge: Discharge,
    pub noise: Variance,
}

// What one look along a curve finds: the rated stage or its refusal, and with either how many pieces were read.
#[derive(Clone, Copy)]
pub struct CurveLook {
    pub rated: Result<RatedReading, Refusal>,
    pub pieces: usize,
}

// The discharge of the depth h + b on a piece with the factor a.
fn discharge_at(factor: u64, depth: u64) -> Result<Discharge, Refusal>
    requires { (factor ≤ 1000000) × (depth ≤ 60000) }
    ensures { answer_of result ≡ discharge_at factor depth }
{
    Discharge::new(factor * (depth * depth) / 1_000).map_err(|_| Refusal::ReadingRange)
}

// The discharge of a stage on a piece.
pub fn rate_on_piece(stage: u64, piece: Piece) -> Result<Discharge, Refusal>
    requires { (stage ≤ 30000) × PieceFits piece }
    ensures { answer_of result ≡ on_piece stage piece }
{
    match piece.offset {
        Offset::Plus(b) => discharge_at(piece.factor, stage + b),
        Offset::Minus(b) => {
            if stage < b {
                return Err(Refusal::ReadingRange);
            }
            discharge_at(piece.factor, stage - b)
        }
    }
}

// The noise of a reading of z, by R and β of its gauge.
pub fn noise_of(least: u64, beta: u64, z: u64) -> u64
    requires { NoiseInRange least beta × (z ≤ C) }
    ensures { result ≡ noise_of least beta z }
{
    let t = beta * z / 1_000_000;
    least + t * t / 1_000
}
