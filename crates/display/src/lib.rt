// A figure for the wall display: a discharge and its margin as floats in m³/s.
#![tactic(auto)]

ghost use Rattle.std.specs.Prelude.{◌≡◌, ◌≤◌};
ghost use Rattle.refusal.specs.Answers.{answer_of};
ghost use Rattle.units.specs.Units.{C};
ghost use Rattle.display.specs.Display.{cubic_metres, show_answer};

use refusal::Refusal;
use units::Discharge;

// A discharge and its margin in m³/s.
#[derive(Clone, Copy)]
pub struct Shown {
    pub discharge: f64,
    pub margin: f64,
}

// Grains as m³/s: the count as a float, exactly, divided once.
fn cubic_metres(grains: Discharge) -> f64
    requires { grains.0 ≤ C }
    ensures { result ≡ cubic_metres grains.0 }
{
    grains.0 as f64 / 1_000_000.0
}

// A discharge and its margin for the display; a count that passes the ceiling is refused.
pub fn show(discharge: u64, margin: u64) -> Result<Shown, Refusal>
    ensures { answer_of result ≡ show_answer discharge margin }
{
    let discharge = Discharge::new(discharge)?;
    let margin = Discharge::new(margin)?;
    Ok(Shown {
        discharge: cubic_metres(discharge),
        margin: cubic_metres(margin),
    })
}
