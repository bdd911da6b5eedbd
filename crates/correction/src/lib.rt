// The correction of one element by a reading.
#![tactic(auto)]

ghost use Rattle.std.specs.Prelude.{◌≡◌, ◌≤◌};
ghost use Rattle.refusal.specs.Answers.{answer_of};
ghost use Rattle.units.specs.Units.{C};
ghost use Rattle.weighting.specs.Estimates.{EstimateFits};
ghost use Rattle.method.specs.Figures.{FiguresFit, AnsweredFiguresFit};
ghost use Rattle.method.specs.Correction.{corrected_variance, correction_answer};

use gain::{gain_margin_of, gain_of};
use method::Figures;
use refusal::Refusal;
use units::{Discharge, Variance};
use weighting::blend::blend;
use weighting::{Estimate, SCALE};

// The variance that is left once a reading has come in, with its margin.
#[tactic(auto, unfolding(method::specs::Correction::corrected_variance))]
fn variance_left(noise: u64, variance: Estimate) -> Estimate
    requires { (1 ≤ noise) × ((noise ≤ C) × EstimateFits variance) }
    ensures { result ≡ corrected_variance noise variance }
{
    let total = variance.value + noise;
    Estimate {
        value: variance.value * noise / total,
        margin: variance.margin * noise / total + 2,
    }
}

// The correction of one element by the rated discharge z of a reading.
#[tactic(auto, unfolding(method::specs::Inflow::inflow_answer, method::specs::Inflow::inflow_numbers, method::specs::Correction::correction_answer, method::specs::Correction::correction_numbers, method::specs::Correction::corrected, method::specs::Correction::corrected_discharge))]
pub fn correct(noise: Variance, z: Discharge, x: Figures) -> Result<Figures, Refusal>
    requires { (1 ≤ noise.0) × ((noise.0 ≤ C) × ((z.0 ≤ C) × FiguresFit x)) }
    ensures { (answer_of result ≡ correction_answer noise.0 z.0 x) × AnsweredFiguresFit result }
{
    let old = x.variance_estimate();
    let reading = Estimate {
        value: z.0,
        margin: 1,
    };
    let gain = gain_of(noise.0, old.value);
    let gain_margin = gain_margin_of(noise.0, old);
    let q = blend(SCALE - gain, gain_margin, x.discharge_estimate(), reading);
    let left = variance_left(noise.0, old);
    Figures::new(q, left)
}
