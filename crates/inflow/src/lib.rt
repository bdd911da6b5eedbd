// The inflow of an element: a basin's from rain, a reach's from what drains in; what old figures bring to it.
#![tactic(auto)]

ghost use Rattle.std.specs.Prelude.{◌≡◌, ◌≤◌};
ghost use Rattle.refusal.specs.Answers.{answer_of};
ghost use Rattle.method.specs.Figures.{AnsweredFiguresFit};
ghost use Rattle.method.specs.Inflow.{mean_rain_inflow, old_outflow, reach_inflow, inflow_answer};
ghost use Rattle.inflow.specs.Basin.{basin_inflow};

use method::Figures;
use refusal::Refusal;
use units::Variance;
use weighting::Estimate;

// The inflow from the mean of the last rains: 5 × sum × area × f / (18 × count), each divisor a constant.
#[tactic(auto, unfolding(method::specs::Inflow::mean_rain_inflow))]
pub fn mean_rain_inflow(sum: u64, count: u64, area: u64, runoff: u64) -> u64
    requires { (sum ≤ 9000) × ((count ≤ 3) × ((area ≤ 400000) × (runoff ≤ 1000))) }
    ensures { result ≡ mean_rain_inflow sum count area runoff }
{
    let whole = 5 * sum * area * runoff;
    match count {
        0 => 0,
        1 => whole / 18,
        2 => whole / 36,
        _ => whole / 54,
    }
}

// The figures of a basin's inflow at a step (lead 0) or at a lead, by its rain inflow and its rain noise.
#[tactic(auto, unfolding(crate::specs::Basin::basin_inflow))]
pub fn basin_inflow(rain_inflow: u64, lead: u64, noise: u64) -> Result<Figures, Refusal>
    requires { (lead ≤ 12) × (noise ≤ 100000000) }
    ensures { (answer_of result ≡ inflow_answer (basin_inflow rain_inflow lead noise)) × AnsweredFiguresFit result }
{
    Figures::new(
        Estimate {
            value: rain_inflow,
            margin: 1,
        },
        Estimate {
            value: lead * noise,
            margin: 0,
        },
    )
}

// What an element's old figures bring to the sums below it: the discharge and its margin.
#[tactic(auto, unfolding(method::specs::Inflow::old_outflow))]
pub fn old_outflow(old: Figures) -> Figures
    ensures { result ≡ old_outflow old }
{
    Figures {
        variance: Variance(0),
        variance_margin: Variance(0),
        ..old
    }
}

// The figures of a reach's inflow, of the sums of what drains into it: half of the old and new discharges, rounded down,
// the new variances.
#[tactic(auto, unfolding(method::specs::Inflow::reach_inflow))]
pub fn reach_inflow(above: Figures) -> Result<Figures, Refusal>
    ensures { (answer_of result ≡ inflow_answer (reach_inflow above)) × AnsweredFiguresFit result }
{
    Figures::new(
        Estimate {
            value: above.discharge.0 / 2,
            margin: above.discharge_margin.0 / 2 + 1,
        },
        above.variance_estimate(),
    )
}
