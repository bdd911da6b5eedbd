// The move of one element, in parts that the compiler puts into each caller.
#![tactic(auto)]

ghost use Rattle.std.specs.Prelude.{◌≡◌, ◌≤◌};
ghost use Rattle.refusal.specs.Answers.{answer_of};
ghost use Rattle.units.specs.Units.{C, S};
ghost use Rattle.weighting.specs.Estimates.{estimate, EstimateFits, AnsweredEstimateFits};
ghost use Rattle.weighting.specs.Blend.{blend_answer};
ghost use Rattle.method.specs.Figures.{variance, FiguresFit, AnsweredFiguresFit};
ghost use Rattle.method.specs.Routing.{routed_discharge};
ghost use Rattle.routing.specs.Parts.{parts_answer, routed_answer};

use method::Figures;
use refusal::Refusal;
use units::Variance;
use weighting::blend::blend;
use weighting::{Estimate, SCALE};

const WEIGHT_MARGIN: u64 = 3;

// A part of the new variance: a variance blended with 0. Its margin is a variance's.
#[tactic(auto, unfolding(weighting::specs::Estimates::AnsweredEstimateFits, weighting::specs::Blend::blend_answer, units::specs::Ceiling::under_ceiling, units::specs::Ceiling::some_passes))]
fn variance_part(weight: u64, variance: Estimate) -> Result<Estimate, Refusal>
    requires { (weight ≤ S) × EstimateFits variance }
    ensures { (answer_of result ≡ blend_answer weight 3 variance (estimate 0 0)) × AnsweredEstimateFits result }
{
    let zero = Estimate {
        value: 0,
        margin: 0,
    };
    let part = blend(weight, WEIGHT_MARGIN, variance, zero);
    let margin = Variance::new(part.margin)?;
    Ok(Estimate {
        value: part.value,
        margin: margin.0,
    })
}

// The variance after the step, by the weight of the element and its system noise; its parts are judged, itself not yet.
#[tactic(auto, unfolding(weighting::specs::Estimates::AnsweredEstimateFits, weighting::specs::Blend::blend_answer, method::specs::Routing::old_variance_part, method::specs::Routing::inflow_variance_part, method::specs::Routing::routed_variance, crate::specs::Parts::part_margins, units::specs::Ceiling::under_ceiling, units::specs::Ceiling::some_passes))]
pub fn route_variance(
    weight: u64,
    noise: u64,
    inflow: Figures,
    old: Figures,
) -> Result<Estimate, Refusal>
    requires { (weight ≤ S) × ((noise ≤ C) × (FiguresFit inflow × FiguresFit old)) }
    ensures { answer_of result ≡ parts_answer weight noise (variance inflow) (variance old) }
{
    let old_part = variance_part(weight, old.variance_estimate())?;
    let inflow_part = variance_part(SCALE - weight, inflow.variance_estimate())?;
    let both = blend(weight, WEIGHT_MARGIN, old_part, inflow_part);
    Ok(Estimate {
        value: both.value + noise,
        margin: both.margin,
    })
}

// The discharge after the step, not yet judged.
#[tactic(auto, unfolding(method::specs::Routing::routed_discharge))]
pub fn route_discharge(weight: u64, inflow: Figures, old: Figures) -> Estimate
    requires { (weight ≤ S) × (FiguresFit inflow × FiguresFit old) }
    ensures { result ≡ routed_discharge weight inflow old }
{
    blend(
        weight,
        WEIGHT_MARGIN,
        old.discharge_estimate(),
        inflow.discharge_estimate(),
    )
}

// The element after the step, before a reading corrects it: its discharge and its variance, judged.
#[tactic(auto, unfolding(crate::specs::Parts::routed_answer, method::specs::Figures::AnsweredFiguresFit))]
pub fn routed_figures(q: Estimate, v: Result<Estimate, Refusal>) -> Result<Figures, Refusal>
    ensures { (answer_of result ≡ routed_answer q (answer_of v)) × AnsweredFiguresFit result }
{
    Figures::new(q, v?)
}
