// One element at a step or a lead: its inflow by its kind, its move, its correction by a reading, a dam's release; a basin's rains after a
// step.
#![tactic(auto, unfolding(method::specs::Figures::AnsweredFiguresFit))]

ghost use Rattle.std.specs.Prelude.{◌≢◌, ◌≡◌, ◌≤◌};
ghost use Rattle.refusal.specs.Answers.{answer_of};
ghost use Rattle.method.specs.Figures.{FiguresFit, AnsweredFiguresFit};
ghost use Rattle.method.specs.Inflow.{reach_inflow};
ghost use Rattle.inflow.specs.Basin.{basin_inflow};
ghost use Rattle.elements.specs.Kinds.{dam};
ghost use Rattle.record.specs.Decoded.{ObservationFits};
ghost use Rattle.element_step.specs.Rains.{shifted_rains};
ghost use Rattle.element_step.specs.Bounds.{MoveInRange, StepInRange, tank_element, TankInRange};
ghost use Rattle.element_step.specs.ElementStep.{released};
ghost use Rattle.element_step.specs.Answers.{corrected_answer, moved_answer, stored_answer, element_answer};

use correction::correct;
use elements::{Element, Kind};
use inflow::{basin_inflow, reach_inflow};
use method::Figures;
use rating::RatedReading;
use refusal::Refusal;
use routing::{route_discharge, route_variance, routed_figures};
use state::Rains;
use units::{Discharge, Variance};

// What an element takes in: its own number (a basin's inflow from rain, a dam's release, 0 for a reach), the number of the lead (0 at a
// step), the sums of what drains in, and what its gauge observed.
#[derive(Clone, Copy)]
pub struct Intake {
    pub own: u64,
    pub lead: u64,
    pub above: Figures,
    pub observation: Option<RatedReading>,
}

// A reading corrects the element's figures, where its noise does not pass the ceiling; nothing observed leaves them.
#[tactic(auto, unfolding(crate::specs::Answers::corrected_answer, crate::specs::ElementStep::corrected_by, crate::specs::ElementStep::observation_numbers, method::specs::Correction::correction_answer, method::specs::Figures::AnsweredFiguresFit, record::specs::Decoded::ObservationFits, units::specs::Ceiling::under_ceiling, units::specs::Ceiling::some_passes))]
fn correct_by(observation: Option<RatedReading>, x: Figures) -> Result<Figures, Refusal>
    requires { ObservationFits observation × FiguresFit x }
    ensures { (answer_of result ≡ corrected_answer observation x) × AnsweredFiguresFit result }
{
    match observation {
        None => Ok(x),
        Some(RatedReading { discharge, noise }) => {
            if Variance::CEILING < noise.0 {
                return Err(Refusal::AboveCeiling);
            }
            correct(noise, discharge, x)
        }
    }
}

// A basin at a step (lead 0) or a lead: what rain brings, judged, and the move with it.
#[inline(always)]
fn move_basin(
    e: Element,
    weight: u64,
    rain_inflow: u64,
    lead: u64,
    old: Figures,
) -> Result<Figures, Refusal>
    requires { (lead ≤ 12) × MoveInRange e weight old }
    ensures { (answer_of result ≡ moved_answer weight e (basin_inflow rain_inflow lead e.rain_noise.0) old) × AnsweredFiguresFit result }
{
    let inflow = basin_inflow(rain_inflow, lead, e.rain_noise.0)?;
    routed_figures(
        route_discharge(weight, inflow, old),
        route_variance(weight, e.system_noise.0, inflow, old),
    )
}

// A reach or a tank with this system noise, at a step or a lead: what drains in, judged, and the move with it.
#[inline(always)]
fn move_reach(noise: u64, weight: u64, above: Figures, old: Figures) -> Result<Figures, Refusal>
    requires { TankInRange noise weight old }
    ensures { (answer_of result ≡ moved_answer weight (tank_element noise) (reach_inflow above) old) × AnsweredFiguresFit result }
{
    let inflow = reach_inflow(above)?;
    routed_figures(
        route_discharge(weight, inflow, old),
        route_variance(weight, noise, inflow, old),
    )
}

// A tank at a step or a lead, corrected where something is observed.
pub fn step_tank(
    noise: u64,
    weight: u64,
    observation: Option<RatedReading>,
    above: Figures,
    old: Figures,
) -> Result<Figures, Refusal>
    requires { TankInRange noise weight old × ObservationFits observation }
    ensures { (answer_of result ≡ stored_answer weight (tank_element noise) observation (reach_inflow above) old) × AnsweredFiguresFit result }
{
    correct_by(observation, move_reach(noise, weight, above, old)?)
}

// A dam at a step or a lead: it lets out its release, whatever drains in and whatever it had before.
#[tactic(auto, unfolding(crate::specs::ElementStep::released))]
pub fn dam_figures(e: Element, release: u64) -> Figures
    ensures { result ≡ released e release }
{
    Figures {
        discharge: Discharge(release),
        discharge_margin: Discharge(0),
        variance: e.system_noise,
        variance_margin: Variance(0),
    }
}

// One element at a step, by its kind: a basin and a reach move and are corrected, a dam lets out its release; all other bytes are refused.
pub fn step_element(
    e: Element,
    weight: u64,
    intake: Intake,
    old: Figures,
) -> Result<Figures, Refusal>
    requires { StepInRange e weight intake old × (intake.lead ≡ 0) }
    ensures { (answer_of result ≡ element_answer weight e intake old) × AnsweredFiguresFit result }
{
    match e.kind {
        Some(Kind::Basin) => correct_by(
            intake.observation,
            move_basin(e, weight, intake.own, 0, old)?,
        ),
        Some(Kind::Reach) => correct_by(
            intake.observation,
            move_reach(e.system_noise.0, weight, intake.above, old)?,
        ),
        Some(Kind::Dam) => Ok(dam_figures(e, intake.own)),
        Some(Kind::Tanks) | None => Err(Refusal::ElementField),
    }
}

// One element that stores water at a lead, where nothing is observed, by its kind; a dam's leads are worked out apart (`lead_walk`).
pub fn lead_element(
    e: Element,
    weight: u64,
    intake: Intake,
    old: Figures,
) -> Result<Figures, Refusal>
    requires { StepInRange e weight intake old × ((intake.observation ≡ None) × (e.kind ≢ dam)) }
    ensures { (answer_of result ≡ element_answer weight e intake old) × AnsweredFiguresFit result }
{
    match e.kind {
        Some(Kind::Basin) => move_basin(e, weight, intake.own, intake.lead, old),
        Some(Kind::Reach) => move_reach(e.system_noise.0, weight, intake.above, old),
        Some(Kind::Dam | Kind::Tanks) | None => Err(Refusal::ElementField),
    }
}

// A basin's rains after a step, the latest first.
#[tactic(auto, unfolding(crate::specs::Rains::shifted_rains))]
pub fn shifted_rains(rain: u64, before: Rains) -> Rains
    ensures { result ≡ shifted_rains rain before }
{
    Rains {
        first: rain,
        second: before.first,
        third: before.second,
    }
}
