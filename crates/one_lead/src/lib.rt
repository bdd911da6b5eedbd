// One element at one lead of a forecast, or at a step: its new figures take the place of what drained into it, and with its old ones are
// added to what drains into the element below.
#![tactic(auto)]

ghost use Rattle.std.specs.Prelude.{◌≢◌, ◌≡◌};
ghost use Rattle.method.specs.Inflow.{old_and_new_outflow};
ghost use Rattle.elements.specs.Kinds.{dam};
ghost use Rattle.answer_space.specs.Places.{most_sum, most_sum_before};
ghost use Rattle.one_lead.specs.Worked.{step_lead, LeadReady, LeadWorked, DamWorked, tank_input, TankWorked};

use answer_space::{add_figures, put_and_add};
use element_step::{Intake, dam_figures, lead_element, step_element, step_tank};
use elements::Element;
use inflow::old_outflow;
use method::Figures;
use rating::RatedReading;
use refusal::Refusal;

// What a step or a forecast works out one element from: itself, its weight, its own number (a basin's inflow from rain, a dam's release, 0
// for a reach), the number of the first lead (0 for a step, 1 for a forecast), and what its gauge observed.
#[derive(Clone, Copy)]
pub struct ElementInput {
    pub element: Element,
    pub weight: u64,
    pub own: u64,
    pub first_lead: u64,
    pub observation: Option<RatedReading>,
}

// One lead of an element: its number, and the places of the element and of the one below it.
#[derive(Clone, Copy)]
pub struct Lead {
    pub number: u64,
    pub here: usize,
    pub below: usize,
}

// One lead of an element that stores water, from its figures before it: its figures, which now stand at its place, where what drains into it
// stood.
pub fn work_lead(
    input: ElementInput,
    lead: Lead,
    old: Figures,
    space: &mut [Figures],
) -> Result<Figures, Refusal>
    requires { LeadReady most_sum_before input lead old space.old × ((input.observation ≡ None) × (input.element.kind ≢ dam)) }
    ensures { LeadWorked (old_and_new_outflow old) result input lead old space.old space.new }
{
    let above = space[lead.here];
    let intake = Intake {
        own: input.own,
        lead: lead.number,
        above,
        observation: input.observation,
    };
    let new = lead_element(input.element, input.weight, intake, old)?;
    add_figures(&mut *space, lead.below, old_outflow(old));
    put_and_add(&mut *space, lead.here, lead.below, new);
    Ok(new)
}

// One lead of a dam, from its figures before it: its figures, those of its release. (The old ones are added last: with them first the loop
// that the compiler makes of the other elements' leads takes more instructions.)
pub fn hold_lead(
    input: ElementInput,
    here: usize,
    below: usize,
    old: Figures,
    space: &mut [Figures],
) -> Figures
    requires { LeadReady most_sum_before input (step_lead here below) old space.old × (input.element.kind ≡ dam) }
    ensures { DamWorked result input here below old space.old space.new }
{
    let released = dam_figures(input.element, input.own);
    put_and_add(&mut *space, here, below, released);
    add_figures(space, below, old_outflow(old));
    released
}

// The step of an element, in the same way as a lead, but that its old figures have been added at the place below already.
pub fn work_step(
    input: ElementInput,
    here: usize,
    below: usize,
    old: Figures,
    space: &mut [Figures],
) -> Result<Figures, Refusal>
    requires { LeadReady most_sum input (step_lead here below) old space.old }
    ensures { LeadWorked (λ x. x) result input (step_lead here below) old space.old space.new }
{
    let above = space[here];
    let intake = Intake {
        own: input.own,
        lead: 0,
        above,
        observation: input.observation,
    };
    let new = step_element(input.element, input.weight, intake, old)?;
    put_and_add(&mut *space, here, below, new);
    Ok(new)
}

// One lead of a tank, in the same way as that of an element; a step is one lead.
pub fn tank_lead(
    noise: u64,
    weight: u64,
    observation: Option<RatedReading>,
    here: usize,
    below: usize,
    old: Figures,
    space: &mut [Figures],
) -> Result<Figures, Refusal>
    requires { LeadReady most_sum_before (tank_input noise weight observation) (step_lead here below) old space.old }
    ensures { TankWorked result noise weight observation here below old space.old space.new }
{
    let above = space[here];
    let new = step_tank(noise, weight, observation, above, old)?;
    add_figures(&mut *space, below, old_outflow(old));
    put_and_add(&mut *space, here, below, new);
    Ok(new)
}
