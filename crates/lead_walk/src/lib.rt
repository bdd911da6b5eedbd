// One element through the leads of a forecast; a tank through them or a step.
#![tactic(auto)]

ghost use Rattle.std.specs.Prelude.{◌≢◌, ◌≡◌};
ghost use Rattle.elements.specs.Kinds.{dam};
ghost use Rattle.one_lead.specs.Worked.{tank_input};
ghost use Rattle.lead_walk.specs.Worked.{LeadsReady, TankReady, LeadsDone, ElementWorked};

use elements::Kind;
use method::Figures;
use one_lead::{ElementInput, Lead, hold_lead, tank_lead, work_lead};
use rating::RatedReading;
use refusal::Refusal;

// All leads of an element that stores water, from its figures before the first: its own places and those of the element below begin at
// `here` and `below`. 16 where a number passes the ceiling.
fn store_element(
    input: ElementInput,
    first: Figures,
    here: usize,
    below: usize,
    leads: usize,
    space: &mut [Figures],
) -> Result<(), Refusal>
    requires { LeadsReady input first here below leads space.old × (input.element.kind ≢ dam) }
    ensures { ElementWorked result input first here below leads space.old space.new }
{
    let mut old = first;
    for k in 0..leads {
        let lead = Lead {
            number: input.first_lead + k as u64,
            here: here + k,
            below: below + k,
        };
        old = work_lead(input, lead, old, &mut *space)?;
    }
    Ok(())
}

// All leads of a dam: it lets out the same at each.
fn hold_dam(
    input: ElementInput,
    first: Figures,
    here: usize,
    below: usize,
    leads: usize,
    space: &mut [Figures],
)
    requires { LeadsReady input first here below leads space.old × (input.element.kind ≡ dam) }
    ensures { LeadsDone input first here below leads space.old space.new }
{
    let mut old = first;
    for k in 0..leads {
        old = hold_lead(input, here + k, below + k, old, &mut *space);
    }
}

// All leads of an element. (A dam's are apart from the others, so that the loop over these stays small.)
pub fn work_element(
    input: ElementInput,
    first: Figures,
    here: usize,
    below: usize,
    leads: usize,
    space: &mut [Figures],
) -> Result<(), Refusal>
    requires { LeadsReady input first here below leads space.old }
    ensures { ElementWorked result input first here below leads space.old space.new }
{
    match input.element.kind {
        Some(Kind::Dam) => {
            hold_dam(input, first, here, below, leads, space);
            Ok(())
        }
        Some(Kind::Basin | Kind::Reach | Kind::Tanks) | None => store_element(
            input, first, here, below, leads, space,
        ),
    }
}

// All leads of a tank, or its step, which is one lead: whether no number passes the ceiling.
pub fn store_tank(
    noise: u64,
    weight: u64,
    observation: Option<RatedReading>,
    first: Figures,
    here: usize,
    below: usize,
    leads: usize,
    space: &mut [Figures],
) -> Result<(), Refusal>
    requires { TankReady (tank_input noise weight observation) first here below leads space.old }
    ensures { ElementWorked result (tank_input noise weight observation) first here below leads space.old space.new }
{
    let mut old = first;
    for k in 0..leads {
        old = tank_lead(
            noise,
            weight,
            observation,
            here + k,
            below + k,
            old,
            &mut *space,
        )?;
    }
    Ok(())
}
