// The state that a start leaves.
#![tactic(auto)]

ghost use Rattle.std.specs.Prelude.{◌≡◌, ◌+◌, ◌≤◌, ◌<◌};
ghost use Rattle.sizes.specs.Sizes.{most_places};
ghost use Rattle.table.specs.Bounds.{AcceptedTable};
ghost use Rattle.table.specs.InUse.{table_in};
ghost use Rattle.state.specs.States.{changed, figures_put};
ghost use Rattle.state.specs.Start.{first_figures, first_put, started};

use elements::{Element, Kind, element_at, extra_of};
use method::Figures;
use sizes::STATE_NUMBERS;
use state::{Rains, put_figures, put_rains};
use units::{Discharge, Variance};

// The first values, margins 0.
#[tactic(auto, unfolding(state::specs::Start::first_figures))]
fn first_figures(e: Element) -> Figures
    ensures { result ≡ first_figures e }
{
    Figures {
        discharge: e.first_discharge,
        discharge_margin: Discharge(0),
        variance: e.first_variance,
        variance_margin: Variance(0),
    }
}

// The place of element i at the start: its first values, and a basin's rains 0.
#[tactic(auto, unfolding(state::specs::Start::first_put, state::specs::States::put_place, elements::specs::Kinds::by_kind))]
fn put_first(state: &mut [u64; STATE_NUMBERS], i: usize, e: Element)
    requires { i < most_places }
    ensures { state.new ≡ first_put e i state.old }
{
    put_figures(&mut *state, i, first_figures(e));
    match e.kind {
        Some(Kind::Basin) => {
            let dry = Rains {
                first: 0,
                second: 0,
                third: 0,
            };
            put_rains(&mut *state, i, dry);
        }
        Some(Kind::Reach | Kind::Dam | Kind::Tanks) | None => {}
    }
}

// The places of the tanks above an element's last, so many from place x on: the same figures.
fn put_tanks(state: &mut [u64; STATE_NUMBERS], x: usize, extra: usize, figures: Figures)
    requires { x + extra ≤ most_places }
    ensures { state.new ≡ changed (figures_put (λ _. figures) x) extra state.old }
{
    for j in 0..extra {
        put_figures(&mut *state, x + j, figures);
    }
}

// A start on the bytes of an accepted table of n elements.
pub fn start_on(table: &[u8], n: usize, state: &mut [u64; STATE_NUMBERS])
    requires { AcceptedTable table.now × (n ≡ (table_in table.now).elements) }
    ensures { state.new ≡ started (table_in table.now) state.old }
{
    let mut x = n;
    for i in 0..n {
        let element = element_at(table, i);
        let extra = extra_of(table, i);
        put_tanks(&mut *state, x, extra, first_figures(element));
        put_first(&mut *state, i, element);
        x += extra;
    }
    state[0] = n as u64;
    state[1] = 0;
}
