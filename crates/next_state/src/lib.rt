// The state after a step.
#![tactic(auto)]

ghost use Rattle.std.specs.Prelude.{◌≡◌, ◌+◌, ◌*◌, ◌≤◌, ◌<◌, length};
ghost use Rattle.sizes.specs.Sizes.{most_elements};
ghost use Rattle.elements.specs.Kinds.{basin};
ghost use Rattle.record.specs.Records.{rain_at};
ghost use Rattle.state.specs.States.{rains_of, put_place};
ghost use Rattle.element_step.specs.Rains.{shifted_rains};
ghost use Rattle.next_state.specs.Written.{TanksReady, TanksWritten, WriteReady, ElementsWritten};

use element_step::shifted_rains;
use elements::{Kind, basin_of, kind_at};
use method::Figures;
use record::rain_at;
use sizes::STATE_NUMBERS;
use state::{put_figures, put_rains, rains_of};

// The place of element i after the step, where b basins come before it: its figures, and a basin's rains with its latest.
#[tactic(auto, unfolding(state::specs::States::put_place, elements::specs::Kinds::by_kind))]
fn put_step(
    state: &mut [u64; STATE_NUMBERS],
    i: usize,
    kind: Option<Kind>,
    figures: Figures,
    bytes: &[u8],
    b: usize,
)
    requires { (i < most_elements) × ((kind ≡ basin) → 2 * b + 5 ≤ length bytes.now) }
    ensures { state.new ≡ put_place kind figures (shifted_rains (rain_at bytes.now b) (rains_of state.old i)) i state.old }
{
    match kind {
        Some(Kind::Basin) => {
            let rains = shifted_rains(rain_at(bytes, b), rains_of(&*state, i));
            put_figures(&mut *state, i, figures);
            put_rains(&mut *state, i, rains);
        }
        Some(Kind::Reach | Kind::Dam | Kind::Tanks) | None => {
            put_figures(&mut *state, i, figures);
        }
    }
}

// The places of the tanks above the last of their elements, from place n on, with the figures that stand in the working space.
pub fn write_tanks(n: usize, extra: usize, space: &[Figures], state: &mut [u64; STATE_NUMBERS])
    requires { TanksReady n extra space.now }
    ensures { TanksWritten n extra space.now state.old state.new }
{
    for x in 0..extra {
        put_figures(&mut *state, n + x, space[n + x + 1]);
    }
}

// The places of the elements, with the figures that stand in the working space, and the step counted: with the tanks written before it, the
// state after the step.
pub fn write_state(
    table: &[u8],
    n: usize,
    bytes: &[u8],
    space: &[Figures],
    state: &mut [u64; STATE_NUMBERS],
)
    requires { WriteReady table.now n bytes.now space.now state.old }
    ensures { ElementsWritten table.now bytes.now space.now state.old state.new }
{
    let mut b: usize = 0;
    for i in 0..n {
        let kind = kind_at(table, i);
        put_step(&mut *state, i, kind, space[i + 1], bytes, b);
        b += basin_of(kind);
    }
    state[1] += 1;
}
