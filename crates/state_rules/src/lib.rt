// Rule 8 on a whole state.
#![tactic(auto)]

ghost use Rattle.std.specs.Prelude.{◌≡◌, ◌+◌, ◌≤◌};
ghost use Rattle.sizes.specs.Sizes.{most_places};
ghost use Rattle.refusal.specs.Answers.{accepted, answer_of, rule};
ghost use Rattle.fields.specs.Ranges.{all_below};
ghost use Rattle.table.specs.Bounds.{AcceptedTable};
ghost use Rattle.table.specs.InUse.{table_in};
ghost use Rattle.table.specs.KindCounts.{extra_count};
ghost use Rattle.state.specs.States.{figures_of, place_of};
ghost use Rattle.state.specs.Rules.{figures_fit, place_fits, elements_fit, state_fits};

use elements::kind_at;
use refusal::Refusal;
use sizes::STATE_NUMBERS;
use state::{figures_fit, figures_of, place_fits};

// The places of the n elements of an accepted table.
fn places_fit(table: &[u8], n: usize, state: &[u64; STATE_NUMBERS]) -> bool
    requires { AcceptedTable table.now × (n ≡ (table_in table.now).elements) }
    ensures { result ≡ all_below (λ i. place_fits ((table_in table.now).element i).kind (place_of state.now i)) (table_in table.now).elements }
{
    (0..n).all(|i| place_fits(state, i, kind_at(table, i)))
}

// Rule 8 on the places of the tanks above the last of their elements, after those of n elements.
pub fn tanks_fit(n: usize, extra: usize, state: &[u64; STATE_NUMBERS]) -> bool
    requires { n + extra ≤ most_places }
    ensures { result ≡ all_below (λ x. figures_fit (figures_of state.now (n + x))) extra }
{
    (0..extra).all(|x| figures_fit(figures_of(state, n + x)))
}

// Rule 8 on N, the step count and the places of the elements, by the bytes of an accepted table of n elements. (What it asks of tanks is judged
// apart: in one function both take more instructions.)
#[tactic(auto, unfolding(state::specs::Rules::elements_fit))]
pub fn state_fits(table: &[u8], n: usize, state: &[u64; STATE_NUMBERS]) -> bool
    requires { AcceptedTable table.now × (n ≡ (table_in table.now).elements) }
    ensures { result ≡ elements_fit (table_in table.now) state.now }
{
    state[0] == n as u64 && state[1] <= 10_000 && places_fit(table, n, state)
}

// Rule 8 whole, by the bytes of an accepted table of n elements with so many extra tanks.
#[inline(always)]
pub fn judge_state(
    table: &[u8],
    n: usize,
    extra: usize,
    state: &[u64; STATE_NUMBERS],
) -> Result<(), Refusal>
    requires { AcceptedTable table.now × ((n ≡ (table_in table.now).elements) × (extra ≡ extra_count (table_in table.now))) }
    ensures { answer_of result ≡ rule 8 (state_fits (table_in table.now) state.now) (accepted tt) }
{
    if !state_fits(table, n, state) {
        return Err(Refusal::StateRange);
    }
    if !tanks_fit(n, extra, state) {
        return Err(Refusal::StateRange);
    }
    Ok(())
}
