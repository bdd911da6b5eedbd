// The working space of a step or a forecast: the figures of an element or the sums of an inflow at each place.
#![tactic(auto)]

ghost use Rattle.std.specs.Prelude.{◌≡◌, ◌*◌, ◌≤◌, ◌<◌, ◌++◌, length, take, drop};
ghost use Rattle.method.specs.Figures.{layout, FiguresFit};
ghost use Rattle.method.specs.Inflow.{joined_inflow};
ghost use Rattle.answer_space.specs.Places.{figures_at, added, put_and_added, most_sum, FiguresBelow, PlacesReady, Empty};

use method::Figures;
use units::{Discharge, Variance};

// Sums with an element's old or new figures more.
#[tactic(auto, unfolding(method::specs::Inflow::joined_inflow))]
fn joined(x: Figures, y: Figures) -> Figures
    requires { FiguresBelow x most_sum × FiguresFit y }
    ensures { result ≡ joined_inflow x y }
{
    Figures {
        discharge: Discharge(x.discharge.0 + y.discharge.0),
        discharge_margin: Discharge(x.discharge_margin.0 + y.discharge_margin.0),
        variance: Variance(x.variance.0 + y.variance.0),
        variance_margin: Variance(x.variance_margin.0 + y.variance_margin.0),
    }
}

// Figures added to the sums at a place.
#[tactic(auto, unfolding(crate::specs::Places::figures_at, crate::specs::Places::put))]
pub fn add_figures(space: &mut [Figures], place: usize, f: Figures)
    requires { (place < length space.old) × (FiguresBelow (figures_at space.old place) most_sum × FiguresFit f) }
    ensures { space.new ≡ added space.old place f }
{
    space[place] = joined(space[place], f);
}

// The figures of one element put at a place, and added to the sums at another.
pub fn put_and_add(space: &mut [Figures], here: usize, below: usize, f: Figures)
    requires { PlacesReady space.old here below f }
    ensures { space.new ≡ put_and_added space.old here below f }
{
    space[here] = f;
    add_figures(space, below, f);
}

// Nothing at every place of a space.
pub fn clear(space: &mut [Figures])
    ensures { Empty space.new }
{
    space.fill(Figures::NONE);
}

// Figures laid out as numbers at the beginning of lent space, four of each.
pub fn lay_out(figures: &[Figures], out: &mut [u64])
    requires { 4 * length figures.now ≤ length out.old }
    ensures { out.new ≡ layout figures.now ++ drop (4 * length figures.now) out.old }
{
    // (By the number, from which the four places in the lent space are reckoned.)
    for i in 0..figures.len() {
        let f = figures[i];
        out[4 * i] = f.discharge.0;
        out[4 * i + 1] = f.discharge_margin.0;
        out[4 * i + 2] = f.variance.0;
        out[4 * i + 3] = f.variance_margin.0;
    }
}

// The figures of n elements, from place 1 on, laid out in the same way.
pub fn write_figures(space: &[Figures], n: usize, out: &mut [u64])
    requires { (n < length space.now) × (4 * n ≤ length out.old) }
    ensures { out.new ≡ layout (take n (drop 1 space.now)) ++ drop (4 * n) out.old }
{
    lay_out(&space[1..n + 1], out);
}
