// The tanks of one element above its last, at a step or through the leads of a forecast.
#![tactic(auto)]

ghost use Rattle.std.specs.Prelude.{◌≡◌, ◌+◌, ◌*◌, ◌≤◌, length};
ghost use Rattle.elements.specs.Elements.{element_at};
ghost use Rattle.elements.specs.Kinds.{tanks, same_kind};
ghost use Rattle.tank_walk.specs.Tanks.{tank_place, RowCleared, RowMoved, MoveReady, PlaceFits, TankTurnReady, TankTurned, TanksReady, TanksAnswered, TanksOpened};

use elements::{Kind, kind_at};
use lead_walk::store_tank;
use method::Figures;
use refusal::Refusal;
use sizes::STATE_NUMBERS;
use state::figures_of;

// Whether element i is one of tanks.
#[tactic(auto, unfolding(elements::specs::Kinds::same_kind))]
pub fn is_tanks(table: &[u8], i: usize) -> bool
    requires { (i ≤ 1000) × (26 * i + 36 ≤ length table.now) }
    ensures { result ≡ same_kind (element_at table.now i).kind tanks }
{
    match kind_at(table, i) {
        Some(Kind::Tanks) => true,
        Some(Kind::Basin | Kind::Reach | Kind::Dam) | None => false,
    }
}

// Where the tanks of an element stand in the working space: the element's own place, at which its sums wait and its last tank comes to stand,
// the first place of the others, how many places lie from one of them to the next, and how many leads each has, a step being one.
#[derive(Clone, Copy)]
pub struct TankPlaces {
    pub own: usize,
    pub first: usize,
    pub width: usize,
    pub leads: usize,
}

// The place of tank j, with so many above the last.
#[tactic(auto, unfolding(crate::specs::Tanks::tank_place))]
fn tank_place(places: TankPlaces, extra: usize, j: usize) -> usize
    requires { PlaceFits places extra j }
    ensures { result ≡ tank_place places extra j }
{
    if j == extra {
        return places.own;
    }
    places.first + j * places.width
}

// Nothing at so many places.
fn clear_row(place: usize, leads: usize, space: &mut [Figures])
    requires { place + leads ≤ length space.old }
    ensures { RowCleared place leads space.old space.new }
{
    space[place..place + leads].fill(Figures::NONE);
}

// What stands at so many places, at others.
fn move_row(source: usize, place: usize, leads: usize, space: &mut [Figures])
    requires { MoveReady source place leads space.old }
    ensures { RowMoved source place leads space.old space.new }
{
    space.copy_within(source..source + leads, place);
}

// Tank j, from its figures before: the places of the next, cleared first, take what it lets out. 16 where a number passes the ceiling.
fn work_tank(
    noise: u64,
    weight: u64,
    extra: usize,
    j: usize,
    places: TankPlaces,
    first: Figures,
    space: &mut [Figures],
) -> Result<(), Refusal>
    requires { TankTurnReady noise weight extra j places first space.old }
    ensures { TankTurned result noise weight extra j places first space.old space.new }
{
    let leads = places.leads;
    let here = tank_place(places, extra, j);
    let below = tank_place(places, extra, j + 1);
    clear_row(below, leads, &mut *space);
    store_tank(noise, weight, None, first, here, below, leads, space)
}

// The tanks above the last, one after the other; their figures before stand from place x of the state on.
#[inline(never)]
fn work_tanks(
    noise: u64,
    weight: u64,
    extra: usize,
    x: usize,
    places: TankPlaces,
    state: &[u64; STATE_NUMBERS],
    space: &mut [Figures],
) -> Result<(), Refusal>
    requires { TanksReady noise weight extra x 0 places state.now space.old }
    ensures { TanksAnswered result noise weight extra x 0 places state.now space.old space.new }
{
    for j in 0..extra {
        let first = figures_of(state, x + j);
        work_tank(noise, weight, extra, j, places, first, &mut *space)?;
    }
    Ok(())
}

// An element of tanks made ready for the turn of its last: its sums are moved to the places of the first, and the tanks above the last are
// worked out.
pub fn open_tanks(
    noise: u64,
    weight: u64,
    extra: usize,
    x: usize,
    places: TankPlaces,
    state: &[u64; STATE_NUMBERS],
    space: &mut [Figures],
) -> Result<(), Refusal>
    requires { TanksReady noise weight extra x 0 places state.now space.old }
    ensures { TanksOpened result noise weight extra x places state.now space.old space.new }
{
    move_row(places.own, places.first, places.leads, &mut *space);
    work_tanks(noise, weight, extra, x, places, state, space)
}
