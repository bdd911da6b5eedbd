// The elements of a table.
#![tactic(auto)]

ghost use Rattle.std.specs.Prelude.{◌≡◌, ◌+◌, ◌*◌, ◌-◌, ◌≤◌, length};
ghost use Rattle.std.specs.Result.{result_ok};
ghost use Rattle.elements.specs.Elements.{element_at};
ghost use Rattle.elements.specs.Kinds.{tanks, kind_of, basin_of, extra_tanks};

use fields::bytes::{whole16, whole32};
use units::{Discharge, Variance};

// The kinds of an element. What a kind decides is chosen by a match that names every kind.
#[derive(Clone, Copy, Debug, PartialEq, Eq)]
pub enum Kind {
    Basin,
    Reach,
    Dam,
    Tanks,
}

// A byte that is no kind: rule 5 refuses it.
#[derive(Clone, Copy, Debug, PartialEq, Eq)]
pub struct UnknownKind(pub u8);

impl TryFrom<u8> for Kind {
    type Error = UnknownKind;

    ghost try_from_gives = { λ byte kind. result_ok kind ≡ kind_of byte };

    #[tactic(auto, unfolding(crate::specs::Kinds::kind_of))]
    fn try_from(byte: u8) -> Result<Self, UnknownKind> {
        match byte {
            1 => Ok(Kind::Basin),
            2 => Ok(Kind::Reach),
            3 => Ok(Kind::Dam),
            4 => Ok(Kind::Tanks),
            _ => Err(UnknownKind(byte)),
        }
    }
}

// An element of the table; of no kind where its byte is none.
#[derive(Clone, Copy)]
pub struct Element {
    pub kind: Option<Kind>,
    pub down: usize,
    pub lag: u64,
    pub area: u64,
    pub runoff: u64,
    pub first_discharge: Discharge,
    pub first_variance: Variance,
    pub system_noise: Variance,
    pub rain_noise: Variance,
}

// The kind that a byte says.
fn kind_of(byte: u8) -> Option<Kind>
    ensures { result ≡ kind_of byte }
{
    Kind::try_from(byte).ok()
}

// Element i, counted from 0, all of whose bytes are there.
#[tactic(auto, unfolding(crate::specs::Elements::element_at))]
pub fn element_at(table: &[u8], i: usize) -> Element
    requires { (i ≤ 1000) × (26 * i + 36 ≤ length table.now) }
    ensures { result ≡ element_at table.now i }
{
    let at = 26 * i + 10;
    Element {
        kind: kind_of(table[at]),
        down: usize::from(table[at + 1]),
        lag: whole16(table, at + 2),
        area: whole32(table, at + 4),
        runoff: whole16(table, at + 8),
        first_discharge: Discharge(whole32(table, at + 10)),
        first_variance: Variance(whole32(table, at + 14)),
        system_noise: Variance(whole32(table, at + 18)),
        rain_noise: Variance(whole32(table, at + 22)),
    }
}

// The kind of element i.
#[tactic(auto, unfolding(crate::specs::Elements::element_at))]
pub fn kind_at(table: &[u8], i: usize) -> Option<Kind>
    requires { (i ≤ 1000) × (26 * i + 36 ≤ length table.now) }
    ensures { result ≡ (element_at table.now i).kind }
{
    kind_of(table[26 * i + 10])
}

// The lag of element i.
#[tactic(auto, unfolding(crate::specs::Elements::element_at))]
pub fn lag_at(table: &[u8], i: usize) -> u64
    requires { (i ≤ 1000) × (26 * i + 36 ≤ length table.now) }
    ensures { result ≡ (element_at table.now i).lag }
{
    whole16(table, 26 * i + 10 + 2)
}

// The number of the element that element i drains into.
#[tactic(auto, unfolding(crate::specs::Elements::element_at))]
pub fn down_at(table: &[u8], i: usize) -> usize
    requires { (i ≤ 1000) × (26 * i + 36 ≤ length table.now) }
    ensures { result ≡ (element_at table.now i).down }
{
    usize::from(table[26 * i + 10 + 1])
}

// The system noise of element i.
#[tactic(auto, unfolding(crate::specs::Elements::element_at))]
pub fn noise_at(table: &[u8], i: usize) -> u64
    requires { (i ≤ 1000) × (26 * i + 36 ≤ length table.now) }
    ensures { result ≡ (element_at table.now i).system_noise.0 }
{
    whole32(table, 26 * i + 10 + 18)
}

// How many tanks element i, one of tanks, has above its last.
#[tactic(auto, unfolding(crate::specs::Elements::element_at))]
pub fn extra_at(table: &[u8], i: usize) -> usize
    requires { ((i ≤ 1000) × (26 * i + 36 ≤ length table.now)) × (1 ≤ (element_at table.now i).runoff) }
    ensures { result ≡ (element_at table.now i).runoff - 1 }
{
    whole16(table, 26 * i + 10 + 8) as usize - 1
}

// How many tanks element i has above its last: none where it is not one of tanks.
#[tactic(auto, unfolding(crate::specs::Kinds::extra_tanks, crate::specs::Kinds::same_kind))]
pub fn extra_of(table: &[u8], i: usize) -> usize
    requires { ((i ≤ 1000) × (26 * i + 36 ≤ length table.now)) × (((element_at table.now i).kind ≡ tanks) → 1 ≤ (element_at table.now i).runoff) }
    ensures { result ≡ extra_tanks (element_at table.now i) }
{
    match kind_at(table, i) {
        Some(Kind::Tanks) => extra_at(table, i),
        _ => 0,
    }
}

// How many basins an element of this kind is.
#[tactic(auto, unfolding(crate::specs::Kinds::basin_of, crate::specs::Kinds::by_kind))]
pub fn basin_of(kind: Option<Kind>) -> usize
    ensures { (result ≡ basin_of kind) × (result ≤ 1) }
{
    match kind {
        Some(Kind::Basin) => 1,
        Some(Kind::Reach) => 0,
        Some(Kind::Dam) => 0,
        Some(Kind::Tanks) => 0,
        None => 0,
    }
}
