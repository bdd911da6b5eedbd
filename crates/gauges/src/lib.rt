// The gauges of a table.
#![tactic(auto)]

ghost use Rattle.std.specs.Prelude.{◌≡◌, ◌+◌, ◌≤◌, ◌<◌, length};
ghost use Rattle.gauges.specs.Gauges.{offset_of, piece_at, gauge_size, beta_at, gauge_place, gauge_at};
ghost use Rattle.gauges.specs.Places.{Versioned, GaugeThere, GaugePlaced};

use fields::bytes::{whole16, whole32, wide};
use rating::{Curve, Offset, Piece};
use units::{Stage, Variance};

// A gauge of the table: its curve, its noise R, β in thousandths and the element it stands at. The code reads each where it stands in the
// table.
#[derive(Clone, Copy)]
pub struct Gauge {
    pub curve: Curve,
    pub noise: Variance,
    pub beta: u64,
    pub element: usize,
}

// b of a piece from two bytes in two's complement.
fn offset_of(field: u64) -> Offset
    requires { field < 65536 }
    ensures { result ≡ offset_of field }
{
    if field < 32_768 {
        return Offset::Plus(field);
    }
    Offset::Minus(65_536 - field)
}

// The piece whose eight bytes start at a place.
pub fn piece_at(table: &[u8], at: usize) -> Piece
    requires { (at ≤ 100000) × (at + 8 ≤ length table.now) }
    ensures { result ≡ piece_at table.now at }
{
    Piece {
        top: Stage(whole16(table, at)),
        factor: whole32(table, at + 2),
        offset: offset_of(whole16(table, at + 6)),
    }
}

// The bytes of a gauge: 46 in version 1 of a table, 48 in version 2.
pub fn gauge_size(table: &[u8]) -> usize
    requires { Versioned table.now }
    ensures { result ≡ gauge_size table.now }
{
    44 + 2 * usize::from(table[4])
}

// Where gauge g of a table with n elements starts, counted from 0.
pub fn place_of(table: &[u8], n: usize, g: usize) -> usize
    requires { GaugePlaced table.now n g }
    ensures { result ≡ gauge_place table.now n g }
{
    26 * n + gauge_size(table) * g + 10
}

// β of the gauge at a place, in thousandths.
pub fn beta_at(table: &[u8], at: usize) -> u64
    requires { GaugeThere table.now at }
    ensures { result ≡ beta_at table.now at }
{
    if wide(table[4]) == 2 {
        return whole16(table, at + 46);
    }
    0
}

// The number of the element that gauge g stands at.
pub fn element_of(table: &[u8], n: usize, g: usize) -> usize
    requires { GaugePlaced table.now n g }
    ensures { result ≡ (gauge_at table.now n g).element }
{
    usize::from(table[place_of(table, n, g)])
}
