// Rule 7 on a gauge's curve, read where it stands in the table.
#![tactic(auto)]

ghost use Rattle.std.specs.Prelude.{◌≡◌};
ghost use Rattle.gauges.specs.Gauges.{curve_at};
ghost use Rattle.gauges.specs.Places.{GaugeThere};
ghost use Rattle.gauges.specs.Rules.{piece_in_use_fits, piece_unused, curve_fits};
ghost use Rattle.curve_rules.specs.Judged.{Counted, InUseKept, InUseJudged};

use fields::bytes::wide;
use fields::range::in_range;
use gauges::piece_at;
use rating::Piece;

fn piece_in_use_fits(below: u64, piece: Piece) -> bool
    ensures { result ≡ piece_in_use_fits below piece }
{
    below < piece.top.0 && in_range(piece.factor, 1, 1_000_000) && piece.offset.size() <= 30_000
}

fn piece_unused(piece: Piece) -> bool
    ensures { result ≡ piece_unused piece }
{
    (piece.top.0 == 0) & (piece.factor == 0) & (piece.offset.size() == 0)
}

// Whether the pieces in use of the gauge at a place keep rule 7, the last of their tops with them.
fn pieces_in_use_fit(table: &[u8], at: usize, count: usize) -> bool
    requires { Counted table.now at count }
    ensures { InUseJudged (curve_at table.now at) result }
{
    // (A loop, since each piece is tested with the top before it.)
    let mut below: u64 = 0;
    for j in 0..count {
        let piece = piece_at(table, at + 6 + 8 * j);
        if !piece_in_use_fits(below, piece) {
            return false;
        }
        below = piece.top.0;
    }
    below == 30_001
}

// Where they do, rule 7 asks that the pieces after them are all zero.
fn pieces_unused(table: &[u8], at: usize, count: usize) -> bool
    requires { Counted table.now at count × InUseKept (curve_at table.now at) }
    ensures { result ≡ curve_fits (curve_at table.now at) }
{
    (count..5).all(|j| piece_unused(piece_at(table, at + 6 + 8 * j)))
}

// Rule 7 on the curve of the gauge whose bytes start at a place.
pub fn curve_fits(table: &[u8], at: usize) -> bool
    requires { GaugeThere table.now at }
    ensures { result ≡ curve_fits (curve_at table.now at) }
{
    let pieces = wide(table[at + 1]);
    if !in_range(pieces, 1, 5) {
        return false;
    }
    let count = pieces as usize;
    pieces_in_use_fit(table, at, count) && pieces_unused(table, at, count)
}
