// One look along the rating curve of a gauge, whose pieces are read where they stand in the table.
#![tactic(auto)]

ghost use Rattle.std.specs.Prelude.{◌≡◌, ◌≤◌};
ghost use Rattle.refusal.specs.Answers.{answer_of};
ghost use Rattle.sizes.specs.Sizes.{most_elements};
ghost use Rattle.rating.specs.Bounds.{RatingFits};
ghost use Rattle.rating.specs.Looks.{look_of};
ghost use Rattle.gauges.specs.Gauges.{gauge_from};
ghost use Rattle.gauges.specs.Looks.{look_by, look_on};
ghost use Rattle.gauges.specs.Places.{GaugeThere};
ghost use Rattle.gauges.specs.Bounds.{GaugeBounds};

use fields::bytes::{whole16, whole32};
use gauges::{beta_at, piece_at};
use rating::{CurveLook, RatedReading, noise_of, rate_on_piece};
use refusal::Refusal;
use units::{Discharge, Variance};

// What a piece gives for a stage, with the noise of a reading there at the gauge at a place, and with how many pieces were read. (β is read
// before R: where a branch follows, the compiler puts R together byte by byte.)
fn with_noise(
    table: &[u8],
    at: usize,
    answer: Result<Discharge, Refusal>,
    pieces: usize,
) -> CurveLook
    requires { (GaugeThere table.now at × GaugeBounds most_elements (gauge_from table.now at)) × RatingFits (answer_of answer) }
    ensures { look_of result ≡ look_by (gauge_from table.now at) (answer_of answer) pieces }
{
    // (By cases: of `Result::map` the closure's goal was not proved.)
    match answer {
        Ok(discharge) => {
            let beta = beta_at(table, at);
            let noise = Variance(noise_of(whole32(table, at + 2), beta, discharge.0));
            let rated = Ok(RatedReading { discharge, noise });
            CurveLook { rated, pieces }
        }
        Err(refusal) => CurveLook {
            rated: Err(refusal),
            pieces,
        },
    }
}

// The discharge of a stage on the curve of the accepted gauge at a place with the noise of a reading there, or 14: on the first piece with
// the stage below its top, which is the last one read. There always is one, since the last top is 30,001.
pub fn look_along(table: &[u8], at: usize, stage: u64) -> CurveLook
    requires { GaugeThere table.now at × ((stage ≤ 30000) × GaugeBounds most_elements (gauge_from table.now at)) }
    ensures { look_of result ≡ look_on (gauge_from table.now at) stage }
{
    let mut pieces: usize = 0;
    // (A loop that counts, since the last top is above every stage: a `for` would need an answer after its end.)
    loop {
        let place = at + 6 + 8 * pieces;
        pieces += 1;
        if stage < whole16(table, place) {
            let answer = rate_on_piece(stage, piece_at(table, place));
            return with_noise(table, at, answer, pieces);
        }
    }
}
