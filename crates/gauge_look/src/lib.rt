// A stage on the curve of one gauge, by itself: the call `rate`.
#![tactic(auto)]

ghost use Rattle.std.specs.Prelude.{◌≡◌, ◌≤◌};
ghost use Rattle.refusal.specs.Answers.{accepted, answer_of};
ghost use Rattle.rating.specs.Looks.{look_of};
ghost use Rattle.table.specs.Bounds.{CountedTable};
ghost use Rattle.table.specs.InUse.{table_in};
ghost use Rattle.record.specs.Records.{reading_of};
ghost use Rattle.gauge_look.specs.GaugeLooks.{no_look, no_reading, noise_judged, judged_look, gauge_look, reading_look, rating_answer};

use gauges::place_of;
use rating::{CurveLook, RatedReading};
use readings::reading_of;
use refusal::Refusal;
use stage_curve::look_along;
use units::{Discharge, Stage, Variance};

// Rule 16 on the noise of a reading.
#[tactic(auto, unfolding(crate::specs::GaugeLooks::noise_judged, units::specs::Ceiling::under_ceiling, units::specs::Ceiling::some_passes))]
fn judge_noise(rated: RatedReading) -> Result<RatedReading, Refusal>
    ensures { answer_of result ≡ noise_judged rated }
{
    Variance::new(rated.noise.0)?;
    Ok(rated)
}

// The same on what a look along a curve finds.
#[tactic(auto, unfolding(crate::specs::GaugeLooks::judged_look))]
fn judge_look(look: CurveLook) -> CurveLook
    ensures { look_of result ≡ judged_look (look_of look) }
{
    CurveLook {
        rated: look.rated.and_then(judge_noise),
        pieces: look.pieces,
    }
}

// No curve is looked along, and no piece is read.
#[tactic(auto, unfolding(crate::specs::GaugeLooks::no_look))]
fn no_look(rated: Result<RatedReading, Refusal>) -> CurveLook
    ensures { look_of result ≡ no_look (answer_of rated) }
{
    CurveLook { rated, pieces: 0 }
}

// Where there is nothing to look along.
fn no_reading() -> CurveLook
    ensures { look_of result ≡ no_look (accepted no_reading) }
{
    no_look(Ok(RatedReading {
        discharge: Discharge(0),
        noise: Variance(0),
    }))
}

// The look along the curve of gauge k, counted from 1, of an accepted table with n elements and m gauges; no piece where it has no such
// gauge.
fn look_at(table: &[u8], n: usize, m: usize, k: usize, stage: u64) -> CurveLook
    requires { CountedTable table.now n m × (stage ≤ 30000) }
    ensures { look_of result ≡ gauge_look (table_in table.now) k stage }
{
    if k == 0 {
        return no_reading();
    }
    if m < k {
        return no_reading();
    }
    judge_look(look_along(table, place_of(table, n, k - 1), stage))
}

// The same of a stage field: no piece for a gap or a stage that 13 refuses.
#[tactic(auto, unfolding(crate::specs::GaugeLooks::reading_look))]
fn look_at_field(table: &[u8], n: usize, m: usize, k: usize, field: u64) -> CurveLook
    requires { CountedTable table.now n m }
    ensures { look_of result ≡ reading_look (table_in table.now) k (reading_of field) }
{
    match reading_of(field) {
        None => no_reading(),
        Some(Stage(h)) => {
            if 30_000 < h {
                return no_look(Err(Refusal::StageRange));
            }
            look_at(table, n, m, k, h)
        }
    }
}

// The same on the bytes of a table: rules 1 to 7, 13, 14 and, of the noise, 16.
pub fn rate(table: &[u8], k: usize, field: u64) -> CurveLook
    ensures { look_of result ≡ rating_answer table.now k field }
{
    match table_reader::read(table) {
        Ok(counts) => look_at_field(table, counts.elements, counts.gauges, k, field),
        Err(refusal) => no_look(Err(refusal)),
    }
}
