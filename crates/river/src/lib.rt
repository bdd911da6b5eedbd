// The engine for programs in C or Rust: document 01's entries on memory that the host lends. `river_c` exports them to C, and
// include/river.h declares them there.
#![tactic(auto)]

ghost use Rattle.std.specs.Prelude.{◌≡◌, length};
ghost use Rattle.refusal.specs.Answers.{accepted, answer_of};
ghost use Rattle.table.specs.InUse.{table_in};
ghost use Rattle.table.specs.Rules.{table_rules};
ghost use Rattle.rating.specs.Looks.{look_of};
ghost use Rattle.entries.specs.Entries.{start_answer, step_answer, forecast_answer};
ghost use Rattle.entries.specs.Trials.{trial_answer};
ghost use Rattle.gauge_look.specs.GaugeLooks.{rating_answer};
ghost use Rattle.display.specs.Display.{show_answer};
ghost use Rattle.river.specs.Held.{CountsSmall, PlanAsked};
ghost use Rattle.river.specs.Replies.{version, refusal_of, no_plan, plan_reply, written_reply, rating_reply, display_reply, StateReplied, ForecastReplied};

use display::Shown;
use rating::CurveLook;
use refusal::Refusal;
use sizes::STATE_NUMBERS;
use table::Counts;

// 0, or the number for no, and what a table asks the host to lend: its counts, the bytes of a record, the numbers of a forecast; and its
// step in minutes.
#[repr(C)]
#[derive(Clone, Copy)]
pub struct TablePlan {
    pub refusal: u64,
    pub elements: usize,
    pub leads: usize,
    pub gauges: usize,
    pub basins: usize,
    pub dams: usize,
    pub tanks: usize,
    pub places: usize,
    pub record_bytes: usize,
    pub forecast_numbers: usize,
    pub step_minutes: u64,
}

// 0, or the number for no, and how many numbers were written.
#[repr(C)]
#[derive(Clone, Copy)]
pub struct Written {
    pub refusal: u64,
    pub count: usize,
}

// 0, or the number for no, the discharge of a stage, the noise of a reading there, and how many pieces of the curve were read for it.
#[repr(C)]
#[derive(Clone, Copy)]
pub struct Rating {
    pub refusal: u64,
    pub discharge: u64,
    pub noise: u64,
    pub pieces: usize,
}

// 0, or the number for no, and a discharge and its margin in m³/s.
#[repr(C)]
#[derive(Clone, Copy)]
pub struct Display {
    pub refusal: u64,
    pub discharge: f64,
    pub margin: f64,
}

// 0, or the number for no.
#[tactic(auto, unfolding(crate::specs::Replies::refusal_of))]
fn refusal_of(answer: Result<(), Refusal>) -> u64
    ensures { result ≡ refusal_of (answer_of answer) }
{
    match answer {
        Ok(()) => 0,
        Err(refusal) => refusal.code(),
    }
}

impl From<Result<usize, Refusal>> for Written {
    ghost from_gives = { λ answer written. written ≡ written_reply (answer_of answer) };

    #[tactic(auto, unfolding(crate::specs::Replies::written_reply))]
    fn from(answer: Result<usize, Refusal>) -> Self {
        match answer {
            Ok(count) => Written { refusal: 0, count },
            Err(refusal) => Written {
                refusal: refusal.code(),
                count: 0,
            },
        }
    }
}

impl From<CurveLook> for Rating {
    ghost from_gives = { λ look rating. rating ≡ rating_reply (look_of look) };

    #[tactic(auto, unfolding(crate::specs::Replies::rating_reply, crate::specs::Replies::refusal_of, crate::specs::Replies::discharge_in, crate::specs::Replies::noise_in))]
    fn from(look: CurveLook) -> Self {
        match look.rated {
            Ok(rated) => Rating {
                refusal: 0,
                discharge: rated.discharge.0,
                noise: rated.noise.0,
                pieces: look.pieces,
            },
            Err(refusal) => Rating {
                refusal: refusal.code(),
                discharge: 0,
                noise: 0,
                pieces: look.pieces,
            },
        }
    }
}

impl From<Result<Shown, Refusal>> for Display {
    ghost from_gives = { λ answer display. display ≡ display_reply (answer_of answer) };

    #[tactic(auto, unfolding(crate::specs::Replies::display_reply))]
    fn from(answer: Result<Shown, Refusal>) -> Self {
        match answer {
            Ok(shown) => Display {
                refusal: 0,
                discharge: shown.discharge,
                margin: shown.margin,
            },
            Err(refusal) => Display {
                refusal: refusal.code(),
                discharge: 0.0,
                margin: 0.0,
            },
        }
    }
}

// What an accepted table with these counts asks for.
fn plan_of(counts: Counts) -> TablePlan
    requires { CountsSmall counts }
    ensures { PlanAsked counts result }
{
    let elements = counts.elements;
    let leads = counts.leads;
    let gauges = counts.gauges;
    let basins = counts.basins;
    let dams = counts.dams;
    let tanks = counts.extra;
    TablePlan {
        refusal: 0,
        elements,
        leads,
        gauges,
        basins,
        dams,
        tanks,
        places: elements + tanks,
        record_bytes: 3 + 2 * basins + 4 * dams + 2 * gauges,
        forecast_numbers: 4 * elements * (leads + 1),
        step_minutes: counts.step,
    }
}

#[tactic(auto, unfolding(crate::specs::Replies::no_plan))]
fn no_plan(number: u64) -> TablePlan
    ensures { result ≡ no_plan number }
{
    TablePlan {
        refusal: number,
        elements: 0,
        leads: 0,
        gauges: 0,
        basins: 0,
        dams: 0,
        tanks: 0,
        places: 0,
        record_bytes: 0,
        forecast_numbers: 0,
        step_minutes: 0,
    }
}

// The version of this interface, RIVER_VERSION of include/river.h.
pub fn river_version() -> u64
    ensures { result ≡ version }
{
    6
}

// Judges the bytes of a table: rules 1 to 7.
pub fn river_check(table: &[u8]) -> TablePlan
    ensures { result ≡ plan_reply (table_rules table.now (accepted (table_in table.now))) }
{
    match table_reader::read(table) {
        Ok(counts) => plan_of(counts),
        Err(refusal) => no_plan(refusal.code()),
    }
}

// Starts a river on the bytes of a table, from any state.
pub fn river_start(table: &[u8], state: &mut [u64; STATE_NUMBERS]) -> u64
    ensures { StateReplied result state.new (start_answer table.now state.old) state.old }
{
    refusal_of(engine::start(table, state))
}

// A step on the bytes of a table and of a record.
pub fn river_step(table: &[u8], bytes: &[u8], state: &mut [u64; STATE_NUMBERS]) -> u64
    ensures { StateReplied result state.new (step_answer table.now bytes.now state.old) state.old }
{
    refusal_of(engine::step(table, bytes, state))
}

// A forecast on the bytes of a table into lent space.
pub fn river_forecast(table: &[u8], state: &[u64; STATE_NUMBERS], out: &mut [u64]) -> Written
    ensures { ForecastReplied result out.new (forecast_answer table.now state.now (length out.old)) out.old }
{
    Written::from(engine::forecast(table, state, out))
}

// A trial of a step on the bytes of a table and of a record, into lent space.
pub fn river_trial(
    table: &[u8],
    bytes: &[u8],
    state: &[u64; STATE_NUMBERS],
    out: &mut [u64],
) -> Written
    ensures { ForecastReplied result out.new (trial_answer table.now bytes.now state.now (length out.old)) out.old }
{
    Written::from(trial::trial(table, bytes, state, out))
}

// A stage on the curve of a gauge, counted from 1, on the bytes of a table.
pub fn river_rate(table: &[u8], gauge: usize, stage: u64) -> Rating
    ensures { result ≡ rating_reply (rating_answer table.now gauge stage) }
{
    Rating::from(gauge_look::rate(table, gauge, stage))
}

// A discharge and its margin, in grains, as floats in m³/s for a display.
pub fn river_show(discharge: u64, margin: u64) -> Display
    ensures { result ≡ display_reply (show_answer discharge margin) }
{
    Display::from(display::show(discharge, margin))
}
