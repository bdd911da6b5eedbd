// The largest counts that document 01 allows, and the sizes that follow from them; nowhere else do these numbers stand.
// specs/Sizes.antt has the same for the definitions.
#![tactic(auto)]

// N, L and M at most.
pub const MOST_ELEMENTS: usize = 64;

// The places of a state: elements, and the tanks above the last of their elements.
pub const MOST_PLACES: usize = 1_000;

pub const MOST_LEADS: usize = 12;

pub const MOST_GAUGES: usize = 16;

// The numbers of one place of a state (four figures, three rains), and of a state: N, the step count and its places.
pub const PLACE_NUMBERS: usize = 7;

pub const STATE_NUMBERS: usize = 2 + PLACE_NUMBERS * MOST_PLACES;

// The numbers of the largest forecast: four figures of each element at leads 0 to L.
pub const ANSWER_NUMBERS: usize = 4 * MOST_ELEMENTS * (MOST_LEADS + 1);

// The numbers of what the gauges observed: a discharge and a noise each.
pub const OBSERVED_NUMBERS: usize = 2 * MOST_GAUGES;

// The places of the working space of a step, by those of a river, its elements and the tanks above their last: one for each, and one for
// what leaves the river.
pub const SMALL_ELEMENTS: usize = 4;

pub const MIDDLE_ELEMENTS: usize = 16;

// What the gauges of a small river observed: it has no more gauges than elements.
pub const SMALL_OBSERVED_NUMBERS: usize = 2 * SMALL_ELEMENTS;

pub const SMALL_STEP_PLACES: usize = SMALL_ELEMENTS + 1;

pub const MIDDLE_STEP_PLACES: usize = MIDDLE_ELEMENTS + 1;

pub const MEDIUM_PLACES: usize = 64;

pub const MEDIUM_STEP_PLACES: usize = MEDIUM_PLACES + 1;

// An element has at most eight tanks.
pub const STEP_PLACES: usize = 8 * MOST_ELEMENTS + 1;

// The places of the working space of a forecast, the same at leads 0 to L: for two elements at one lead, for one element at all leads
// (or fifteen at one), for nine elements at all leads (or all elements at one), and for any with the tanks of one element.
pub const TINY_FORECAST_PLACES: usize = 6;

pub const SMALL_FORECAST_PLACES: usize = 32;

pub const MEDIUM_FORECAST_PLACES: usize = 130;

pub const FORECAST_PLACES: usize = (MOST_ELEMENTS + 8) * (MOST_LEADS + 1);

// The elements that the first two of them have room for, at one lead.
pub const TINY_FORECAST_ELEMENTS: usize = 2;

pub const SMALL_FORECAST_ELEMENTS: usize = 16;

// The bytes of the longest table, and of the longest text that a record prints: 147 for each line.
pub const TABLE_BYTES: usize = 10 + 26 * MOST_ELEMENTS + 48 * MOST_GAUGES;

pub const TEXT_BYTES: usize = 147 * (MOST_ELEMENTS * (MOST_LEADS + 1));

// The records that a run of the program answers at most.
pub const MOST_RECORDS: u64 = 100_000;

// The bytes of the program's buffers: room for the longest record, also after as much that is not used yet, and for the longest text of
// two records.
pub const INPUT_BUFFER: usize = 131_072;

pub const TEXT_BUFFER: usize = 262_144;
