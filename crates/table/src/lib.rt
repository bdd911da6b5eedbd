// A table, and its header: rules 1 to 4.
#![tactic(auto)]

ghost use Rattle.std.specs.Prelude.{◌≡◌, ◌≤◌, length};
ghost use Rattle.gauges.specs.Places.{Versioned};
ghost use Rattle.table.specs.Tables.{table_of};
ghost use Rattle.table.specs.Rules.{length_fits, version_fits, counts_fit, size_fits};
ghost use Rattle.table.specs.Decoded.{CountsHeld};
ghost use Rattle.table.specs.KindCounts.{basin_count, dam_count};
ghost use Rattle.table.specs.InUse.{table_in};
ghost use Rattle.table.specs.Bounds.{AcceptedTable, Counted};

use fields::bytes::{whole16, whole32, wide};
use fields::range::in_range;
use gauges::gauge_size;
use sizes::{MOST_ELEMENTS, MOST_GAUGES, MOST_LEADS};

// The counts of a table: T in minutes, L, N and M, how many of its elements are basins and dams, and how many tanks
// stand above the last of their elements.
#[derive(Clone, Copy)]
pub struct Counts {
    pub step: u64,
    pub leads: usize,
    pub elements: usize,
    pub gauges: usize,
    pub basins: usize,
    pub dams: usize,
    pub extra: usize,
}

// Rule 1: the length field counts the bytes after it, and the header is whole.
#[tactic(auto, unfolding(crate::specs::Rules::length_fits))]
pub fn length_fits(table: &[u8]) -> bool
    ensures { result ≡ length_fits table.now }
{
    let bytes = table.len();
    bytes >= 10 && whole32(table, 0) as usize + 4 == bytes
}

// Rule 2.
#[tactic(auto, unfolding(crate::specs::Rules::version_fits, gauges::specs::Gauges::table_version))]
pub fn version_fits(table: &[u8]) -> bool
    requires { 10 ≤ length table.now }
    ensures { result ≡ version_fits table.now }
{
    let version = wide(table[4]);
    (version == 1) | (version == 2)
}

// Rule 3: the ranges of T, L, N and M.
#[tactic(auto, unfolding(crate::specs::Rules::counts_fit, crate::specs::Tables::table_of))]
pub fn counts_fit(table: &[u8]) -> bool
    requires { 10 ≤ length table.now }
    ensures { result ≡ counts_fit (table_of table.now) }
{
    in_range(whole16(table, 5), 1, 1_440)
        & in_range(wide(table[7]), 1, MOST_LEADS as u64)
        & in_range(wide(table[8]), 1, MOST_ELEMENTS as u64)
        & in_range(wide(table[9]), 0, MOST_GAUGES as u64)
}

// Rule 4: the length field is that of N elements and M gauges.
pub fn size_fits(table: &[u8]) -> bool
    requires { Versioned table.now }
    ensures { result ≡ size_fits table.now (table_of table.now) }
{
    whole32(table, 0) == 6 + 26 * wide(table[8]) + gauge_size(table) as u64 * wide(table[9])
}

// The counts that the header says; basins, dams and extra tanks are not counted yet.
#[tactic(auto, unfolding(crate::specs::Tables::table_of))]
pub fn counts_of(table: &[u8]) -> Counts
    requires { 10 ≤ length table.now }
    ensures { CountsHeld result (table_of table.now) }
{
    Counts {
        step: whole16(table, 5),
        leads: usize::from(table[7]),
        elements: usize::from(table[8]),
        gauges: usize::from(table[9]),
        basins: 0,
        dams: 0,
        extra: 0,
    }
}

// The counts of an accepted table with so many basins and dams; its extra tanks are not counted.
#[tactic(auto, unfolding(crate::specs::InUse::table_in, crate::specs::InUse::in_use))]
pub fn counts_with(table: &[u8], basins: usize, dams: usize) -> Counts
    requires { AcceptedTable table.now × ((basins ≡ basin_count (table_in table.now)) × (dams ≡ dam_count (table_in table.now))) }
    ensures { Counted table.now result }
{
    Counts {
        basins,
        dams,
        ..counts_of(table)
    }
}
