// The table that bytes hold, rules 1 to 7.
#![tactic(auto)]

ghost use Rattle.std.specs.Prelude.{◌≡◌, true, ◌+◌, ◌*◌, ◌≤◌, length};
ghost use Rattle.sizes.specs.Sizes.{most_elements};
ghost use Rattle.table.specs.Tables.{table_of};
ghost use Rattle.table.specs.Rules.{length_fits};
ghost use Rattle.table.specs.Decoded.{CountsHeld, TableRead};
ghost use Rattle.table_reader.specs.Judged.{Judged};

use down_rules::down_fits;
use element_rules::judge_element;
use elements::{Kind, element_at, extra_at};
use refusal::Refusal;
use table::Counts;

// The kinds that a table's elements are counted by: how many are basins and dams, and how many tanks stand above the last of their
// elements.
#[derive(Clone, Copy)]
struct KindCounts {
    basins: usize,
    dams: usize,
    extra: usize,
}

// Rules 5 and 6 on the first n elements, each element once: 5 of any element comes before 6.
fn judge_elements(table: &[u8], step: u64, n: usize) -> Result<KindCounts, Refusal>
    requires { (n ≤ most_elements) × (26 * n + 10 ≤ length table.now) }
    ensures { Judged table.now step n result }
{
    let mut later = true;
    let mut basins: usize = 0;
    let mut dams: usize = 0;
    let mut extra: usize = 0;
    for i in 0..n {
        let kind = judge_element(step, element_at(table, i)).ok_or(Refusal::ElementField)?;
        match kind {
            Kind::Basin => {
                basins += 1;
            }
            Kind::Reach => {}
            Kind::Dam => {
                dams += 1;
            }
            Kind::Tanks => {
                extra += extra_at(table, i);
            }
        }
        // (By a branch: `later &= ..` takes four instructions an element more.)
        if !down_fits(table, n, i) {
            later = false;
        }
    }
    if !later {
        return Err(Refusal::ElementDown);
    }
    Ok(KindCounts {
        basins,
        dams,
        extra,
    })
}

// The counts of a table, with basins, dams and extra tanks, or the refusal of the first of rules 1 to 7 that it does not keep.
pub fn read(table: &[u8]) -> Result<Counts, Refusal>
    ensures { TableRead table.now result }
{
    if !table::length_fits(table) {
        return Err(Refusal::TableLength);
    }
    if !table::version_fits(table) {
        return Err(Refusal::TableVersion);
    }
    if !table::counts_fit(table) {
        return Err(Refusal::TableCounts);
    }
    if !table::size_fits(table) {
        return Err(Refusal::TableSize);
    }
    let header = table::counts_of(table);
    let kinds = judge_elements(table, header.step, header.elements)?;
    if !gauge_rules::gauges_fit(table, header.elements, header.gauges) {
        return Err(Refusal::GaugeField);
    }
    Ok(Counts {
        basins: kinds.basins,
        dams: kinds.dams,
        extra: kinds.extra,
        ..header
    })
}
