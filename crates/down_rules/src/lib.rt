// Rule 6: where an element drains to.
#![tactic(auto)]

ghost use Rattle.std.specs.Prelude.{◌≡◌, ◌+◌, ◌*◌, ◌≤◌, ◌<◌, length};
ghost use Rattle.sizes.specs.Sizes.{most_elements};
ghost use Rattle.elements.specs.Elements.{element_at};
ghost use Rattle.elements.specs.Rules.{down_fits};

use elements::{Kind, down_at, kind_at};

// Rule 6 on element i of n, counted from 0.
#[tactic(auto, unfolding(elements::specs::Rules::down_fits, elements::specs::Kinds::same_kind))]
pub fn down_fits(table: &[u8], n: usize, i: usize) -> bool
    requires { (n ≤ most_elements) × ((i < n) × (26 * n + 10 ≤ length table.now)) }
    ensures { result ≡ down_fits n (element_at table.now) i }
{
    let down = down_at(table, i);
    if down == 0 {
        return true;
    }
    if down <= i + 1 {
        return false;
    }
    if n < down {
        return false;
    }
    match kind_at(table, down - 1) {
        Some(Kind::Basin) => false,
        Some(Kind::Reach | Kind::Dam | Kind::Tanks) | None => true,
    }
}
