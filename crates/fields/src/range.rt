// A test that a number is in a range.
ghost use Rattle.std.specs.Prelude.{◌≡◌};
ghost use Rattle.fields.specs.Ranges.{in_range};

// Whether x is from low to high.
pub fn in_range(x: u64, low: u64, high: u64) -> bool
    ensures { result ≡ in_range x low high }
{
    (low..=high).contains(&x)
}
