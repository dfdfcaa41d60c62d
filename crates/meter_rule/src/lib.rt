// Page nine: which cell goes with which sending interval, computed from the rule.
#![tactic(auto)]

ghost use Rattle.std.specs.Prelude.{◌≡◌, ◌*◌, ◌≤◌};
ghost use Rattle.bounded.specs.Bool.{bit};
ghost use Rattle.meter_rule.specs.PageNine.{goes_with, row_of, page_nine};

// "capacity × 1,000 is at least draw × 87,600"
pub fn fits(capacity: u32, draw: u32) -> bool
    ensures { result ≡ goes_with capacity draw }
{
    draw as u64 * 87_600 <= capacity as u64 * 1_000
}

// The weight of an interval's bit where it goes with the capacity, and else 0.
fn weighed(capacity: u32, draw: u32, weight: u32) -> u32
    ensures { (result ≡ bit (goes_with capacity draw) * weight) × (result ≤ weight) }
{
    if fits(capacity, draw) {
        return weight;
    }
    0
}

// The row of a cell: 8, 16, 32 and 64 s draw 22, 14, 10 and 8 microamperes.
fn row(capacity: u32) -> u32
    ensures { result ≡ row_of capacity }
{
    weighed(capacity, 22, 1)
        + weighed(capacity, 14, 2)
        + weighed(capacity, 10, 4)
        + weighed(capacity, 8, 8)
}

// The table of the cells of 1,200, 1,900, 2,600 and 3,600 mAh.
pub fn page_nine() -> [u32; 4]
    ensures { result ≡ page_nine }
{
    [row(1_200), row(1_900), row(2_600), row(3_600)]
}
