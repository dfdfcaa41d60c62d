// The bins' counts in an array, and sums beside them.
#![tactic(auto)]

ghost use Rattle.std.specs.Prelude.{◌≡◌, ◌-◌, ◌≤◌, ◌<◌, ◌^◌, get_or};
ghost use Rattle.bins_counts.specs.Counts.{spot, Inside, changed_at, changed_each, plus, minus, is_low, lowest};

// As many as 16 variables of 32 values have.
pub const BINS: usize = 512;

// Where the count of a value stands, of the variable after `o` others.
pub fn spot(sizes: [u8; 16], o: usize, value: usize) -> usize
    requires { (o ≤ 16) × (value < 4294967296) }
    ensures { result ≡ spot sizes o value }
{
    let mut at = value;
    for i in 0..o {
        at += usize::from(sizes[i]);
    }
    at
}

// Where the count of the variable's value of a solution stands.
pub fn spot_of(sizes: [u8; 16], values: [u8; 16], o: usize) -> usize
    requires { o < 16 }
    ensures { result ≡ spot sizes o (get_or values o 0) }
{
    spot(sizes, o, usize::from(values[o]))
}

fn less(x: u32, amount: u32) -> u32
    ensures { result ≡ x - amount }
{
    x.saturating_sub(amount)
}

fn draw_at(counts: &mut [u32; BINS], i: usize, amount: u32)
    requires { i < 512 }
    ensures { counts.new ≡ changed_at (minus amount) counts.old i }
{
    counts[i] = less(counts[i], amount);
}

// The count of the variable's value is too low.
fn is_low(sizes: [u8; 16], values: [u8; 16], counts: &[u32; BINS], amount: u32, o: usize) -> bool
    requires { (o < 16) × (spot sizes o (get_or values o 0) < 512) }
    ensures { result ≡ is_low sizes values counts.now amount o }
{
    let at = spot_of(sizes, values, o);
    counts[at] < amount
}

// The first variable whose value has too low a count, or `n`.
pub fn lowest(
    n: usize,
    sizes: [u8; 16],
    values: [u8; 16],
    counts: &[u32; BINS],
    amount: u32,
) -> usize
    requires { (n ≤ 16) × Inside n sizes values }
    ensures { result ≡ lowest n sizes values counts.now amount }
{
    for o in 0..n {
        if is_low(sizes, values, counts, amount, o) {
            return o;
        }
    }
    n
}

// An amount is drawn from the count of each variable's value.
pub fn draw(n: usize, sizes: [u8; 16], values: [u8; 16], counts: &mut [u32; BINS], amount: u32)
    requires { (n ≤ 16) × Inside n sizes values }
    ensures { counts.new ≡ changed_each (minus amount) sizes values counts.old n }
{
    for o in 0..n {
        draw_at(counts, spot_of(sizes, values, o), amount);
    }
}

// A sum that stays at its highest number.
pub fn plus(x: u64, amount: u32) -> u64
    ensures { result ≡ plus amount x }
{
    x.saturating_add(u64::from(amount))
}

// An amount is added to the sum at an index.
pub fn add_at(sums: &mut [u64; BINS], i: usize, amount: u32)
    requires { i < 512 }
    ensures { sums.new ≡ changed_at (plus amount) sums.old i }
{
    sums[i] = plus(sums[i], amount);
}

// An amount is added to the sum of each variable's value. `draw` is alike; one generic function for both would need the definitions for numbers of any type.
pub fn add_each(n: usize, sizes: [u8; 16], values: [u8; 16], sums: &mut [u64; BINS], amount: u32)
    requires { (n ≤ 16) × Inside n sizes values }
    ensures { sums.new ≡ changed_each (plus amount) sizes values sums.old n }
{
    for o in 0..n {
        add_at(sums, spot_of(sizes, values, o), amount);
    }
}
