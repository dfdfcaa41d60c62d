// A `u32` as a set of values below 32.
#![tactic(auto)]

ghost use Rattle.std.specs.Prelude.{◌≡◌, ℕ, ◌<◌, ◌≤◌, eqb, leb, ltb};
ghost use Rattle.bounded.specs.Bool.{and, or, implies, not};
ghost use Rattle.bounded.specs.Fold.{every, count, first};
ghost use Rattle.words.specs.Word.{width, has, word};
ghost use Rattle.words.specs.Walked.{Takes};
ghost use Rattle.std.specs.Iterator.{at_most};

// The bits of a word.
pub const WIDTH: usize = 32;

// A byte as a value.
pub fn wide(x: u8) -> usize
    ensures { result ≡ x }
{
    usize::from(x)
}

// `v` is a member of `x`.
pub fn member(x: u32, v: usize) -> bool
    requires { v < width }
    ensures { result ≡ has x v }
{
    (x >> v) & 1 == 1
}

// The word whose one member is `v`.
pub fn single(v: usize) -> u32
    requires { v < width }
    ensures { result ≡ word width (λ (u : ℕ). eqb u v) }
{
    1 << v
}

// The word of all values below `k`. The shift is at 64 bits, so that 32 is no special case.
pub fn full(k: usize) -> u32
    requires { k ≤ width }
    ensures { result ≡ word width (λ (u : ℕ). ltb u k) }
{
    ((1u64 << k) - 1) as u32
}

// The members of both words.
pub fn both(x: u32, y: u32) -> u32
    ensures { result ≡ word width (λ (u : ℕ). and (has x u) (has y u)) }
{
    x & y
}

// The members of either word.
pub fn either(x: u32, y: u32) -> u32
    ensures { result ≡ word width (λ (u : ℕ). or (has x u) (has y u)) }
{
    x | y
}

// The members of `x` that `y` lacks.
pub fn without(x: u32, y: u32) -> u32
    ensures { result ≡ word width (λ (u : ℕ). and (has x u) (not (has y u))) }
{
    x & !y
}

// How many members `x` has.
pub fn count(x: u32) -> usize
    ensures { result ≡ count width (has x) }
{
    u32::count_ones(x) as usize
}

// The lowest member of `x`, or 32 where it has none.
pub fn lowest(x: u32) -> usize
    ensures { result ≡ first width (has x) }
{
    u32::trailing_zeros(x) as usize
}

// `x` has no member at or above `k`.
pub fn within(x: u32, k: usize) -> bool
    requires { k ≤ width }
    ensures { result ≡ every width (λ (v : ℕ). implies (has x v) (ltb v k)) }
{
    (x as u64) < (1u64 << k)
}

// `x` without its lowest member.
pub fn dropped(x: u32) -> u32
    requires { 0 < x }
    ensures { result ≡ word width (λ (u : ℕ). and (has x u) (not (eqb u (first width (has x))))) }
{
    x & (x - 1)
}

// `x` has two members or more.
pub fn crowded(x: u32) -> bool
    ensures { result ≡ leb 2 (count width (has x)) }
{
    if x == 0 {
        return false;
    }
    dropped(x) != 0
}

// The members of a word one by one, the lowest first.
#[derive(Clone, Copy)]
pub struct Walk {
    // Those that are still to come.
    pub left: u32,
}

impl Iterator for Walk {
    type Item = usize;

    ghost next_gives = { Takes };

    ghost remaining = { λ s. at_most (count width (has s.left)) };

    fn next(&mut self) -> Option<usize> {
        if self.left == 0 {
            return None;
        }
        let v = lowest(self.left);
        self.left = dropped(self.left);
        Some(v)
    }
}

pub fn members(x: u32) -> Walk
    ensures { result.left ≡ x }
{
    Walk { left: x }
}
