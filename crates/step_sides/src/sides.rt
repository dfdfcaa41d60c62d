// The two variables that a table names, each with the free variable that it is traced to.
ghost use Rattle.std.specs.Prelude.{◌≡◌, pred, ◌<◌, eqb, length};
ghost use Rattle.bounded.specs.Bool.{if};
ghost use Rattle.words.specs.Word.{width, word};
ghost use Rattle.pairs.specs.Pairs.{variables};
ghost use Rattle.step_sides.specs.Sides.{leader_of, side_of, Placed, partner_at, told_at, reach_at};

use head::Head;
use pairs::Rows;
use words::{both, lowest, wide};

// A variable that a table names and its domain; the variable that it is traced to, itself where it is free, and the domain of that.
#[derive(Clone, Copy)]
pub struct Side {
    pub named: usize,
    pub domain: u32,
    pub leader: usize,
    pub values: u32,
}

// "Each option is traced to its live leader; a live option is its own."
fn traced(leader: u8, x: usize) -> usize
    ensures { result ≡ if (eqb leader 0) x (pred leader) }
{
    if leader == 0 {
        return x;
    }
    wide(leader) - 1
}

pub fn side_of(head: Head, x: usize) -> Side
    requires { (x < variables) × (leader_of head x < variables) }
    ensures { (result ≡ side_of head x) × Placed result }
{
    let leaders = head.leaders;
    let domains = head.domains;
    let p = traced(leaders[x], x);
    Side {
        named: x,
        domain: domains[x],
        leader: p,
        values: domains[p],
    }
}

// The partner of value `a` of the leader: itself where the variable named is free, and else the lowest of row AND domain, in a sound state the only one.
pub fn partner(rows: &Rows, side: Side, a: usize) -> usize
    requires { Placed side × (a < width) }
    ensures { result ≡ partner_at width rows.now side a }
{
    let x = side.named;
    let p = side.leader;
    if p == x {
        return a;
    }
    lowest(both(side.domain, pairs_read::row(rows, p, x, a)))
}

// The values of the leader whose partners are in `row`.
fn told(rows: &Rows, side: Side, row: u32) -> u32
    requires { Placed side }
    ensures { result ≡ word width (told_at width rows.now side row) }
{
    let x = side.named;
    let p = side.leader;
    if p == x {
        return row;
    }
    pairs_read::partners(rows, x, p, both(side.domain, row))
}

// The values of the second leader whose partners the table allows with the partner of value `a` of the first.
pub fn reach(rows: &Rows, table: &[u32], first: Side, second: Side, a: usize) -> u32
    requires { Placed first × Placed second × (a < width) × (partner_at width rows.now first a < length table.now) }
    ensures { result ≡ word width (reach_at width rows.now table.now first second a) }
{
    let c = partner(rows, first, a);
    told(rows, second, table[c])
}
