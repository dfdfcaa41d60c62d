// How often each thing was tried, how often it came out wrong, and where the random numbers are.

use std::io;

// One more than the greatest of the kinds that are counted.
pub const KINDS: usize = 78;

// The counts, and the seed of the number that is drawn next. It goes by value, as loans make proofs longer.
#[derive(Clone, Copy)]
pub struct Tally {
    pub counts: [u64; KINDS],
    pub seed: u64,
}

pub const DIFFERENCES: usize = 0;
// Inputs: families of sheets stand at their own numbers from here on.
pub const FAMILIES: usize = 1;

pub const DAMAGED: usize = 13;

pub const RANDOM_BYTES: usize = 14;

pub const EXAMPLES: usize = 15;

pub const TEXTS: usize = 16;

pub const DAMAGED_STATES: usize = 17;

pub const COUNTED: usize = 18;

pub const BUILDS: usize = 19;
// Calls, by what they are to answer.
pub const READS: usize = 20;

pub const READS_REFUSED: usize = 21;

pub const STEPS: usize = 22;

pub const STEPS_REFUSED: usize = 23;

pub const REDUCTIONS: usize = 24;

pub const TESTS: usize = 25;

pub const TESTS_REFUSED: usize = 26;

pub const COMPLETIONS: usize = 27;

pub const COMPLETIONS_REFUSED: usize = 28;

pub const VERDICTS: usize = 29;

pub const WRITES: usize = 30;

pub const WRITES_REFUSED: usize = 31;

pub const UNSOUND: usize = 32;

pub const SOUND: usize = 33;

pub const CUTS: usize = 34;
// Verdicts that show a build with two or more live options.
pub const APART: usize = 35;
// Added tables: all that are not refused, those for a follower where the two leaders differ, for two followers of one leader, and for a follower and its
// leader.
pub const TABLES: usize = 36;

pub const TABLES_LED: usize = 37;

pub const TABLES_OF_FOLLOWERS: usize = 38;

pub const TABLES_WITH_LEADER: usize = 39;
// Refused ones, by number.
pub const TABLES_UNSOUND: usize = 40;

pub const TABLES_NUMBER: usize = 41;

pub const TABLES_SAME: usize = 42;

pub const TABLES_ROWS: usize = 43;

pub const SEARCHES: usize = 44;
// Lists of followers: calls after which all are tried, and those of them that changed one.
pub const LISTS: usize = 45;

pub const LISTS_CHANGED: usize = 46;
// States with a dead value in such a list, and the calls on these.
pub const DEAD_VALUES: usize = 47;

pub const DEAD_CALLS: usize = 48;
// Trimmings: all that are not refused, those of them that made a list shorter before any step, that took a step, and that changed the state again once a
// full reduction was done; and the refused ones.
pub const TRIMS: usize = 49;

pub const TRIMS_SHORTER: usize = 50;

pub const TRIMS_STEPPED: usize = 51;

pub const TRIMS_AGAIN: usize = 52;

pub const TRIMS_REFUSED: usize = 53;
// Lists of calls that have trimmings among them, the other calls of these, and what was asked of the states that they came to.
pub const TRIM_LISTS: usize = 54;

pub const TRIM_CALLS: usize = 55;

pub const TRIM_ANSWERS: usize = 56;
// Runs that a named option leads: all that are not refused, those of them that took a step, that took an option after a higher one, and that took an option
// with followers, so that they have more new followers than steps.
pub const LEADS: usize = 57;

pub const LEADS_STEPPED: usize = 58;

pub const LEADS_AGAIN: usize = 59;

pub const LEADS_BROUGHT: usize = 60;
// Refused ones, by number.
pub const LEADS_UNSOUND: usize = 61;

pub const LEADS_NUMBER: usize = 62;

pub const LEADS_FOLLOWER: usize = 63;
// Lists of calls that have such runs among them, the other calls of these, and what was asked of the states that they came to.
pub const LEAD_LISTS: usize = 64;

pub const LEAD_CALLS: usize = 65;

pub const LEAD_ANSWERS: usize = 66;
// Orders that are found, and those of them that are not by number.
pub const ORDERS: usize = 67;

pub const ORDERS_OTHER: usize = 68;
// Lists that are tested: good orders, other orders, and lists that are no order.
pub const ORDERS_GOOD: usize = 69;

pub const ORDERS_NOT: usize = 70;

pub const ORDERS_WRONG: usize = 71;
// Buffers of another length, and either call on a state that is not sound.
pub const ORDERS_ROOM: usize = 72;

pub const ORDERS_UNSOUND: usize = 73;
// Bytes for the paired profile: sheets that are accepted, those of them without a build, sheets refused with 31, and bytes that no reader accepts.
pub const KITS: usize = 74;

pub const KITS_NONE: usize = 75;

pub const KITS_OTHER: usize = 76;

pub const KITS_REFUSED: usize = 77;

// Nothing is counted yet.
pub fn start(seed: u64) -> Tally {
    Tally {
        counts: [0; KINDS],
        seed,
    }
}

// Once numbers are drawn, with the seed that they leave.
pub fn with_seed(tally: Tally, seed: u64) -> Tally {
    let counts = tally.counts;
    Tally { counts, seed }
}

// So many more of the kind `k`.
pub fn add(tally: Tally, k: usize, more: u64) -> Tally {
    let mut after = tally;
    if k < KINDS {
        after.counts[k] = std::num::wrapping_add_u64(after.counts[k], more);
    }
    after
}

// One more of the kind `k`.
pub fn count(tally: Tally, k: usize) -> Tally {
    add(tally, k, 1)
}

// One comparison of the kind `k`.
pub fn expect(tally: Tally, k: usize, is_right: bool) -> Tally {
    hold(count(tally, k), is_right)
}

// A comparison that is counted only where it comes out wrong.
pub fn hold(tally: Tally, is_right: bool) -> Tally {
    if is_right {
        return tally;
    }
    count(tally, DIFFERENCES)
}

// What another tally counted of calls on states that are not sound, as of the kind `k`, and what came out wrong there.
pub fn with_unsound(tally: Tally, k: usize, other: Tally) -> Tally {
    let counts = other.counts;
    let mut after = add(tally, k, counts[UNSOUND]);
    after = add(after, k, counts[WRITES_REFUSED]);
    after = add(after, k, counts[TABLES_UNSOUND]);
    after = add(after, k, counts[TRIMS_REFUSED]);
    after = add(after, k, counts[LEADS_UNSOUND]);
    after = add(after, k, counts[ORDERS_UNSOUND]);
    add(after, DIFFERENCES, counts[DIFFERENCES])
}

// What another tally counted of a list of calls, and what came out wrong there: a list, its calls and what was asked after them, as of the kind `k` and the
// two after it.
fn with_list(tally: Tally, k: usize, other: Tally) -> Tally {
    let counts = other.counts;
    let calls = std::num::wrapping_add_usize(k, 1);
    let answers = std::num::wrapping_add_usize(k, 2);
    let mut after = count(tally, k);
    after = add(after, calls, counts[STEPS]);
    after = add(after, calls, counts[STEPS_REFUSED]);
    after = add(after, calls, counts[REDUCTIONS]);
    after = add(after, calls, counts[TABLES]);
    after = add(after, calls, counts[TABLES_NUMBER]);
    after = add(after, calls, counts[TABLES_SAME]);
    after = add(after, calls, counts[TABLES_ROWS]);
    after = add(after, answers, counts[TESTS]);
    after = add(after, answers, counts[COMPLETIONS]);
    after = add(after, answers, counts[COMPLETIONS_REFUSED]);
    after = add(after, answers, counts[VERDICTS]);
    after = add(after, answers, counts[SEARCHES]);
    add(after, DIFFERENCES, counts[DIFFERENCES])
}

// With what was counted of a list that has trimmings among its calls.
pub fn with_trims(tally: Tally, other: Tally) -> Tally {
    let counts = other.counts;
    let mut after = with_list(tally, TRIM_LISTS, other);
    after = add(after, TRIMS, counts[TRIMS]);
    after = add(after, TRIMS_SHORTER, counts[TRIMS_SHORTER]);
    after = add(after, TRIMS_STEPPED, counts[TRIMS_STEPPED]);
    add(after, TRIMS_AGAIN, counts[TRIMS_AGAIN])
}

// With what was counted of a list that has runs among its calls that a named option leads.
pub fn with_leads(tally: Tally, other: Tally) -> Tally {
    let counts = other.counts;
    let mut after = with_list(tally, LEAD_LISTS, other);
    after = add(after, LEADS, counts[LEADS]);
    after = add(after, LEADS_STEPPED, counts[LEADS_STEPPED]);
    after = add(after, LEADS_AGAIN, counts[LEADS_AGAIN]);
    after = add(after, LEADS_BROUGHT, counts[LEADS_BROUGHT]);
    after = add(after, LEADS_NUMBER, counts[LEADS_NUMBER]);
    add(after, LEADS_FOLLOWER, counts[LEADS_FOLLOWER])
}

// What another tally counted of orders. What came out wrong there is not taken over: it is with the list of calls before them.
pub fn with_orders(tally: Tally, other: Tally) -> Tally {
    let counts = other.counts;
    let mut after = add(tally, ORDERS, counts[ORDERS]);
    after = add(after, ORDERS_OTHER, counts[ORDERS_OTHER]);
    after = add(after, ORDERS_GOOD, counts[ORDERS_GOOD]);
    after = add(after, ORDERS_NOT, counts[ORDERS_NOT]);
    after = add(after, ORDERS_WRONG, counts[ORDERS_WRONG]);
    add(after, ORDERS_ROOM, counts[ORDERS_ROOM])
}

// What another tally counted of bytes for the paired profile, and what came out wrong there.
pub fn with_kits(tally: Tally, other: Tally) -> Tally {
    let counts = other.counts;
    let mut after = add(tally, KITS, counts[KITS]);
    after = add(after, KITS_NONE, counts[KITS_NONE]);
    after = add(after, KITS_OTHER, counts[KITS_OTHER]);
    after = add(after, KITS_REFUSED, counts[KITS_REFUSED]);
    add(after, DIFFERENCES, counts[DIFFERENCES])
}

fn print_number(rt: &impl Print, number: u64) -> io::Result<()> {
    println!(rt; " {number}")
}

// One byte of the titles, and the number `k` where a title ends. Answers the number that comes next.
fn print_byte(rt: &impl Print, byte: u8, k: usize, counts: &[u64; KINDS]) -> io::Result<usize> {
    if byte != 10 {
        rt.write_all(&[byte])?;
        return Ok(k);
    }
    if KINDS <= k {
        return Ok(k);
    }
    print_number(rt, counts[k])?;
    Ok(k + 1)
}

// A line for each title, with the numbers from `first` on. Each title ends with a line feed.
pub fn print(
    rt: &impl Print,
    titles: &[u8],
    first: usize,
    counts: &[u64; KINDS],
) -> io::Result<()> {
    let mut k = first;
    for &byte in titles {
        k = print_byte(rt, byte, k, counts)?;
    }
    Ok(())
}

// What every program counts.
pub fn print_checks(rt: &impl Print, counts: &[u64; KINDS]) -> io::Result<()> {
    print(
        rt,
        b"damaged states\nsheets with all tuples tried\nbuilds\nreads accepted\nreads refused\n\
        steps taken\nsteps refused\nreductions\ntests\ntests refused\ncompletions\n\
        completions refused\nverdicts\nwrites\nwrites refused\ncalls on unsound states\n\
        states called sound\ncuts\nbuilt with two or more live options\n\
        tables added\ntables added for a follower and another leader's option\n\
        tables added for two followers of one leader\ntables added for a follower and its leader\n\
        tables refused with 9\ntables refused with 10\ntables refused with 21\ntables refused with 22\nsearches\n\
        calls after which the lists of followers were tried\ncalls that changed the list of a follower\n\
        states with a dead value in the list of a follower\ncalls on such states\n\
        trimmings\ntrimmings that made a list shorter before any step\ntrimmings that took a step\n\
        trimmings that changed the state again after a full reduction\ntrimmings refused with 9\n\
        lists of calls with trimmings among them\nother calls in these\n\
        tests, completions, verdicts and searches after these\n\
        runs that a named option leads\nsuch runs that took a step\nsuch runs that took an option after a higher one\n\
        such runs with more new followers than steps\n\
        such runs refused with 9\nsuch runs refused with 10\nsuch runs refused with 11\n\
        lists of calls with such runs among them\nother calls in these\n\
        tests, completions, verdicts and searches after these\n\
        orders found\norders found that are not by number\n\
        tested lists that are good orders\ntested lists that are other orders\ntested lists refused with 30\n\
        findings refused with 14\nfindings and tests of orders refused with 9\n\
        sheets of the paired profile\nsuch sheets without a build\nsheets refused with 31\n\
        bytes that neither reader accepts\n",
        DAMAGED_STATES,
        counts,
    )?;
    print(rt, b"differences\n", DIFFERENCES, counts)
}
