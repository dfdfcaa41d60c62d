// A list of entries, handed over in any parts.
#![tactic(auto)]

ghost use Rattle.std.specs.Prelude.{true, ◌≡◌};
ghost use Rattle.state.specs.View.{state_of, sound_state};
ghost use Rattle.year_act.specs.Kept.{Whole};
ghost use Rattle.year_feed.specs.Feed.{TookByte, FedAs, LastAs};

use bins_counts::BINS;
use head::{Head, Rows};
use scan::{Scan, finish, opening, step};
use year_act::{Acted, Entries, act};

// A list in part: what was seen of the line that goes on, whether a byte of it was, and what is kept of the entries.
#[derive(Clone, Copy)]
pub struct Run {
    pub scan: Scan,
    pub begun: bool,
    pub entries: Entries,
}

#[derive(Clone, Copy)]
pub struct Took {
    pub run: Run,
    // The place past its text.
    pub at: usize,
}

#[derive(Clone, Copy)]
pub struct Fed {
    pub run: Run,
    // The first byte that was not taken.
    pub next: usize,
    // How many bytes the text has.
    pub length: usize,
}

// The longest answer has fewer bytes.
const ROOM: usize = 512;

// A byte of the list, and its text.
fn take_byte(
    head: Head,
    rows: &Rows,
    counts: &mut [u32; BINS],
    ins: &mut [u64; BINS],
    outs: &mut [u64; BINS],
    shorts: &mut [u64; BINS],
    run: Run,
    byte: u8,
    quiet: bool,
    text: &mut [u8],
    at: usize,
) -> Took
    requires { (sound_state (state_of head rows.now) ≡ true) × Whole counts.old ins.old outs.old shorts.old }
    ensures { TookByte (state_of head rows.now) quiet run byte counts.old counts.new ins.old ins.new outs.old outs.new shorts.old shorts.new text.old text.new at result }
{
    if byte != 10 {
        let on = Run {
            scan: step(run.scan, byte),
            begun: true,
            ..run
        };
        return Took { run: on, at };
    }
    let line = finish(run.scan);
    let acted = act(
        head,
        rows,
        counts,
        ins,
        outs,
        shorts,
        run.entries,
        line,
        quiet,
        text,
        at,
    );
    let on = Run {
        scan: opening(false),
        begun: false,
        entries: acted.entries,
    };
    Took {
        run: on,
        at: acted.at,
    }
}

// Where the list ends: a last line that no line feed ends.
pub fn last(
    head: Head,
    rows: &Rows,
    counts: &mut [u32; BINS],
    ins: &mut [u64; BINS],
    outs: &mut [u64; BINS],
    shorts: &mut [u64; BINS],
    run: Run,
    quiet: bool,
    text: &mut [u8],
) -> Acted
    requires { (sound_state (state_of head rows.now) ≡ true) × Whole counts.old ins.old outs.old shorts.old }
    ensures { LastAs (state_of head rows.now) quiet run counts.old counts.new ins.old ins.new outs.old outs.new shorts.old shorts.new text.old text.new result }
{
    if run.begun {
        let line = finish(run.scan);
        return act(
            head,
            rows,
            counts,
            ins,
            outs,
            shorts,
            run.entries,
            line,
            quiet,
            text,
            0,
        );
    }
    Acted {
        entries: run.entries,
        at: 0,
    }
}

// Takes bytes of the list from a place on, as many as there is room for their text.
pub fn feed(
    head: Head,
    rows: &Rows,
    counts: &mut [u32; BINS],
    ins: &mut [u64; BINS],
    outs: &mut [u64; BINS],
    shorts: &mut [u64; BINS],
    run: Run,
    bytes: &[u8],
    from: usize,
    quiet: bool,
    text: &mut [u8],
) -> Fed
    requires { (sound_state (state_of head rows.now) ≡ true) × Whole counts.old ins.old outs.old shorts.old }
    ensures { FedAs (state_of head rows.now) quiet run bytes.now from counts.old counts.new ins.old ins.new outs.old outs.new shorts.old shorts.new text.old text.new result }
{
    let most = text.len().saturating_sub(ROOM);
    let mut on = run;
    let mut length = 0;
    for next in from..bytes.len() {
        if most < length {
            return Fed {
                run: on,
                next,
                length,
            };
        }
        let took = take_byte(
            head,
            rows,
            counts,
            ins,
            outs,
            shorts,
            on,
            bytes[next],
            quiet,
            text,
            length,
        );
        on = took.run;
        length = took.at;
    }
    Fed {
        run: on,
        next: from.max(bytes.len()),
        length,
    }
}
