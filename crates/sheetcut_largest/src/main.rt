// The program sheetcut. The crates sheetcut_refused, _largest, _longer and _empty have this same text, and each is run on another input.
#![tactic(auto)]

fn main(rt: HostRuntime) {
    sheetcut_body::run(&rt);
}
