// The program sheetplan. The crates sheetplan_m, _page9, _differ, _refused, _beyond, _many and _lead have this same text, and each is run on another input.
#![tactic(auto)]

fn main(rt: HostRuntime) {
    sheetplan_body::run(&rt);
}
