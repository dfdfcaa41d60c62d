// The one thin function over lent bins: it draws or adds.
#![tactic(auto)]

ghost use Rattle.std.specs.Prelude.{◌≡◌, ◌≤◌, ◌++◌, take, drop};
ghost use Rattle.bins.specs.Plans.{plan_number, plan_bins};

use bins::{Bin, Plan, Seen, looked, moved, settled};

// Every bin is looked at before any is changed.
pub fn post(bins: &mut [Bin], p: Plan) -> u8
    ensures { (result ≡ plan_number p bins.old) × (bins.new ≡ plan_bins p bins.old) }
{
    let mut s = Seen {
        variable: 0,
        value: 0,
        exact: true,
        high: false,
        low: false,
    };
    for bin in bins.iter() {
        s = looked(p, s, *bin);
    }
    let code = settled(p, s);
    if code == 0 {
        for bin in bins.iter_mut() {
            *bin = moved(p, *bin);
        }
    }
    code
}

// The bins after an entry, and its number, where bins are held by value: no slice is lent to these, so what calls them is proved as any other function.
pub fn bins_in(mut bins: [Bin; 512], n: usize, p: Plan) -> [Bin; 512]
    requires { n ≤ 512 }
    ensures { result ≡ plan_bins p (take n bins) ++ drop n bins }
{
    post(&mut bins[..n], p);
    bins
}

pub fn number_in(mut bins: [Bin; 512], n: usize, p: Plan) -> u8
    requires { n ≤ 512 }
    ensures { result ≡ plan_number p (take n bins) }
{
    post(&mut bins[..n], p)
}
