//! How many pivots are enough for a run.

ghost use Rattle.std.specs.Prelude.{◌≡◌, ◌+◌, ◌*◌, ◌<◌, ◌≤◌};
ghost use Rattle.std.specs.Option.{SomeIff};
ghost use Rattle.ps_simplex.specs.Count.{choose, enough_ways};
ghost use Rattle.ps_simplex.specs.declared.enough.TheConstants.{MOST_PIVOTS};

/// The most pivots that a run may be given.
pub const MOST_PIVOTS: u64 = 1_000_000;

/// The most ways three times of which are within the limit.
const MOST_WAYS: u64 = 333_333;

/// The ways to choose one thing more of one more, from the ways to choose some.
fn next_ways(ways: u64, worlds: u64, chosen: u64) -> u64
    requires ways { ways ≡ choose (worlds + chosen) chosen }
    requires small { ways ≤ 333333 }
    requires worlds { worlds ≤ 333333 }
    requires few { chosen < 102 }
    ensures { result ≡ choose (worlds + (chosen + 1)) (chosen + 1) }
{
    ways * (worlds + chosen + 1) / (chosen + 1)
}

/// The ways to choose some things of so many and of the worlds, where they are within the limit.
fn ways_within_limit(worlds: u64, many: u64) -> Option<u64>
    requires some { 0 < many }
    requires few { many ≤ 102 }
    ensures { SomeIff result (choose (worlds + many) many ≤ 333333)
        (choose (worlds + many) many) }
{
    if worlds > MOST_WAYS {
        return None;
    }
    let mut ways = 1;
    for chosen in 0..many {
        ways = next_ways(ways, worlds, chosen);
        if ways > MOST_WAYS {
            return None;
        }
    }
    Some(ways)
}

/// A limit of pivots that no run of so many rows and so many worlds in all reaches: three times
/// the ways to choose as many things as rows and one more, of rows, worlds and one more. `None`
/// comes exactly where that is above `MOST_PIVOTS`.
pub fn enough_pivots(rows: u32, worlds: u64) -> Option<u64>
    requires some { 0 < rows }
    requires few { rows ≤ 101 }
    requires worlds { 0 < worlds }
    ensures { SomeIff result (enough_ways rows worlds ≤ MOST_PIVOTS) (enough_ways rows worlds) }
{
    match ways_within_limit(worlds, u64::from(rows) + 1) {
        Some(ways) => Some(3 * ways),
        None => None,
    }
}
