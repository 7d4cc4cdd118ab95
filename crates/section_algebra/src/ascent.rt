//! Natural numbers that rise by one step, and whether two such lists have one in common.
ghost use Rattle.std.specs.Prelude.{◌≡◌, ℕ, ◌+◌, ◌*◌, ◌<◌, ◌≤◌, ◌^◌, ◌↔◌, IsTrue};
ghost use Rattle.section_algebra.specs.Ascent.{IsAscent, IsOn, Crossing};

/// The numbers `first`, `first + step`, and so on.
#[derive(Clone, Copy)]
pub(crate) struct Ascent {
    pub(crate) first: u64,
    pub(crate) step: u64,
    pub(crate) count: u64,
}

// Whether some number is in both. A number in common stands among the first `other.step` numbers that aren't below `other`,
// since so many turns on both remainders and order repeat; with the greater step first these are few.
pub(crate) fn crosses(ascent: &Ascent, other: &Ascent) -> bool
    requires ascent { IsAscent ascent.now.first ascent.now.step ascent.now.count }
    requires other { IsAscent other.now.first other.now.step other.now.count }
    ensures { IsTrue result ↔
        Crossing ascent.now.first ascent.now.step ascent.now.count other.now.first other.now.step other.now.count }
{
    let skipped = turns_before(ascent.first, ascent.step, other.first);
    let end = ascent.count.min(skipped + other.step);
    for turn in skipped..end {
        if is_on(ascent.first + turn * ascent.step, other) {
            return true;
        }
    }
    false
}

// How many turns come before the bound is reached.
fn turns_before(first: u64, step: u64, bound: u64) -> u64
    requires { 0 < step }
    ensures reached { bound ≤ first + result * step }
    ensures least { (k : ℕ) → bound ≤ first + k * step → result ≤ k }
    ensures small { result ≤ bound }
{
    if bound <= first {
        return 0;
    }
    (bound - first - 1) / step + 1
}

fn is_on(number: u64, ascent: &Ascent) -> bool
    requires { 0 < ascent.now.step }
    ensures { IsTrue result ↔ IsOn number ascent.now.first ascent.now.step ascent.now.count }
{
    if number < ascent.first {
        return false;
    }
    let gap = number - ascent.first;
    gap % ascent.step == 0 && gap / ascent.step < ascent.count
}
