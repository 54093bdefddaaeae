// The least yield under every ceiling, from one look at each tick.
ghost use Rattle.std.specs.Prelude.{◌≡◌, ℕ, ◌≤◌, length, slice_index};
ghost use Rattle.certificate.specs.Allowance.{allowance};
ghost use Rattle.certificate.specs.Widths.{exactly};
ghost use Rattle.certificate.specs.Marking.{least_yield, ticks};

use crate::marking_test::MarkingTest;
use cores::{Supply, WIDEST};

// One place for each width from 0 to the widest.
const WIDTHS: usize = WIDEST as usize + 1;

// How many ticks a marking may choose, from the length of a path.
fn marks_allowed(length: u32) -> u32
    ensures { result ≡ allowance length }
{
    length
}

// How many ticks of the test have each width.
fn histogram<S: Supply>(supply: &S, test: &MarkingTest) -> [u32; WIDTHS]
    ensures size { length result ≡ 65 }
    ensures counts { (cores : ℕ) → cores ≤ 64 → slice_index result cores ≡ exactly (S.Supply.width supply.now) test.now.first (ticks test.now) cores }
{
    let mut counts = [0; WIDTHS];
    for tick in test.first..test.deadline {
        counts[usize::from(supply.width_at(tick))] += 1;
    }
    counts
}

// The least yield under each ceiling from 0 to 64, as the sum of the levels up to it.
// A tick reaches level j where its width is at least j. Marking a tick costs one tick of every level that it reaches but the first.
pub(crate) fn least_yields<S: Supply>(supply: &S, test: &MarkingTest) -> [u64; WIDTHS]
    ensures size { length result ≡ 65 }
    ensures yields { (ceiling : ℕ) → ceiling ≤ 64 → slice_index result ceiling ≡ least_yield (S.Supply.width supply.now) test.now ceiling }
{
    let counts = histogram(supply, test);
    let allowed = marks_allowed(test.length);
    let ticks = test.deadline.saturating_sub(test.first);
    let mut level = ticks - counts[0];
    let mut sum = u64::from(level);
    let mut yields = [0; WIDTHS];
    yields[1] = sum;
    // By index: what is written through an iterator over the yields is not known to the proof.
    for cores in 1..usize::from(WIDEST) {
        level -= counts[cores];
        sum += u64::from(level.saturating_sub(allowed));
        yields[cores + 1] = sum;
    }
    yields
}
