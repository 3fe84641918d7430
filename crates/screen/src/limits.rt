ghost use Rattle.std.specs.Prelude.{◌≡◌, ◌≤◌};
ghost use Rattle.screen.specs.Screen.{verdict};

use crate::screen::Measure;
use droplet::card::{Bases, Card};

// What the card's limits make of a strand. One with both faults is dropped for its run.
#[derive(Clone, Copy, Debug, PartialEq, Eq)]
pub enum Verdict {
    Passes,
    LongRun,
    GcAlone,
}

// The screen's measure of a strand of `n` bases, compared with the card's limits. Both sides are whole numbers: nothing is rounded.
pub fn compare(card: Card, measure: Measure, n: Bases) -> Verdict
    requires { (measure.gc ≤ 288) × (n.0 ≤ 288) }
    ensures { result ≡ verdict card measure n.0 }
{
    if usize::from(card.m) < measure.longest {
        return Verdict::LongRun;
    }
    let thousandths = 1000 * measure.gc;
    if thousandths < usize::from(card.lo) * n.0 {
        return Verdict::GcAlone;
    }
    if usize::from(card.hi) * n.0 < thousandths {
        return Verdict::GcAlone;
    }
    Verdict::Passes
}
