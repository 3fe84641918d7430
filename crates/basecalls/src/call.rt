ghost use Rattle.std.specs.Prelude.{◌≡◌, ◌+◌, ◌-◌, ◌≤◌, length};
ghost use Rattle.droplet.specs.PoolCard.{strand_bases};
ghost use Rattle.screen.specs.Sites.{site_before};
ghost use Rattle.strand.specs.Loops.{InRange};
ghost use Rattle.basecalls.specs.TwoCallers.{sites_right, call_passes, IsPart};

use droplet::card;
use droplet::card::Card;
use strand::read_check;

// Whether a call has the order's two sites at its ends.
fn has_sites(call: &[u8]) -> bool
    requires { 48 ≤ length call.now }
    ensures { result ≡ sites_right (length call.now - 48) call.now }
{
    call.starts_with(b"GTTTCAGAGTTCTACAGTCCGACGATC") && call.ends_with(b"TGGAATTCTCGGGTGCCAAGG")
}

// The letters between the sites, where they stand in the call.
pub fn middle(call: &[u8], n: usize) -> &[u8]
    requires { n + 48 ≤ length call.now }
    ensures { IsPart call.entry (length site_before) n result }
{
    let start = 27;
    let end = start + n;
    &call[start..end]
}

// Whether a call passes: its length, before any part of it is taken, its sites, and the questions 9 to 13 of its middle.
// `InRange` stays a clause, as `check_strand` asks it (docs/DECISIONS.md, 16).
pub fn passes(card: Card, call: &[u8]) -> bool
    requires { InRange card }
    ensures { result ≡ call_passes card call.now }
{
    let n = card::strand_bases(card).0;
    if call.len() != n + 48 {
        return false;
    }
    has_sites(call) && read_check::check_strand(card, middle(call, n)).is_ok()
}
