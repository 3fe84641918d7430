ghost use Rattle.std.specs.Prelude.{true, false, ◌≡◌, ◌++◌, ◌≤◌, length, take, drop};
ghost use Rattle.interleave.specs.InterleaveCalls.{file_reordered, ReorderPromise, InterleavePromise, DeinterleavePromise};

use crate::moves;
use droplet::card;
use droplet::card::Card;
use droplet::refusal::Refusal;
use field::bytes::copy;

// The first F bytes of `source`, reordered where the card asks for it, into `target`. `back`: see `moves`.
fn move_file(back: bool, card: Card, source: &[u8], target: &mut [u8])
    requires { (card.interleaved ≡ true → 1 ≤ card.width) × (card.f ≤ length source.now) × (card.f ≤ length target.old) }
    ensures { target.new ≡ file_reordered back card (take card.f source.now) ++ drop card.f target.old }
{
    if card.interleaved {
        moves::move_bytes(back, card.width, card.f, source, target);
    } else {
        copy(&source[..card.f as usize], target);
    }
}

// Both calls: the questions 2 to 4 and 27, then 28, and the file.
fn reorder_file(
    back: bool,
    card: Card,
    weights: &[u8],
    source: &[u8],
    target: &mut [u8],
) -> Result<(), Refusal>
    ensures { ReorderPromise back card weights.now source.now target.old result target.new }
{
    card::check_plan(card, weights)?;
    let n = card.f as usize;
    if source.len() < n || target.len() < n {
        return Err(Refusal::FileBuffer);
    }
    move_file(back, card, source, target);
    Ok(())
}

// Dealing: what the writer is handed, from the customer's file. Two functions: docs/CLAIMS.md names both, each with its promise.
pub fn interleave_file(
    card: Card,
    weights: &[u8],
    source: &[u8],
    target: &mut [u8],
) -> Result<(), Refusal>
    ensures { InterleavePromise card weights.now source.now target.old result target.new }
{
    reorder_file(false, card, weights, source, target)
}

// Its inverse: the customer's file, from a restored one with all segments present.
pub fn deinterleave_file(
    card: Card,
    weights: &[u8],
    source: &[u8],
    target: &mut [u8],
) -> Result<(), Refusal>
    ensures { DeinterleavePromise card weights.now source.now target.old result target.new }
{
    reorder_file(true, card, weights, source, target)
}
