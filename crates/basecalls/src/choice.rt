ghost use Rattle.std.specs.Prelude.{◌≡◌};
ghost use Rattle.strand.specs.Loops.{InRange};
ghost use Rattle.basecalls.specs.TwoCallers.{choice_of, first_passing, choose_call, LettersPromise};

use crate::call::{middle, passes};
use droplet::card;
use droplet::card::Card;
use droplet::refusal::Refusal;

// Which of two calls is chosen.
#[derive(Clone, Copy, Debug, PartialEq, Eq)]
pub enum Caller {
    First,
    Second,
}

// The first of two calls that passes: question 21.
fn first_passing(card: Card, first: &[u8], second: &[u8]) -> Result<Caller, Refusal>
    requires { InRange card }
    ensures { choice_of result ≡ first_passing card first.now second.now }
{
    if passes(card, first) {
        return Ok(Caller::First);
    }
    if passes(card, second) {
        return Ok(Caller::Second);
    }
    Err(Refusal::NeitherCall)
}

// The choice between two base callers' calls of one ordered strand.
pub fn choose_call(
    card: Card,
    weights: &[u8],
    first: &[u8],
    second: &[u8],
) -> Result<Caller, Refusal>
    ensures { choice_of result ≡ choose_call card weights.now first.now second.now }
{
    card::check_plan(card, weights)?;
    first_passing(card, first, second)
}

// The letters to read: that part of the chosen call itself, as it was read. On a refusal it is empty.
// No Result: docs/CLAIMS.md (Item 8) and `LettersPromise` ask for an empty part.
pub fn chosen_letters<'a>(card: Card, weights: &[u8], first: &'a [u8], second: &'a [u8]) -> &'a [u8]
    ensures { LettersPromise card weights.now first.entry second.entry result }
{
    match choose_call(card, weights, first, second) {
        Ok(Caller::First) => middle(first, card::strand_bases(card).0),
        Ok(Caller::Second) => middle(second, card::strand_bases(card).0),
        Err(_) => &first[..0],
    }
}
