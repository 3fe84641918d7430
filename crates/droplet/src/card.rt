ghost use Rattle.std.specs.Prelude.{◌≡◌, cond, ◌&&◌, ◌||◌, ◌+◌, ◌*◌, ◌≤◌, ◌<◌, eqb, leb, List, ℕ, ◌++◌, length, take, drop, Some, None, MatchOption, true, false};
ghost use Rattle.field.specs.Bytes.{to_big_endian, same_bytes};
ghost use Rattle.droplet.specs.PoolCard.{number_at, to_two_bytes, field_bytes, width_field, card_bytes, weights_start, weights_end, width_there, card_numbers, card_weights, well_formed, weight_sum, segment_count, strand_bytes, strand_bases, bases_of, bytes_of};
ghost use Rattle.droplet.specs.CardParts.{HasEnds, IsCardOf};
ghost use Rattle.droplet.specs.Questions.{within, sizes_right, limits_right, degrees_right, width_right, plan_answer, plan_of, card_answer, card_reading};

use crate::refusal::Refusal;
use crate::weights;
use field::bytes::{copy, number_at};

// The numbers of a pool card: F, L, R, m, lo and hi; whether its file is interleaved (dealt), and the width W.
// Not Option<u32> for the last two: a card without the field may be handed a W, which `CutThenRead` says is read back as 0.
// The weights stay beside a card and not in it: the C interface hands both over, and they are lent bytes.
#[derive(Clone, Copy, Debug, PartialEq, Eq)]
pub struct Card {
    pub f: u32,
    pub l: u8,
    pub r: u8,
    pub m: u8,
    pub lo: u16,
    pub hi: u16,
    pub interleaved: bool,
    pub width: u32,
}

// What the questions 2 to 4 learn on the way: K, D and the sum of the weights.
#[derive(Clone, Copy, Debug, PartialEq, Eq)]
pub struct Plan {
    pub segments: u32,
    pub degrees: u32,
    pub sum: u32,
}

// A length in bases, and a length in bytes. Not one generic type: that they are two types is what they are for.
#[derive(Clone, Copy, Debug, PartialEq, Eq)]
pub struct Bases(pub usize);

#[derive(Clone, Copy, Debug, PartialEq, Eq)]
pub struct Bytes(pub usize);

// Four bases are one byte. Not From: it asks nothing of a length, and `to_bases` does; `to_bytes` drops what is no whole byte. As methods
// the two would be no plainer.
#[tactic(auto, unfolding(crate::specs::PoolCard::bases_of))]
pub fn to_bases(n: Bytes) -> Bases
    requires { n.0 ≤ 65536 }
    ensures { result ≡ bases_of n }
{
    Bases(n.0 * 4)
}

#[tactic(auto, unfolding(crate::specs::PoolCard::bytes_of))]
pub fn to_bytes(n: Bases) -> Bytes
    ensures { result ≡ bytes_of n }
{
    Bytes(n.0 / 4)
}

// K: the file's length over a segment's, rounded up.
#[tactic(auto, unfolding(crate::specs::PoolCard::segment_count))]
pub fn segment_count(card: Card) -> u32
    requires { (1 ≤ card.l) × (card.f ≤ 8388608) }
    ensures { result ≡ segment_count card }
{
    card.f.div_ceil(u32::from(card.l))
}

// A strand's bytes: seed, payload and check bytes.
#[tactic(auto, unfolding(crate::specs::PoolCard::strand_bytes))]
pub fn strand_bytes(card: Card) -> Bytes
    ensures { result ≡ record { 0 = strand_bytes card } }
{
    Bytes(4 + usize::from(card.l) + usize::from(card.r))
}

// n: a strand's bases.
pub fn strand_bases(card: Card) -> Bases
    ensures { (result.0 ≡ strand_bases card) × (result.0 ≤ 2056) }
{
    to_bases(strand_bytes(card))
}

// Question 2. K comes last: it has a meaning only where F and L are right.
#[tactic(auto, unfolding(crate::specs::Questions::sizes_right))]
fn sizes_right(card: Card) -> bool
    ensures { result ≡ sizes_right card }
{
    (1..=8388608).contains(&card.f)
        && (1..=64).contains(&card.l)
        && matches!(card.r, 2 | 4)
        && segment_count(card) <= 131072
}

// Question 3: the longest run, and the GC limits in thousandths.
#[tactic(auto, unfolding(crate::specs::Questions::limits_right))]
fn limits_right(card: Card) -> bool
    ensures { result ≡ limits_right card }
{
    (1..=20).contains(&card.m) && card.lo <= card.hi && card.hi <= 1000
}

// Of question 4, what it asks of the length of the weights.
fn degrees_right(segments: u32, weights: &[u8]) -> bool
    ensures { result ≡ degrees_right segments weights.now }
{
    let degrees = weights.len() / 4;
    weights.len() % 4 == 0 && (1..=1024).contains(&degrees) && degrees <= segments as usize
}

// Question 4: the sum of the weights, if the answer is yes. They are summed, and once, when they are known to be few enough for 64 bits.
fn right_sum(segments: u32, weights: &[u8]) -> Option<u32>
    ensures { result ≡ cond (degrees_right segments weights.now && within 1 (weight_sum weights.now) 4294967295) (Some (weight_sum weights.now)) None }
{
    if !degrees_right(segments, weights) {
        return None;
    }
    let sum = u32::try_from(weights::sum_weights(weights)).ok()?;
    (sum != 0).then_some(sum)
}

// Question 27. Without the field any width will do.
#[tactic(auto, unfolding(crate::specs::Questions::width_right))]
fn width_right(card: Card) -> bool
    ensures { result ≡ width_right card }
{
    !card.interleaved || (2..=card.f).contains(&card.width)
}

// The questions 2 to 4 and 27, with which every call but the card reader starts. D by `as` and no TryFrom: it is 1,024 at most by then,
// so that a refusal could not happen.
#[tactic(auto, unfolding(crate::specs::Questions::plan_of, crate::specs::Questions::card_refusal, crate::specs::Questions::weights_right))]
pub fn check_plan(card: Card, weights: &[u8]) -> Result<Plan, Refusal>
    ensures { plan_answer result ≡ plan_of card weights.now }
{
    if !sizes_right(card) {
        return Err(Refusal::Sizes);
    }
    if !limits_right(card) {
        return Err(Refusal::Limits);
    }
    let segments = segment_count(card);
    let sum = right_sum(segments, weights).ok_or(Refusal::Weights)?;
    if !width_right(card) {
        return Err(Refusal::Width);
    }
    Ok(Plan {
        segments,
        degrees: (weights.len() / 4) as u32,
        sum,
    })
}

// The number in the two bytes from a place on, the most significant first, as in every number of a card. Beside `number_at`, which
// reads four: each is one call of the library, so one for both would be no plainer.
#[tactic(auto, unfolding(crate::specs::PoolCard::number_at, field::specs::Bytes::from_big_endian))]
fn two_bytes(bytes: &[u8], at: usize) -> u16
    requires { at + 2 ≤ length bytes.now }
    ensures { result ≡ number_at at 2 bytes.now }
{
    u16::from_be_bytes([bytes[at], bytes[at + 1]])
}

// Where the weights end, by the length of the third field.
#[tactic(auto, unfolding(crate::specs::PoolCard::weights_end))]
pub fn weights_end(bytes: &[u8]) -> usize
    requires { 20 ≤ length bytes.now }
    ensures { (result ≡ weights_end bytes.now) × (result ≤ 65555) }
{
    20 + usize::from(two_bytes(bytes, 18))
}

// The width, if a fourth field stands behind the weights.
#[tactic(auto, unfolding(crate::specs::PoolCard::number_at))]
fn card_width(rest: &[u8]) -> Option<u32>
    ensures { result ≡ cond (leb 7 (length rest.now)) (Some (number_at 3 4 rest.now)) None }
{
    if rest.len() < 7 {
        return None;
    }
    Some(number_at(rest, 3))
}

// The numbers of a card whose first 20 bytes these are, and what stands behind its weights: the contents of the first two fields, past
// their tags and lengths, and that of the fourth.
fn card_numbers(head: &[u8], rest: &[u8]) -> Card
    requires { length head.now ≡ 20 }
    ensures { (bytes : List ℕ) → HasEnds bytes head.now rest.now → result ≡ card_numbers bytes }
{
    let width = card_width(rest);
    Card {
        f: number_at(head, 3),
        l: head[7],
        r: head[8],
        m: head[12],
        lo: two_bytes(head, 13),
        hi: two_bytes(head, 15),
        interleaved: width.is_some(),
        width: width.unwrap_or(0),
    }
}

// A card's bytes before its weights: two fields, and tag and length of the third. The card cutter writes them, the card reader
// compares with them. The length by `as` and no TryFrom: the clause bounds it, so that a refusal could not happen.
#[tactic(auto, unfolding(crate::specs::PoolCard::card_bytes, crate::specs::PoolCard::field_bytes, crate::specs::PoolCard::to_two_bytes, field::specs::Bytes::to_big_endian))]
pub fn card_head(card: Card, weights: &[u8]) -> [u8; 20]
    requires { length weights.now < 65536 }
    ensures { result ≡ take weights_start (card_bytes card weights.now) }
{
    let f = card.f.to_be_bytes();
    let lo = card.lo.to_be_bytes();
    let hi = card.hi.to_be_bytes();
    let size = (weights.len() as u16).to_be_bytes();
    [
        1, 0, 6, f[0], f[1], f[2], f[3], card.l, card.r, 2, 0, 5, card.m, lo[0], lo[1], hi[0],
        hi[1], 3, size[0], size[1],
    ]
}

// The fourth field: tag 4, length 4, and the width.
#[tactic(auto, unfolding(crate::specs::PoolCard::field_bytes, crate::specs::PoolCard::to_two_bytes, field::specs::Bytes::to_big_endian))]
fn width_bytes(width: u32) -> [u8; 7]
    ensures { result ≡ field_bytes 4 (to_big_endian width) }
{
    let w = width.to_be_bytes();
    [4, 0, 4, w[0], w[1], w[2], w[3]]
}

// How many bytes a card has behind its weights.
#[tactic(auto, unfolding(crate::specs::PoolCard::width_field, crate::specs::PoolCard::field_bytes, crate::specs::PoolCard::to_two_bytes, field::specs::Bytes::to_big_endian))]
pub fn width_length(card: Card) -> usize
    ensures { result ≡ length (width_field card) }
{
    if card.interleaved {
        return 7;
    }
    0
}

// Writes what a card has behind its weights.
#[tactic(auto, unfolding(crate::specs::PoolCard::width_field, crate::specs::PoolCard::field_bytes, crate::specs::PoolCard::to_two_bytes, field::specs::Bytes::to_big_endian))]
pub fn put_width(card: Card, out: &mut [u8])
    requires { length (width_field card) ≤ length out.old }
    ensures { out.new ≡ width_field card ++ drop (length (width_field card)) out.old }
{
    if card.interleaved {
        copy(&width_bytes(card.width), out);
    }
}

// Whether these bytes are what a card has behind its weights.
fn is_width(card: Card, bytes: &[u8]) -> bool
    ensures { result ≡ same_bytes bytes.now (width_field card) }
{
    if card.interleaved {
        return bytes == width_bytes(card.width).as_slice();
    }
    bytes.is_empty()
}

// Whether a card with these numbers and these weights has this before them and this behind them.
fn is_card(card: Card, head: &[u8], weights: &[u8], rest: &[u8]) -> bool
    requires { (length head.now ≡ 20) × (length weights.now < 65536) }
    ensures { result ≡ (same_bytes head.now (take weights_start (card_bytes card weights.now)) && same_bytes rest.now (width_field card)) }
{
    is_width(card, rest) && head == card_head(card, weights).as_slice()
}

// Question 1: the numbers and the weights of a well-formed card, which is the card of its own numbers and weights.
fn well_formed(bytes: &[u8]) -> Option<(Card, &[u8])>
    ensures { MatchOption result (well_formed bytes.now ≡ false) (λ p. IsCardOf bytes.now p.0 p.1.now) }
{
    let (head, behind) = bytes.split_at_checked(20)?;
    let (weights, rest) = behind.split_at_checked(usize::from(two_bytes(head, 18)))?;
    let card = card_numbers(head, rest);
    if is_card(card, head, weights, rest) && weights.len() % 4 == 0 {
        return Some((card, weights));
    }
    None
}

// The card reader: the numbers and D. The weights stand from byte 20 on.
#[tactic(auto, unfolding(crate::specs::Questions::card_reading, crate::specs::Questions::card_reading_refusal, crate::specs::Questions::plan_of))]
pub fn read_card(bytes: &[u8]) -> Result<(Card, u32), Refusal>
    ensures { card_answer result ≡ card_reading bytes.now }
{
    let (card, weights) = well_formed(bytes).ok_or(Refusal::Malformed)?;
    let plan = check_plan(card, weights)?;
    Ok((card, plan.degrees))
}
