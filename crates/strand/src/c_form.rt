ghost use Rattle.std.specs.Prelude.{◌≡◌, ◌≤◌, take};
ghost use Rattle.droplet.specs.Refusals.{asked};
ghost use Rattle.strand.specs.ReadCheck.{read_check};
ghost use Rattle.strand.specs.CForm.{handed_card, droplet_over, handed_over};
ghost use Rattle.strand.specs.CForm.CAnswer.{handed};

use crate::read_check::ReadDroplet;
use crate::{droplet_bytes, read_check};
use droplet::card::Card;
use droplet::refusal::Refusal;

// The card of the numbers that a C host hands over, for all C forms. The eight numbers are the C interface's.
pub fn handed_card(f: u32, l: u8, r: u8, m: u8, lo: u16, hi: u16, dealt: u8, width: u32) -> Card
    ensures { result ≡ handed_card f l r m lo hi dealt width }
{
    Card {
        f,
        l,
        r,
        m,
        lo,
        hi,
        interleaved: dealt != 0,
        width,
    }
}

// What a C form without an answer of its own returns: 0, or the number of the refusal.
pub fn code(outcome: Result<(), Refusal>) -> u32
    ensures { result ≡ asked outcome }
{
    match outcome {
        Ok(()) => 0,
        Err(refusal) => u32::from(refusal),
    }
}

// Question 16, and then the droplet into the lent buffer. l ≤ 64 stays a clause: a checked card as a type would have to be handed back by the
// read check, for one number no plainer.
fn hand_over(l: u8, droplet: ReadDroplet, out: &mut [u8]) -> Result<(), Refusal>
    requires { l ≤ 64 }
    ensures { handed (asked result) out.new ≡ droplet_over l out.old droplet.seed (take l droplet.payload) }
{
    let l = usize::from(l);
    if out.len() < 4 + l {
        return Err(Refusal::NoSpace);
    }
    droplet_bytes::put_droplet(droplet.seed, &droplet.payload[..l], out);
    Ok(())
}

// The read check, and then the droplet that it finds into the lent buffer.
fn check_into(card: Card, weights: &[u8], read: &[u8], out: &mut [u8]) -> Result<(), Refusal>
    ensures { handed (asked result) out.new ≡ handed_over card.l out.old (read_check card weights.now read.now) }
{
    let droplet = read_check::check_read(card, weights, read)?;
    hand_over(card.l, droplet, out)
}

// The read check for a host written in C: 0 and the droplet in the buffer's first 4 + L bytes, or the refusal number. The crate strand_c
// exports it. The number, and the card as eight numbers, are the C interface's.
pub fn fountain_check_read(
    f: u32,
    l: u8,
    r: u8,
    m: u8,
    lo: u16,
    hi: u16,
    dealt: u8,
    width: u32,
    weights: &[u8],
    read: &[u8],
    out: &mut [u8],
) -> u32
    ensures { handed result out.new ≡ handed_over l out.old
        (read_check (handed_card f l r m lo hi dealt width) weights.now read.now) }
{
    let card = handed_card(f, l, r, m, lo, hi, dealt, width);
    code(check_into(card, weights, read, out))
}
