ghost use Rattle.droplet.specs.CardCutter.{CutPromise};

use crate::card;
use crate::card::Card;
use crate::refusal::Refusal;
use field::bytes::copy_both;

// The card cutter: the questions 2 to 4 and 27, then 19, and the card at the start of the buffer; its length in bytes.
pub fn cut_card(card: Card, weights: &[u8], out: &mut [u8]) -> Result<usize, Refusal>
    ensures { CutPromise card weights.now out.old result out.new }
{
    card::check_plan(card, weights)?;
    let end = 20 + weights.len();
    let size = end + card::width_length(card);
    if out.len() < size {
        return Err(Refusal::CardBuffer);
    }
    copy_both(&card::card_head(card, weights), weights, &mut *out);
    card::put_width(card, &mut out[end..]);
    Ok(size)
}
