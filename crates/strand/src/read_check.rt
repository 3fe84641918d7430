ghost use Rattle.std.specs.Prelude.{◌≡◌, ◌*◌, ◌≤◌, length};
ghost use Rattle.field.specs.Bytes.{padded};
ghost use Rattle.strand.specs.ReadCheck.{strand_reading, word_reading, letters_reading, read_check, Answers};
ghost use Rattle.strand.specs.Loops.{InRange, IsWord};

use crate::droplet_bytes;
use correction::correct;
use droplet::card;
use droplet::card::{Bases, Bytes, Card};
use droplet::refusal::Refusal;
use field::bytes;
use screen::limits::Verdict;
use screen::screen::measure_of;
use screen::{letters, limits};

// The droplet that the read check finds in a read: its seed, its payload as 64 bytes, those past L being 0, and how many bytes of the read
// were corrected. An array of 64 bytes with L beside it: fixed memory, no heap.
#[derive(Clone, Copy, Debug, PartialEq, Eq)]
pub struct ReadDroplet {
    pub seed: u32,
    pub payload: [u8; 64],
    pub corrected: u8,
}

// A payload as 64 bytes, those past its end being 0.
fn pad(payload: &[u8]) -> [u8; 64]
    requires { length payload.now ≤ 64 }
    ensures { result ≡ padded 64 payload.now }
{
    let mut out = [0u8; 64];
    bytes::copy(payload, &mut out);
    out
}

// Questions 12 and 13, asked of a codeword in which so many bytes were corrected. IsWord stays a clause, here and below: the word is a part
// of a buffer of 72 bytes, which is fixed memory, and no value of a type.
fn check_codeword(card: Card, word: &[u8], corrected: u8) -> Result<ReadDroplet, Refusal>
    requires { IsWord card word.now }
    ensures { Answers (strand_reading card word.now corrected) result }
{
    let seed = droplet_bytes::seed_of(word);
    if seed == 0 {
        return Err(Refusal::SeedZero);
    }
    let n = card::to_bases(Bytes(word.len()));
    if limits::compare(card, measure_of(word), n) != Verdict::Passes {
        return Err(Refusal::Screen);
    }
    let end = 4 + usize::from(card.l);
    let payload = pad(&word[4..end]);
    Ok(ReadDroplet {
        seed,
        payload,
        corrected,
    })
}

// Question 11, asked of the word that a read spells, which is corrected on the way; and then 12 and 13.
fn check_word(card: Card, word: &mut [u8]) -> Result<ReadDroplet, Refusal>
    requires { IsWord card word.old }
    ensures { Answers (word_reading card word.old) result }
{
    let corrected = correct::correct_word(card.r, &mut *word).ok_or(Refusal::NoCodeword)?;
    check_codeword(card, word, corrected)
}

// Question 10, asked of a strand's length of letters, and then 11 to 13. The word that they spell is written to `word`.
fn check_letters(card: Card, read: &[u8], word: &mut [u8]) -> Result<ReadDroplet, Refusal>
    requires { IsWord card word.old × (length read.now ≡ 4 * length word.old) }
    ensures { Answers (letters_reading card read.now) result }
{
    if !letters::read_letters(read, &mut *word) {
        return Err(Refusal::Letter);
    }
    check_word(card, word)
}

// Question 9, and then 10 to 13. The buffer has space for the longest word: fixed memory, no heap.
fn check_length(card: Card, read: &[u8], buffer: &mut [u8]) -> Result<ReadDroplet, Refusal>
    requires { InRange card × (length buffer.old ≡ 72) }
    ensures { Answers (letters_reading card read.now) result }
{
    let n = Bases(read.len());
    if n != card::strand_bases(card) {
        return Err(Refusal::ReadLength);
    }
    let size = card::to_bytes(n).0;
    check_letters(card, read, &mut buffer[..size])
}

// The questions 9 to 13, for a caller that has asked the card's own. InRange stays a clause: docs/DECISIONS.md, 16, names this function and
// what it requires.
pub fn check_strand(card: Card, read: &[u8]) -> Result<ReadDroplet, Refusal>
    requires { InRange card }
    ensures { Answers (letters_reading card read.now) result }
{
    let mut word = [0u8; 72];
    check_length(card, read, &mut word)
}

// The read check.
pub fn check_read(card: Card, weights: &[u8], read: &[u8]) -> Result<ReadDroplet, Refusal>
    ensures { Answers (read_check card weights.now read.now) result }
{
    card::check_plan(card, weights)?;
    check_strand(card, read)
}
