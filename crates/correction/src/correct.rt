ghost use Rattle.std.specs.Prelude.{◌≡◌, true, ◌<◌, ◌≤◌, length};
ghost use Rattle.field.specs.CheckBytes.{CheckCount};
ghost use Rattle.correction.specs.Correction.{Corrects};
ghost use Rattle.correction.specs.Locators.{square, single_error, changed, Damaged};

use crate::locators;
use field::check_bytes;

// XORs `e` into the byte at place `p`.
#[tactic(auto, unfolding(crate::specs::Locators::changed))]
fn change(word: &mut [u8], p: usize, e: u8)
    requires { p < length word.old }
    ensures { word.new ≡ changed word.old p e }
{
    let j = word.len() - 1 - p;
    word[j] ^= e;
}

// Corrects one wrong byte of a word of which these are the syndromes, not all 0.
fn correct_one(r: u8, sums: [u8; 4], word: &mut [u8]) -> Option<u8>
    requires { Damaged r word.old sums × (single_error r sums ≡ true) }
    ensures { Corrects r word.old result word.new }
{
    let p = locators::place_of(r, sums, word.len())?;
    change(word, p, sums[0]);
    Some(1)
}

// Corrects two wrong bytes of a word of which these are the four syndromes.
fn correct_two(sums: [u8; 4], word: &mut [u8]) -> Option<u8>
    requires { Damaged 4 word.old sums × (square sums ≡ 0 → ⊥) }
    ensures { Corrects 4 word.old result word.new }
{
    let two = locators::two_places(sums, word.len())?;
    let f = locators::error_value(two.p, two.q, two.rest);
    change(word, two.p, sums[0] ^ f);
    change(word, two.q, f);
    Some(2)
}

// Makes the codeword of a word that differs from one in at most R/2 bytes, and answers in how many. A word with none so near stays as it
// is, and there is no answer.
pub fn correct_word(r: u8, word: &mut [u8]) -> Option<u8>
    requires { CheckCount r × (length word.old ≤ 255) }
    ensures { Corrects r word.old result word.new }
{
    let sums = check_bytes::syndromes_of(r, word);
    if sums == [0; 4] {
        return Some(0);
    }
    if locators::single_error(r, sums) {
        return correct_one(r, sums, word);
    }
    correct_two(sums, word)
}
