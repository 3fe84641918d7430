ghost use Rattle.std.specs.Prelude.{◌≡◌, ◌+◌, ◌/◌, ◌≤◌, ◌<◌, length};
ghost use Rattle.screen.specs.Screen.{measure_of};
ghost use Rattle.screen.specs.Loops.{MatchesOf};

use crate::packed;

// What the screen answers of a strand: its longest run of one base, counted through the sites of the order, and how many of its own
// bases are C or G. Whether a card allows that, `limits` compares.
#[derive(Clone, Copy, Debug, PartialEq, Eq)]
pub struct Measure {
    pub longest: usize,
    pub gc: usize,
}

// The bases of the order beside the strand: the first site ends in C, the second starts with T.
const BEFORE: u64 = 1;

const AFTER: u64 = 3;

// Puts a flag for each base of `before`, a word and `after` but the first, set where it matches the one before it, into `matches`: the
// first ones and then 32 to a number. Answers how many of the word's bases are C or G.
fn put_matches(matches: &mut [u64], word: &[u8], before: u64, after: u64) -> usize
    requires { (length word.now ≤ 72) × (length matches.old ≡ length word.now / 8 + 1) × (before < 4) × (after < 4) }
    ensures { MatchesOf before word.now after result matches.new }
{
    let rest = word.len() % 8;
    let eights = word.len() / 8;
    let front = packed::front_of(&word[..rest], before);
    let mut gc = packed::gc_of(front.number, front.mask) as usize;
    let mut last = front.number;
    let mut mask = front.mask * 4 + 1;
    for k in 0..eights {
        let bases = packed::eight_at(word, rest + k * 8);
        matches[k] = packed::matches_of(packed::followed(last, bases) ^ last, mask);
        gc += packed::gc_of(bases, packed::LOW_BITS) as usize;
        last = bases;
        mask = packed::LOW_BITS;
    }
    matches[eights] = packed::matches_of(packed::followed(last, after << 62) ^ last, mask);
    gc
}

// The measure of a word that is not empty, with room for its matches. Of the sites only the bases at the joints are looked at: both
// differ from their neighbours, so that no run comes through from further off.
fn measure_in(matches: &mut [u64], word: &[u8]) -> Measure
    requires { (0 < length word.now) × (length word.now ≤ 72) × (length matches.old ≡ length word.now / 8 + 1) }
    ensures { result ≡ measure_of word.now }
{
    let gc = put_matches(matches, word, BEFORE, AFTER);
    let longest = packed::longest_run(matches);
    Measure { longest, gc }
}

// The screen. Ten numbers hold the matches of the longest word, a part of them those of a shorter one: fixed memory, no heap. The bound
// of 72 bytes stays a clause, for the word is a part of a lent array; docs/CLAIMS.md names this function.
pub fn measure_of(word: &[u8]) -> Measure
    requires { length word.now ≤ 72 }
    ensures { result ≡ measure_of word.now }
{
    if word.is_empty() {
        return Measure { longest: 0, gc: 0 };
    }
    let mut matches = [0; 10];
    measure_in(&mut matches[..word.len() / 8 + 1], word)
}
