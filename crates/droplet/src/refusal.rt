ghost use Rattle.std.specs.Prelude.{◌≡◌, Some, decimal};
ghost use Rattle.droplet.specs.Refusals.{refusal_number};

use std::fmt;

// Why a call is refused: the first of its questions that says no, by what is wrong then. The numbers are those of the questions, which the
// C forms return; the order in which a call asks is its own.
#[derive(Clone, Copy, Debug, PartialEq, Eq)]
pub enum Refusal {
    // the pool card is not three whole fields, and behind them at most a whole fourth one, the width
    Malformed = 1,
    // the sizes on the card: F, L, R and K
    Sizes = 2,
    // the limits on the card, for runs and for GC
    Limits = 3,
    // the weights on the card
    Weights = 4,
    // the file does not have F bytes
    FileLength = 5,
    // the start seed is 0
    StartSeed = 6,
    // too many strands are wanted, or the buffer is too short for them
    Output = 7,
    // the number list is shorter than D
    NumberList = 8,
    // the read does not have the length of a strand
    ReadLength = 9,
    // one of the letters is none of A, C, G and T
    Letter = 10,
    // no codeword is within R/2 bytes
    NoCodeword = 11,
    // the seed is 0
    SeedZero = 12,
    // a run that is too long, or GC outside the limits
    Screen = 13,
    // the store is shorter than its count says
    Count = 14,
    // a record of this seed has another payload
    OtherPayload = 15,
    // no space is left in the lent buffer
    NoSpace = 16,
    // a record in the store has seed 0
    StoredSeedZero = 17,
    // the buffer for the file or the marks is too short
    FileOrMarks = 18,
    // the buffer for the card is too short
    CardBuffer = 19,
    // the count of the record is full
    FullCount = 20,
    // neither of two calls of a strand passes
    NeitherCall = 21,
    // the width on the card is below 2 or above F
    Width = 27,
    // fewer than F bytes in the source or the target of a reordering
    FileBuffer = 28,
}

// The number of the question, as the C forms return it.
impl From<Refusal> for u32 {
    ghost from_gives = { λ q n. n ≡ refusal_number q };

    fn from(refusal: Refusal) -> u32 {
        refusal as u32
    }
}

// Its number.
impl fmt::Display for Refusal {
    ghost output = { λ q. Some (decimal (refusal_number q)) };

    fn fmt<W: fmt::Write>(&self, f: &mut fmt::Formatter<W>) -> fmt::Result {
        write!(f, "{}", u32::from(*self))
    }
}
