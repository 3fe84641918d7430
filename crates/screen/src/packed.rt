// The bases of a word, 32 to a number of 64 bits, so that one step looks at all of them. A base matches where it is equal to the one
// before it: a run of n bases is a row of n - 1 matches.
ghost use Rattle.std.specs.Prelude.{◌≡◌, true, false, ℕ, ◌+◌, ◌*◌, ◌/◌, ◌%◌, ◌^◌, ◌≤◌, ◌<◌, length, drop};
ghost use Rattle.screen.specs.Loops.{number_after, low_bits, gc_in, zero_pairs, chunks_number, thinned, Flags, longest_row};

// The lower bit of each of 32 bases.
pub const LOW_BITS: u64 = 0x5555_5555_5555_5555;

// The front of a word as a number, with a base before it, and the lower bits of its own bases.
#[derive(Clone, Copy, Debug, PartialEq, Eq)]
pub struct Front {
    pub number: u64,
    pub mask: u64,
}

// How many bases are C or G: those whose two bits differ.
pub fn gc_of(bases: u64, mask: u64) -> u32
    ensures { (k : ℕ) → mask ≡ low_bits k → result ≡ gc_in k bases }
{
    ((bases ^ (bases >> 1)) & mask).count_ones()
}

// A flag for each base, set where it matches, from the XOR of each base with the one before it.
pub fn matches_of(differences: u64, mask: u64) -> u64
    ensures { (k : ℕ) → mask ≡ low_bits k → result ≡ zero_pairs k differences }
{
    ((differences | (differences >> 1)) & mask) ^ mask
}

// 32 bases moved on by one: in front comes the last one of those before them.
pub fn moved(before: u64, bases: u64) -> u64
    ensures { result ≡ before % 4 * 2 ^ 62 + bases / 4 }
{
    (before << 62) | (bases >> 2)
}

// 32 bases moved back by one: behind them comes the first one of the next.
pub fn followed(bases: u64, next: u64) -> u64
    ensures { result ≡ bases % 2 ^ 62 * 4 + next / 2 ^ 62 }
{
    (bases << 2) | (next >> 62)
}

// The front of a word, fewer than eight bytes. Number and mask have room for another base.
pub fn front_of(word: &[u8], before: u64) -> Front
    requires { (length word.now < 8) × (before < 4) }
    ensures number_value { (result.number ≡ number_after before word.now) × (result.mask ≡ low_bits (4 * length word.now)) }
    ensures number_bound { (result.number < 2 ^ 62) × (result.mask < 2 ^ 62) }
{
    let mut number = before;
    let mut mask = 0;
    for &b in word {
        number = number * 256 + u64::from(b);
        mask = mask * 256 + 0x55;
    }
    Front { number, mask }
}

// Eight bytes of a word as a number.
pub fn eight_at(word: &[u8], i: usize) -> u64
    requires { i + 8 ≤ length word.now }
    ensures { (n : ℕ) → number_after n (drop i word.now) ≡ number_after (n * 2 ^ 64 + result) (drop (i + 8) word.now) }
{
    u64::from_be_bytes([
        word[i],
        word[i + 1],
        word[i + 2],
        word[i + 3],
        word[i + 4],
        word[i + 5],
        word[i + 6],
        word[i + 7],
    ])
}

// Takes the first match from each row, and answers whether there was one.
pub fn thin(matches: &mut [u64]) -> bool
    ensures matches_after { chunks_number matches.new ≡ thinned (chunks_number matches.old) }
    ensures result_value { (result ≡ false → chunks_number matches.old ≡ 0) × (result ≡ true → 0 < chunks_number matches.old) }
{
    let mut any = 0;
    let mut before = 0;
    for chunk in matches.iter_mut() {
        let m = *chunk;
        *chunk = m & moved(before, m);
        any |= m;
        before = m;
    }
    any != 0
}

// The longest run, one base longer than the longest row of matches. Each turn takes a match from every row, so that there are as many
// turns as the longest has.
pub fn longest_run(matches: &mut [u64]) -> usize
    requires { Flags 320 (chunks_number matches.old) }
    ensures { result ≡ longest_row 320 (chunks_number matches.old) + 1 }
{
    let mut longest = 1;
    while thin(matches) {
        longest += 1;
    }
    longest
}
