ghost use Rattle.std.specs.Prelude.{◌≡◌, true, ◌+◌, ◌*◌, ◌<◌, length};
ghost use Rattle.screen.specs.Letters.{letter_of, all_letters, byte_bases, byte_letters, word_letters, letters_word};
ghost use Rattle.screen.specs.Loops.{Reads, spelled};

// 00 is A, 01 C, 10 G, 11 T, and every other number is no letter: 32 or 33. B, D, F and N have a number of their own so that eight of
// the twenty numbers from A to T have an arm, which is enough for the compiler to make a table of them. With one number for all that
// are none, or with an `Option`, it makes a jump for each letter, which no processor can foresee: 152 letters then take 1,230 ns to
// read, and so 174.
fn letter_bits(x: u8) -> u8
    ensures { Reads x result }
{
    match x {
        b'A' => 0,
        b'C' => 1,
        b'G' => 2,
        b'T' => 3,
        b'B' | b'D' | b'F' | b'N' => 32,
        0..=64 | 69 | 72..=77 | 79..=83 | 85..=255 => 33,
    }
}

// The letter of a base. No enum of bases with From: a base is two bits of a byte, and in the screen 32 of them are one number.
pub fn letter_of(base: u8) -> u8
    ensures { result ≡ letter_of base }
{
    match base {
        0 => b'A',
        1 => b'C',
        2 => b'G',
        _ => b'T',
    }
}

// The four bases of a byte, highest pair of bits first.
fn byte_bases(b: u8) -> [u8; 4]
    ensures { result ≡ byte_bases b }
{
    [(b >> 6) & 3, (b >> 4) & 3, (b >> 2) & 3, b & 3]
}

fn byte_letters(b: u8) -> [u8; 4]
    ensures { result ≡ byte_letters b }
{
    byte_bases(b).map(letter_of)
}

// The letters of a word, four to a byte.
pub fn write_letters(word: &[u8], out: &mut [u8])
    requires { length out.old ≡ 4 * length word.now }
    ensures { out.new ≡ word_letters word.now }
{
    for (i, &b) in word.iter().enumerate() {
        out[4 * i..4 * i + 4].copy_from_slice(&byte_letters(b));
    }
}

// The byte of four bases. To the base 4: the library joins whole bytes alone.
fn bases_byte(a: u8, b: u8, c: u8, d: u8) -> u8
    requires { (a < 4) × (b < 4) × (c < 4) × (d < 4) }
    ensures { result ≡ ((a * 4 + b) * 4 + c) * 4 + d }
{
    ((a * 4 + b) * 4 + c) * 4 + d
}

// One test for all four: letters add up to 12 at most, and one that is none to 32 at least.
fn read_byte(a: u8, b: u8, c: u8, d: u8) -> Option<u8>
    ensures { result ≡ spelled a b c d }
{
    let w = letter_bits(a);
    let x = letter_bits(b);
    let y = letter_bits(c);
    let z = letter_bits(d);
    if w + x + y + z < 32 {
        return Some(bases_byte(w, x, y, z));
    }
    None
}

// Whether all of a read are letters, and the word that they spell. It stops at the first that is none. A bool and no Option: the word
// goes into the lent buffer (fixed memory, no heap), so there is no value to carry.
pub fn read_letters(read: &[u8], word: &mut [u8]) -> bool
    requires { length read.now ≡ 4 * length word.old }
    ensures value { result ≡ all_letters read.now }
    ensures word_after { result ≡ true → word.new ≡ letters_word read.now }
{
    for (i, byte) in word.iter_mut().enumerate() {
        let at = 4 * i;
        let Some(b) = read_byte(read[at], read[at + 1], read[at + 2], read[at + 3]) else {
            return false;
        };
        *byte = b;
    }
    true
}
