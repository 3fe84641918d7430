// Syndromes and parity for R = 4, by remainders: a word of any length and the four bytes that it leaves when it is divided by the
// generator polynomial have the same syndromes.
ghost use Rattle.std.specs.Prelude.{◌≡◌, ◌<◌, length};
ghost use Rattle.field.specs.Bytes.{padded};
ghost use Rattle.field.specs.CheckBytes.{syndromes, parity};
ghost use Rattle.field.specs.Loops.{Leaves, up_four, up_eight, halves_table, at_halves};

use crate::bytes::number_at;
use crate::check_bytes::value_at;

// What four bytes leave, divided by the generator polynomial, when four bytes 0 come behind them: an entry for each value of each of
// their eight half bytes, the lowest half byte first. A table by whole bytes would have eight times the entries.
static UP_FOUR: [u32; 128] = [
    0x00000000, 0x0F367840, 0x1E6CF080, 0x115A88C0, 0x3CD8FD1D, 0x33EE855D, 0x22B40D9D, 0x2D8275DD,
    0x78ADE73A, 0x779B9F7A, 0x66C117BA, 0x69F76FFA, 0x44751A27, 0x4B436267, 0x5A19EAA7, 0x552F92E7,
    0x00000000, 0xF047D374, 0xFD8EBBE8, 0x0DC9689C, 0xE7016BCD, 0x1746B8B9, 0x1A8FD025, 0xEAC80351,
    0xD302D687, 0x234505F3, 0x2E8C6D6F, 0xDECBBE1B, 0x3403BD4A, 0xC4446E3E, 0xC98D06A2, 0x39CAD5D6,
    0x00000000, 0x6357D2E7, 0xC6AEB9D3, 0xA5F96B34, 0x91416FBB, 0xF216BD5C, 0x57EFD668, 0x34B8048F,
    0x3F82DE6B, 0x5CD50C8C, 0xF92C67B8, 0x9A7BB55F, 0xAEC3B1D0, 0xCD946337, 0x686D0803, 0x0B3ADAE4,
    0x00000000, 0x7E19A1D6, 0xFC325FB1, 0x822BFE67, 0xE564BE7F, 0x9B7D1FA9, 0x1956E1CE, 0x674F4018,
    0xD7C861FE, 0xA9D1C028, 0x2BFA3E4F, 0x55E39F99, 0x32ACDF81, 0x4CB57E57, 0xCE9E8030, 0xB08721E6,
    0x00000000, 0x5C07BFE5, 0xB80E63D7, 0xE409DC32, 0x6D1CC6B3, 0x311B7956, 0xD512A564, 0x89151A81,
    0xDA38917B, 0x863F2E9E, 0x6236F2AC, 0x3E314D49, 0xB72457C8, 0xEB23E82D, 0x0F2A341F, 0x532D8BFA,
    0x00000000, 0xA9703FF6, 0x4FE07EF1, 0xE6904107, 0x9EDDFCFF, 0x37ADC309, 0xD13D820E, 0x784DBDF8,
    0x21A7E5E3, 0x88D7DA15, 0x6E479B12, 0xC737A4E4, 0xBF7A191C, 0x160A26EA, 0xF09A67ED, 0x59EA581B,
    0x00000000, 0x548C479E, 0xA8058E21, 0xFC89C9BF, 0x4D0A0142, 0x198646DC, 0xE50F8F63, 0xB183C8FD,
    0x9A140284, 0xCE98451A, 0x32118CA5, 0x669DCB3B, 0xD71E03C6, 0x83924458, 0x7F1B8DE7, 0x2B97CA79,
    0x00000000, 0x29280415, 0x5250082A, 0x7B780C3F, 0xA4A01054, 0x8D881441, 0xF6F0187E, 0xDFD81C6B,
    0x555D20A8, 0x7C7524BD, 0x070D2882, 0x2E252C97, 0xF1FD30FC, 0xD8D534E9, 0xA3AD38D6, 0x8A853CC3,
];

// The same for eight bytes 0.
static UP_EIGHT: [u32; 128] = [
    0x00000000, 0xA7D9DBA4, 0x53AFAB55, 0xF47670F1, 0xA6434BAA, 0x019A900E, 0xF5ECE0FF, 0x52353B5B,
    0x51869649, 0xF65F4DED, 0x02293D1C, 0xA5F0E6B8, 0xF7C5DDE3, 0x501C0647, 0xA46A76B6, 0x03B3AD12,
    0x00000000, 0xA2113192, 0x59226239, 0xFB3353AB, 0xB244C472, 0x1055F5E0, 0xEB66A64B, 0x497797D9,
    0x798895E4, 0xDB99A476, 0x20AAF7DD, 0x82BBC64F, 0xCBCC5196, 0x69DD6004, 0x92EE33AF, 0x30FF023D,
    0x00000000, 0xDAD5BCB2, 0xA9B76579, 0x7362D9CB, 0x4F73CAF2, 0x95A67640, 0xE6C4AF8B, 0x3C111339,
    0x9EE689F9, 0x4433354B, 0x3751EC80, 0xED845032, 0xD195430B, 0x0B40FFB9, 0x78222672, 0xA2F79AC0,
    0x00000000, 0x21D10FEF, 0x42BF1EC3, 0x636E112C, 0x84633C9B, 0xA5B23374, 0xC6DC2258, 0xE70D2DB7,
    0x15C6782B, 0x341777C4, 0x577966E8, 0x76A86907, 0x91A544B0, 0xB0744B5F, 0xD31A5A73, 0xF2CB559C,
    0x00000000, 0x7739CB84, 0xEE728B15, 0x994B4091, 0xC1E40B2A, 0xB6DDC0AE, 0x2F96803F, 0x58AF4BBB,
    0x9FD51654, 0xE8ECDDD0, 0x71A79D41, 0x069E56C5, 0x5E311D7E, 0x2908D6FA, 0xB043966B, 0xC77A5DEF,
    0x00000000, 0x23B72CA8, 0x4673584D, 0x65C474E5, 0x8CE6B09A, 0xAF519C32, 0xCA95E8D7, 0xE922C47F,
    0x05D17D29, 0x26665181, 0x43A22564, 0x601509CC, 0x8937CDB3, 0xAA80E11B, 0xCF4495FE, 0xECF3B956,
    0x00000000, 0xFE81F28C, 0xE11FF905, 0x1F9E0B89, 0xDF3EEF0A, 0x21BF1D86, 0x3E21160F, 0xC0A0E483,
    0xA37CC314, 0x5DFD3198, 0x42633A11, 0xBCE2C89D, 0x7C422C1E, 0x82C3DE92, 0x9D5DD51B, 0x63DC2797,
    0x00000000, 0x5BF89B28, 0xB6ED2B50, 0xED15B078, 0x71C756A0, 0x2A3FCD88, 0xC72A7DF0, 0x9CD2E6D8,
    0xE293AC5D, 0xB96B3775, 0x547E870D, 0x0F861C25, 0x9354FAFD, 0xC8AC61D5, 0x25B9D1AD, 0x7E414A85,
];

// The XOR of a table's entries for the eight half bytes of a number: the number's own entry, since remainders add up by XOR.
fn at_halves(table: &[u32; 128], x: u32) -> u32
    ensures { result ≡ at_halves 8 table.now x }
{
    let mut sum = 0;
    for k in 0..8 {
        let half = (x >> (4 * k)) % 16;
        sum ^= table[(half + 16 * k) as usize];
    }
    sum
}

// What the bytes of a number leave with four bytes 0 behind them.
fn up_four(x: u32) -> u32
    ensures { result ≡ at_halves 8 (halves_table up_four) x }
{
    at_halves(&UP_FOUR, x)
}

// And with eight.
fn up_eight(x: u32) -> u32
    ensures { result ≡ at_halves 8 (halves_table up_eight) x }
{
    at_halves(&UP_EIGHT, x)
}

// The number that fewer than four bytes spell, which is their remainder.
fn number_of(word: &[u8]) -> u32
    requires { length word.now < 4 }
    ensures { Leaves word.now result }
{
    let mut r = 0;
    for &b in word {
        r = r * 256 + u32::from(b);
    }
    r
}

// The remainder of fewer than eight bytes.
fn start_of(word: &[u8]) -> u32
    requires { length word.now < 8 }
    ensures { Leaves word.now result }
{
    if word.len() < 4 {
        return number_of(word);
    }
    let (front, four) = word.split_at(word.len() - 4);
    number_at(four, 0) ^ up_four(number_of(front))
}

// The remainder of a word, eight bytes a turn. Of a turn's two walks through a table only one waits for the turn before: with four
// bytes a turn all would.
fn remainder_of(word: &[u8]) -> u32
    ensures { Leaves word.now result }
{
    let (start, rest) = word.split_at(word.len() % 8);
    let mut r = start_of(start);
    for eight in rest.chunks_exact(8) {
        let high = up_four(number_at(eight, 0));
        r = number_at(eight, 4) ^ high ^ up_eight(r);
    }
    r
}

// The four syndromes of a word: those of its remainder, which is 0 for a word without damage.
pub fn syndromes_four(word: &[u8]) -> [u8; 4]
    ensures { result ≡ syndromes 4 word.now }
{
    let r = remainder_of(word);
    if r == 0 {
        return [0, 0, 0, 0];
    }
    let rest = r.to_be_bytes();
    [
        value_at::<0>(&rest),
        value_at::<1>(&rest),
        value_at::<2>(&rest),
        value_at::<3>(&rest),
    ]
}

// The four parity bytes of a message: the remainder that it leaves with four bytes 0 behind it.
pub fn parity_four(message: &[u8]) -> [u8; 4]
    ensures { result ≡ padded 4 (parity 4 message.now) }
{
    let p = up_four(remainder_of(message));
    p.to_be_bytes()
}
