// Runs published Reed-Solomon values, the examples of document 01 that are not starred, misread bytes put right (document 02, Item 3) and
// pairs of calls (Item 8), and prints what comes out. What it must print stands in the file `stdout`; the second implementation prints the same from its own code.
#![tactic(auto)]

ghost use Rattle.std.specs.Prelude.{◌≤◌, length};
ghost use Rattle.field.specs.CheckBytes.{CheckCount};

use basecalls::choice;
use correction::correct;
use decoder::restorer::Sheet;
use decoder::store::StoreAnswer;
use decoder::{restorer, store};
use droplet::card::Card;
use droplet::refusal::Refusal;
use field::{bytes, check_bytes};
use std::io;
use strand::read_check;

// A QR code block of 16 data and 10 check bytes.
type Block = [u8; 26];

// The symbol of "01234567" in ISO/IEC 18004, Annex I.
const ISO: Block =
    *b"\x10\x20\x0C\x56\x61\x80\xEC\x11\xEC\x11\xEC\x11\xEC\x11\xEC\x11\xA5\x24\xD4\xC1\xED\x36\xC7\x87\x2C\x55";

// The message of Wikiversity's "Reed-Solomon codes for coders", which has the check sums after the loss of its first byte too.
const WIKIVERSITY: Block =
    *b"\x40\xD2\x75\x47\x76\x17\x32\x06\x27\x26\x96\xC6\xC6\x96\x70\xEC\xBC\x2A\x90\x13\x6B\xAF\xEF\xFD\x4B\xE0";

// A block after the loss of its first `count` bytes.
fn after_loss(mut block: Block, count: usize) -> Block
    requires { count ≤ 26 }
{
    block[..count].fill(0);
    block
}

// The check sums of a word for R = 2 and for R = 4, those past R being 0.
fn print_sums(rt: &impl Print, name: &str, word: &[u8]) -> io::Result<()> {
    let two = u32::from_be_bytes(check_bytes::syndromes_of(2, word));
    let four = u32::from_be_bytes(check_bytes::syndromes_of(4, word));
    println!(rt; "{name} R=2 check sums {two:08x}")?;
    println!(rt; "{name} R=4 check sums {four:08x}")
}

// What a word becomes: how many bytes were wrong, and its first four.
fn print_correction(rt: &impl Print, name: &str, r: u8, mut word: Block) -> io::Result<()>
    requires { CheckCount r }
{
    let corrected = correct::correct_word(r, &mut word);
    let first = bytes::number_at(&word, 0);
    match corrected {
        Some(k) => println!(rt; "{name} R={r} mended {k} first bytes {first:08x}"),
        None => println!(rt; "{name} R={r} mended none"),
    }
}

fn print_corrections(rt: &impl Print, name: &str, word: Block) -> io::Result<()> {
    print_correction(rt, name, 2, word)?;
    print_correction(rt, name, 4, word)
}

// The check bytes of the message 01 are the generator polynomial without its first coefficient, which is 1.
fn reed_solomon(rt: &impl Print, one: &[u8], message: &[u8]) -> io::Result<()> {
    let one_two = u32::from_be_bytes(check_bytes::parity_of(2, one));
    let one_four = u32::from_be_bytes(check_bytes::parity_of(4, one));
    let four = u32::from_be_bytes(check_bytes::parity_of(4, message));
    println!(rt; "01 R=2 check bytes {one_two:08x}")?;
    println!(rt; "01 R=4 check bytes {one_four:08x}")?;
    println!(rt; "12 34 56 R=4 check bytes {four:08x}")
}

fn bench_card() -> Card {
    Card {
        f: 4,
        l: 1,
        r: 2,
        m: 15,
        lo: 214,
        hi: 1000,
        interleaved: false,
        width: 0,
    }
}

// The refused arm stands in three functions: it is one line each, of which one function would be no plainer.
fn print_store(rt: &impl Print, answer: Result<StoreAnswer, Refusal>) -> io::Result<()> {
    match answer {
        Ok(StoreAnswer::Accepted(n)) => println!(rt; "accepted, count {n}"),
        Ok(StoreAnswer::Repeat(n)) => println!(rt; "repeat, count {n}"),
        Ok(StoreAnswer::Replaced(n)) => println!(rt; "replaced, count {n}"),
        Err(refusal) => println!(rt; "refused {refusal}"),
    }
}

fn print_restore(rt: &impl Print, answer: Result<Sheet, Refusal>) -> io::Result<()> {
    match answer {
        Ok(sheet) => println!(rt; "{sheet}"),
        Err(refusal) => println!(rt; "refused {refusal}"),
    }
}

// "An empty shelf: present 0, sweeps 1"
fn empty_store(rt: &impl Print, weights: &[u8], buffer: &[u8]) -> io::Result<()> {
    let mut file = [255u8; 4];
    let mut marks = [255u8; 4];
    let mut list = [0u32; 2];
    print!(rt; "empty shelf: ")?;
    print_restore(
        rt,
        restorer::restore(
            bench_card(),
            weights,
            buffer,
            0,
            &mut file,
            &mut marks,
            &mut list,
        ),
    )?;
    println!(rt; "file {:08x}", u32::from_be_bytes(file))?;
    println!(rt; "marks {:08x}", u32::from_be_bytes(marks))
}

// They are 0 at a^0 .. a^9, so their first 2 and 4 check sums are 0.
fn published_words(rt: &impl Print) -> io::Result<()> {
    print_sums(rt, "ISO/IEC 18004 word", &ISO)?;
    print_sums(rt, "Wikiversity word", &WIKIVERSITY)?;
    let lost = after_loss(WIKIVERSITY, 1);
    print_sums(rt, "Wikiversity word with its first byte 0", &lost)
}

// The first of these words, and the second after the loss of one byte, of two and of three.
fn corrected_words(rt: &impl Print) -> io::Result<()> {
    let one = after_loss(WIKIVERSITY, 1);
    let two = after_loss(WIKIVERSITY, 2);
    let three = after_loss(WIKIVERSITY, 3);
    print_corrections(rt, "ISO/IEC 18004 word", ISO)?;
    print_corrections(rt, "Wikiversity word with its first byte 0", one)?;
    print_corrections(rt, "Wikiversity word with its first two bytes 0", two)?;
    print_corrections(rt, "Wikiversity word with its first three bytes 0", three)
}

// A read under the bench card: the droplet and how many bytes were wrong.
fn print_read(rt: &impl Print, weights: &[u8], read: &[u8]) -> io::Result<()> {
    rt.write_all(read)?;
    match read_check::check_read(bench_card(), weights, read) {
        Ok(droplet) => {
            println!(rt;
                ": seed {:08x} payload {:02x} mended {}",
                droplet.seed, droplet.payload[0], droplet.corrected
            )
        }
        Err(refusal) => println!(rt; ": refused {refusal}"),
    }
}

// The bench strand of seed 1, and with its first letter wrong, its last, and both.
fn misread_strands(rt: &impl Print, weights: &[u8]) -> io::Result<()> {
    print_read(rt, weights, b"AAAAAAAAAAAAAAACTGCAATCGTCAT")?;
    print_read(rt, weights, b"TAAAAAAAAAAAAAACTGCAATCGTCAT")?;
    print_read(rt, weights, b"AAAAAAAAAAAAAAACTGCAATCGTCAC")?;
    print_read(rt, weights, b"TAAAAAAAAAAAAAACTGCAATCGTCAC")
}

// The letters that are handed back of two calls under the bench card. From C a host takes them itself, so that only a program in this
// language sees the part.
fn print_letters<'a>(
    rt: &impl Print,
    weights: &[u8],
    first: &'a [u8],
    second: &'a [u8],
) -> io::Result<()> {
    print!(rt; "letters ")?;
    rt.write_all(choice::chosen_letters(bench_card(), weights, first, second))?;
    println!(rt;)
}

// Two calls of the strand of seed 1, one of them with a letter of it misread; then the first with a letter of a site wrong, and with one
// letter too few; and two of which neither passes.
fn pairs_of_calls(rt: &impl Print, weights: &[u8]) -> io::Result<()> {
    let clean = b"GTTTCAGAGTTCTACAGTCCGACGATCAAAAAAAAAAAAAAACTGCAATCGTCATTGGAATTCTCGGGTGCCAAGG";
    let misread = b"GTTTCAGAGTTCTACAGTCCGACGATCTAAAAAAAAAAAAAACTGCAATCGTCATTGGAATTCTCGGGTGCCAAGG";
    let site = b"GTTTCAGAGTTCTACAGTCCGACGATCAAAAAAAAAAAAAAACTGCAATCGTCATTGGAATTCTCGGGTGCCAAGC";
    let short = b"TTTCAGAGTTCTACAGTCCGACGATCAAAAAAAAAAAAAAACTGCAATCGTCATTGGAATTCTCGGGTGCCAAGG";
    print_letters(rt, weights, clean, misread)?;
    print_letters(rt, weights, misread, clean)?;
    print_letters(rt, weights, site, misread)?;
    print_letters(rt, weights, short, clean)?;
    print_letters(rt, weights, short, site)
}

fn main(rt: HostRuntime) -> io::Result<()> {
    reed_solomon(&rt, &[1], &[0x12, 0x34, 0x56])?;
    published_words(&rt)?;
    corrected_words(&rt)?;
    let weights = [0, 0, 0, 1, 0, 0, 0, 1];
    let mut buffer = [255u8; 20];
    empty_store(&rt, &weights, &buffer)?;
    // "AAAN is refused with 9"
    print!(rt; "AAAN: ")?;
    print_store(
        &rt,
        store::store_read(bench_card(), &weights, &mut buffer, 0, b"AAAN"),
    )?;
    misread_strands(&rt, &weights)?;
    pairs_of_calls(&rt, &weights)
}
