// The listing program of document 01: reads the pool card from pool.card and reads from standard input, one a line, and prints
// how they were answered, what a restore from them finds, and how many reads are behind the records (document 02, Item 6).
#![tactic(auto)]

mod behind;
mod input;
mod tally;

ghost use Rattle.std.specs.Prelude.{◌≡◌, ◌≤◌, length, take};
ghost use Rattle.droplet.specs.Questions.{card_refusal};

use behind::total_behind;
use decoder::restorer::restore;
use droplet::card::{read_card, segment_count, weights_end};
use input::list_reads;
use std::rt::Files;
use std::{fs, io};
use tally::Pool;

// Reads until `bytes` is full, the input ends or a read fails, and returns how many bytes it put at the start of `bytes`.
// Its loop stays a `while`, which is no less plain than a `for`: it ends by what the reads bring, and not by a count of turns.
fn read_full(input: &mut impl io::Read, bytes: &mut [u8]) -> usize
    ensures { (result ≤ length bytes.new) × (result ≡ length (take result bytes.new)) }
{
    let mut done = 0;
    while done < bytes.len() {
        let n = input.read(&mut bytes[done..]).unwrap_or(0);
        if n == 0 {
            break;
        }
        done += n;
    }
    done
}

// The bytes of pool.card, read into `bytes`: none where it is missing, cannot be read, or has more than 8,192. No Option: a card that is
// missing is refused as an empty one is, with 1.
fn load_card<'a>(rt: &impl Files, bytes: &'a mut [u8]) -> &'a [u8]
    ensures { length result.now ≤ length bytes.old }
{
    let n = match fs::open(rt, "pool.card") {
        Ok(mut file) => read_full(&mut file, &mut *bytes),
        Err(_) => 0,
    };
    if 8192 < n {
        return &bytes[..0];
    }
    &bytes[..n]
}

// Lists the reads of a pool, and restores from those on the store. The card's questions have been asked. The lent buffers are handed on
// one by one: a struct of them would hold six `&mut`, and would only be taken apart again here.
fn list_pool(
    rt: &(impl Print + Eprint),
    input: &mut impl io::Read,
    pool: Pool<'_>,
    segments: u32,
    chunk: &mut [u8],
    line: &mut [u8; 512],
    store: &mut [u8],
    file: &mut [u8],
    marks: &mut [u8],
    list: &mut [u32],
) -> io::Result<()>
    requires { card_refusal pool.card pool.weights.now ≡ 0 }
{
    let t = list_reads(rt, input, pool, chunk, line, store);
    let total = total_behind(store, usize::from(pool.card.l), t.count);
    match restore(pool.card, pool.weights, store, t.count, file, marks, list) {
        Ok(sheet) => {
            println!(rt; "{t}")?;
            println!(rt; "segments {segments} {sheet}")?;
            println!(rt; "behind {total}")
        }
        // No restore is refused here: the card is accepted, the count is that of this store, no legal read has seed 0, and the
        // lent buffers are large enough for every card that is not too large.
        Err(refusal) => println!(rt; "restore {refusal}"),
    }
}

// The whole run, over the card's bytes and the lent buffers.
fn run(
    rt: &(impl Print + Eprint),
    input: &mut impl io::Read,
    bytes: &[u8],
    chunk: &mut [u8],
    line: &mut [u8; 512],
    store: &mut [u8],
    file: &mut [u8],
    marks: &mut [u8],
    list: &mut [u32],
) -> io::Result<()> {
    match read_card(bytes) {
        Err(refusal) => println!(rt; "card {refusal}"),
        Ok((card, _)) => {
            let k = segment_count(card);
            if k * u32::from(card.l) <= 32768 {
                let weights = &bytes[20..weights_end(bytes)];
                let pool = Pool { card, weights };
                list_pool(rt, input, pool, k, chunk, line, store, file, marks, list)
            } else {
                println!(rt; "card too large")
            }
        }
    }
}

fn main(rt: HostRuntime) -> io::Result<()> {
    let mut bytes = [0u8; 8193];
    let mut chunk = [0u8; 65536];
    let mut line = [0u8; 512];
    let mut store = [0u8; 65536];
    let mut file = [0u8; 32768];
    let mut marks = [0u8; 32768];
    let mut list = [0u32; 1024];
    let card = load_card(&rt, &mut bytes);
    run(
        &rt,
        &mut rt.stdin(),
        card,
        &mut chunk,
        &mut line,
        &mut store,
        &mut file,
        &mut marks,
        &mut list,
    )
}
