ghost use Rattle.std.specs.Prelude.{◌≡◌, ◌+◌, ◌≤◌, length};
ghost use Rattle.strand.specs.ReadCheck.{letters_reading};
ghost use Rattle.strand.specs.Loops.{InRange};
ghost use Rattle.decoder.specs.Store.{reads_clean, takes_over, record_bytes, count_fits, appended, store_record, store_reading, StorePromise};
ghost use Rattle.decoder.specs.StoreLoops.{Within, legal_read, Sought, Keeps, Counts};

use crate::records::{
    count_in, payload_in, put_count, put_record, record_at, record_bytes, replace_evidence,
    state_in,
};
use droplet::card;
use droplet::card::Card;
use droplet::refusal::Refusal;
use strand::droplet_bytes::seed_of;
use strand::read_check;

// What became of a read that was not refused, with the count of records after the call.
#[derive(Clone, Copy, Debug, PartialEq, Eq)]
pub enum StoreAnswer {
    Accepted(usize),
    Repeat(usize),
    Replaced(usize),
}

// A legal read: the droplet of its strand, and whether the read was clean.
#[derive(Clone, Copy, Debug, PartialEq, Eq)]
struct Read<'a> {
    seed: u32,
    payload: &'a [u8],
    clean: bool,
}

// The store's bytes, L and the count of records are handed on one by one, as C hands them in: a struct of them would hold a `&mut`, and each
// method would have to promise beside its own clause that it is still the same reference.

// Question 14. The product could pass the largest number, the quotient cannot.
pub fn count_fits(store: &[u8], l: usize, count: usize) -> bool
    requires { l ≤ 64 }
    ensures { result ≡ count_fits l store.now count }
{
    count <= store.len() / record_bytes(l)
}

// Where the first record of a seed starts, if there is one.
fn find_seed(store: &[u8], l: usize, count: usize, seed: u32) -> Option<usize>
    requires { Within l count store.now }
    ensures { Sought l count store.now seed result }
{
    for i in 0..count {
        if seed_of(record_at(store, l, i)) == seed {
            return Some(i * record_bytes(l));
        }
    }
    None
}

// Appends a record of a read, if there is space for it: question 16.
fn append(store: &mut [u8], count: usize, read: Read) -> Result<StoreAnswer, Refusal>
    requires { Within (length read.payload.now) count store.old }
    ensures { Keeps (appended (length read.entry.payload.now) store.old count (legal_read read.entry)) result store.new }
{
    let width = record_bytes(read.payload.len());
    let at = count * width;
    if store.len() - at < width {
        return Err(Refusal::NoSpace);
    }
    put_record(
        read.seed,
        read.payload,
        read.clean,
        &mut store[at..at + width],
    );
    Ok(StoreAnswer::Accepted(count + 1))
}

// Whether a read takes over the record of its seed: a clean read, where the record's state byte is not that of a clean one. The byte
// stays a number, of which every value but 0 counts as not clean.
fn takes_over(clean: bool, state: u8) -> bool
    ensures { result ≡ takes_over clean (reads_clean state) }
{
    clean && state != 0
}

// Counts one read more behind the record that starts at a place, unless its count is full: question 20.
fn count_again(store: &mut [u8], at: usize, l: usize) -> Result<(), Refusal>
    requires { (l ≤ 64) × (at + record_bytes l ≤ length store.old) }
    ensures { Counts l at store.old result store.new }
{
    let behind = count_in(&store[at..], l);
    if behind == u32::MAX {
        return Err(Refusal::FullCount);
    }
    put_count(store, at, l, behind + 1);
    Ok(())
}

// Takes a read in: it takes over the first record of its seed, or question 15 compares them, then question 20; and where there is none
// question 16.
fn store_legal(store: &mut [u8], count: usize, read: Read) -> Result<StoreAnswer, Refusal>
    requires { Within (length read.payload.now) count store.old }
    ensures { Keeps (store_record (length read.entry.payload.now) store.old count (legal_read read.entry)) result store.new }
{
    let payload = read.payload;
    let l = payload.len();
    let Some(at) = find_seed(store, l, count, read.seed) else {
        return append(store, count, read);
    };
    if takes_over(read.clean, state_in(&store[at..], l)) {
        count_again(store, at, l)?;
        replace_evidence(store, at, payload, read.clean);
        return Ok(StoreAnswer::Replaced(count));
    }
    if payload_in(&store[at..], l) != payload {
        return Err(Refusal::OtherPayload);
    }
    count_again(store, at, l)?;
    Ok(StoreAnswer::Repeat(count))
}

// The questions 9 to 13, 15, 20 and 16: the droplet is taken out of the read check's answer, or its refusal is handed on. The card's
// own questions have been asked: InRange stays a clause, as `check_strand` asks (docs/DECISIONS.md, 16).
fn offer(card: Card, store: &mut [u8], count: usize, read: &[u8]) -> Result<StoreAnswer, Refusal>
    requires { Within card.l count store.old × InRange card }
    ensures { Keeps (store_reading card.l store.old count (letters_reading card read.now)) result store.new }
{
    let droplet = read_check::check_strand(card, read)?;
    let l = usize::from(card.l);
    let legal = Read {
        seed: droplet.seed,
        payload: &droplet.payload[..l],
        clean: droplet.corrected == 0,
    };
    store_legal(store, count, legal)
}

// Offers a read to the store: the questions 2 to 4, 27, 14, and then those of the read and its record. The next call is handed the
// count in the answer, or after a refusal the same as this one.
pub fn store_read(
    card: Card,
    weights: &[u8],
    store: &mut [u8],
    count: usize,
    read: &[u8],
) -> Result<StoreAnswer, Refusal>
    ensures { StorePromise card weights.now store.old count read.now result store.new }
{
    card::check_plan(card, weights)?;
    if !count_fits(store, usize::from(card.l), count) {
        return Err(Refusal::Count);
    }
    offer(card, store, count, read)
}
