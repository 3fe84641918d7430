ghost use Rattle.std.specs.Prelude.{◌≡◌, true, false, [], ◌∷◌};
ghost use Rattle.droplet.specs.Questions.{card_reading};
ghost use Rattle.strand.specs.CForm.{handed_card};
ghost use Rattle.split.specs.SeedPosition.{seed_at};
ghost use Rattle.basecalls.specs.TwoCallers.{choose_call};
ghost use Rattle.capi.specs.CForms.{numbers_returned, flag_number, card_returned, stop_number, caller_number, store_numbers, seed_returned, choice_returned, CutForm, WriteForm, StoreForm, RestoreForm, ReorderForm};
ghost use Rattle.capi.specs.CForms.Returned.{returned};

use basecalls::choice;
use basecalls::choice::Caller;
use decoder::restorer::Sheet;
use decoder::store::StoreAnswer;
use decoder::{restorer, store};
use droplet::card::Card;
use droplet::refusal::Refusal;
use droplet::{card, card_cutter};
use interleave::file;
use split::seed_position;
use strand::c_form::{code, handed_card};
use strand::writer;
use strand::writer::{Run, Stop};

// Each form calls the public function of its layer and turns the answer into numbers. They are written last, and only where
// nothing was refused, so that a refusal leaves what the host lent. The card's eight numbers stand in each form, and what a form
// returns is a number, as the C interface has them.

// What a form that answers numbers returns: 0, or the number of the refusal, as `code` has it for the others.
fn answered<const N: usize>(outcome: Result<[u64; N], Refusal>, answer: &mut [u64; N]) -> u32
    ensures { returned result answer.new ≡ numbers_returned answer.old outcome.entry }
{
    match outcome {
        Ok(numbers) => {
            *answer = numbers;
            0
        }
        Err(refusal) => u32::from(refusal),
    }
}

// The numbers of a card: F, L, R, m, lo, hi, D, whether the fourth field is there, and W.
fn card_numbers(read: (Card, u32)) -> [u64; 9]
    ensures { result ≡ read.0.f ∷ read.0.l ∷ read.0.r ∷ read.0.m ∷ read.0.lo ∷ read.0.hi ∷ read.1
        ∷ flag_number read.0.interleaved ∷ read.0.width ∷ [] }
{
    let (card, degrees) = read;
    [
        u64::from(card.f),
        u64::from(card.l),
        u64::from(card.r),
        u64::from(card.m),
        u64::from(card.lo),
        u64::from(card.hi),
        u64::from(degrees),
        u64::from(card.interleaved),
        u64::from(card.width),
    ]
}

// The card reader: F, L, R, m, lo, hi, D, whether the fourth field is there, and W.
#[unsafe(no_mangle)]
pub extern "C" fn fountain_read_card(card: &[u8], answer: &mut [u64; 9]) -> u32
    ensures { returned result answer.new ≡ card_returned answer.old (card_reading card.now) }
{
    let read = card::read_card(card);
    answered(read.map(card_numbers), answer)
}

fn length_number(length: usize) -> [u64; 1]
    ensures { result ≡ length ∷ [] }
{
    [length as u64]
}

// The card cutter: the card's length.
#[unsafe(no_mangle)]
pub extern "C" fn fountain_cut_card(
    f: u32,
    l: u8,
    r: u8,
    m: u8,
    lo: u16,
    hi: u16,
    dealt: u8,
    width: u32,
    weights: &[u8],
    out: &mut [u8],
    answer: &mut [u64; 1],
) -> u32
    ensures { CutForm (handed_card f l r m lo hi dealt width) weights.now out.old answer.old
        result out.new answer.new }
{
    let card = handed_card(f, l, r, m, lo, hi, dealt, width);
    let cut = card_cutter::cut_card(card, weights, out);
    answered(cut.map(length_number), answer)
}

// How the writer stopped, as a number. No `From`, which would be no plainer: only the crate of a type may write it, and the number is C's.
fn stop_number(stop: Stop) -> u64
    ensures { result ≡ stop_number stop }
{
    match stop {
        Stop::Done => 0,
        Stop::Spent => 1,
    }
}

// The numbers of a writer run.
fn run_numbers(run: Run) -> [u64; 6]
    ensures { result ≡ stop_number run.stop ∷ run.made ∷ run.tried ∷ run.next ∷ run.dropped_run ∷ run.dropped_gc ∷ [] }
{
    [
        stop_number(run.stop),
        u64::from(run.made),
        u64::from(run.tried),
        u64::from(run.next),
        u64::from(run.dropped_run),
        u64::from(run.dropped_gc),
    ]
}

// The writer: the stop, made, tried, the next seed, and the strands dropped for a run and for GC alone.
#[unsafe(no_mangle)]
pub extern "C" fn fountain_write(
    f: u32,
    l: u8,
    r: u8,
    m: u8,
    lo: u16,
    hi: u16,
    dealt: u8,
    width: u32,
    weights: &[u8],
    file: &[u8],
    start: u32,
    wanted: u32,
    budget: u32,
    out: &mut [u8],
    list: &mut [u32],
    answer: &mut [u64; 6],
) -> u32
    ensures { WriteForm (handed_card f l r m lo hi dealt width) weights.now file.now start wanted budget
        out.old list.old answer.old result out.new list.new answer.new }
{
    let card = handed_card(f, l, r, m, lo, hi, dealt, width);
    let written = writer::write_strands(card, weights, file, start, wanted, budget, out, list);
    answered(written.map(run_numbers), answer)
}

fn seed_number(seed: u32) -> [u64; 1]
    ensures { result ≡ seed ∷ [] }
{
    [u64::from(seed)]
}

// The seed after so many steps of the schedule.
#[unsafe(no_mangle)]
pub extern "C" fn fountain_seed_at(start: u32, steps: u32, answer: &mut [u64; 1]) -> u32
    ensures { returned result answer.new ≡ seed_returned answer.old (seed_at start steps) }
{
    let seed = seed_position::seed_at(start, steps);
    answered(seed.map(seed_number), answer)
}

// The call that is chosen, as a number. No `From`: as `stop_number`.
fn caller_number(caller: Caller) -> [u64; 1]
    ensures { result ≡ caller_number caller ∷ [] }
{
    match caller {
        Caller::First => [0],
        Caller::Second => [1],
    }
}

// The choice between two calls of an ordered strand: 0 for the first, 1 for the second. The host takes the middle of the call itself.
#[unsafe(no_mangle)]
pub extern "C" fn fountain_choose_call(
    f: u32,
    l: u8,
    r: u8,
    m: u8,
    lo: u16,
    hi: u16,
    dealt: u8,
    width: u32,
    weights: &[u8],
    first: &[u8],
    second: &[u8],
    answer: &mut [u64; 1],
) -> u32
    ensures { returned result answer.new ≡ choice_returned answer.old
        (choose_call (handed_card f l r m lo hi dealt width) weights.now first.now second.now) }
{
    let card = handed_card(f, l, r, m, lo, hi, dealt, width);
    let chosen = choice::choose_call(card, weights, first, second);
    answered(chosen.map(caller_number), answer)
}

// What became of a read, as a number, and the count of records after it. No `From`: as `stop_number`.
fn store_numbers(reply: StoreAnswer) -> [u64; 2]
    ensures { result ≡ store_numbers reply }
{
    match reply {
        StoreAnswer::Accepted(after) => [0, after as u64],
        StoreAnswer::Repeat(after) => [1, after as u64],
        StoreAnswer::Replaced(after) => [2, after as u64],
    }
}

// Storing: what became of the read, and the count of records after it.
#[unsafe(no_mangle)]
pub extern "C" fn fountain_store(
    f: u32,
    l: u8,
    r: u8,
    m: u8,
    lo: u16,
    hi: u16,
    dealt: u8,
    width: u32,
    weights: &[u8],
    store: &mut [u8],
    count: usize,
    read: &[u8],
    answer: &mut [u64; 2],
) -> u32
    ensures { StoreForm (handed_card f l r m lo hi dealt width) weights.now store.old count read.now
        answer.old result store.new answer.new }
{
    let card = handed_card(f, l, r, m, lo, hi, dealt, width);
    let stored = store::store_read(card, weights, store, count, read);
    answered(stored.map(store_numbers), answer)
}

// The numbers of a restore.
fn sheet_numbers(sheet: Sheet) -> [u64; 3]
    ensures { result ≡ sheet.present ∷ sheet.passes ∷ sheet.contradictions ∷ [] }
{
    [
        u64::from(sheet.present),
        u64::from(sheet.passes),
        sheet.contradictions as u64,
    ]
}

// Restoring: segments present, sweeps and contradictions.
#[unsafe(no_mangle)]
pub extern "C" fn fountain_restore(
    f: u32,
    l: u8,
    r: u8,
    m: u8,
    lo: u16,
    hi: u16,
    dealt: u8,
    width: u32,
    weights: &[u8],
    store: &[u8],
    count: usize,
    file: &mut [u8],
    marks: &mut [u8],
    list: &mut [u32],
    answer: &mut [u64; 3],
) -> u32
    ensures { RestoreForm (handed_card f l r m lo hi dealt width) weights.now store.now count
        file.old marks.old list.old answer.old result
        file.new marks.new list.new answer.new }
{
    let card = handed_card(f, l, r, m, lo, hi, dealt, width);
    let restored = restorer::restore(card, weights, store, count, file, marks, list);
    answered(restored.map(sheet_numbers), answer)
}

// Dealing: the first F bytes of the target.
#[unsafe(no_mangle)]
pub extern "C" fn fountain_deal(
    f: u32,
    l: u8,
    r: u8,
    m: u8,
    lo: u16,
    hi: u16,
    dealt: u8,
    width: u32,
    weights: &[u8],
    source: &[u8],
    target: &mut [u8],
) -> u32
    ensures { ReorderForm false (handed_card f l r m lo hi dealt width) weights.now source.now
        target.old result target.new }
{
    let card = handed_card(f, l, r, m, lo, hi, dealt, width);
    code(file::interleave_file(card, weights, source, target))
}

// Undealing, its inverse.
#[unsafe(no_mangle)]
pub extern "C" fn fountain_undeal(
    f: u32,
    l: u8,
    r: u8,
    m: u8,
    lo: u16,
    hi: u16,
    dealt: u8,
    width: u32,
    weights: &[u8],
    source: &[u8],
    target: &mut [u8],
) -> u32
    ensures { ReorderForm true (handed_card f l r m lo hi dealt width) weights.now source.now
        target.old result target.new }
{
    let card = handed_card(f, l, r, m, lo, hi, dealt, width);
    code(file::deinterleave_file(card, weights, source, target))
}
