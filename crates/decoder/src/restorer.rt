ghost use Rattle.std.specs.Prelude.{◌≡◌, [], suc, ◌+◌, ◌-◌, ◌*◌, ◌≤◌, ◌<◌, length, take, drop};
ghost use Rattle.std.specs.Int.{from_bool};
ghost use Rattle.field.specs.Bytes.{xor_lists, padded};
ghost use Rattle.droplet.specs.PoolCard.{weight_count};
ghost use Rattle.droplet.specs.Refusals.{asked};
ghost use Rattle.droplet.specs.Droplet.{pick_from, payload};
ghost use Rattle.droplet.specs.Loops.{Marked};
ghost use Rattle.decoder.specs.Store.{record_bytes, record_seed, record_from, records};
ghost use Rattle.decoder.specs.Restorer.{known, filled, has_seed, room_refusal, later_refusal, RestorePromise};
ghost use Rattle.decoder.specs.Loops.{records_in, looked_at, AllBelow, Looked, Pickable};

use crate::records::{payload_in, record_bytes};
use crate::store::count_fits;
use droplet::card::{Card, Plan, check_plan};
use droplet::droplet::{degree_for, joining_segment, mark, payload_of, xor_into, xor_segment};
use droplet::refusal::Refusal;
use field::generator::Draw;
use std::fmt;
use strand::droplet_bytes::seed_of;

// What a restore found: segments present, passes over the records, and records that contradict the segments.
#[derive(Clone, Copy, Debug, PartialEq, Eq)]
pub struct Sheet {
    pub present: u32,
    pub passes: u32,
    pub contradictions: usize,
}

impl fmt::Display for Sheet {
    fn fmt<W: fmt::Write>(&self, f: &mut fmt::Formatter<W>) -> fmt::Result {
        write!(
            f,
            "present {} sweeps {} contradictions {}",
            self.present, self.passes, self.contradictions
        )
    }
}

// Which segments of a set are unmarked, as far as a step asks: none, one or more, where an Option in an Option would be no plainer.
#[derive(Clone, Copy, Debug, PartialEq, Eq)]
pub enum Unmarked {
    None,
    One(u32),
    Several,
}

// What drawing a record's set finds: its degree, and which of its segments are unmarked. The degree stands beside the list, which is
// the host's memory: no heap.
#[derive(Clone, Copy, Debug, PartialEq, Eq)]
pub struct Drawn {
    pub degree: usize,
    pub unmarked: Unmarked,
}

// What the passes came to: marks set, and passes.
#[derive(Clone, Copy, Debug, PartialEq, Eq)]
pub struct Peeling {
    pub present: u32,
    pub passes: u32,
}

// What the records of a pool are read with: the weights that pick their sets, K with the sum of the weights, and the bytes of a segment.
#[derive(Clone, Copy)]
struct Pool<'a> {
    weights: &'a [u8],
    plan: Plan,
    l: usize,
    ghost pickable: { Pickable weights.now plan.segments plan.sum l },
}

// Here and in the questions below L is handed in beside the store: a question is asked of numbers, and there is a Pool only when none
// refuses (docs/DECISIONS.md, 33).

// The bytes of the first `count` records of a store.
fn first_records(store: &[u8], l: usize, count: usize) -> &[u8]
    requires { (l ≤ 64) × (count * record_bytes l ≤ length store.now) }
    ensures { result.now ≡ take (count * record_bytes l) store.now }
{
    &store[..count * record_bytes(l)]
}

// Question 17: whether one of the records has seed 0.
fn has_seed_zero(records: &[u8], l: usize) -> bool
    requires { l ≤ 64 }
    ensures { result ≡ has_seed 0 (records_in l records.now) }
{
    for bytes in records.chunks_exact(record_bytes(l)) {
        if seed_of(bytes) == 0 {
            return true;
        }
    }
    false
}

// What is found once segment `s` with this mark is looked at too. Marks are bytes 0 and 1, as the C host reads them.
#[tactic(auto, unfolding(crate::specs::Loops::looked_at))]
fn look_at(found: Unmarked, s: u32, mark: u8) -> Unmarked
    ensures { result ≡ looked_at found s mark }
{
    if mark == 1 {
        return found;
    }
    match found {
        Unmarked::None => Unmarked::One(s),
        Unmarked::One(_) | Unmarked::Several => Unmarked::Several,
    }
}

// Draws the first `n` of the `d` segments of a set, and looks at the mark of each as it joins. At the second unmarked one it
// stops: the record is of no use in this pass. `words` is an empty bitmap of any length. No TryFrom for `d` and `i`: the clauses bound
// them, and a refusal could not happen.
fn draw_front(
    mut state: Draw,
    k: u32,
    d: usize,
    n: usize,
    marks: &[u8],
    list: &mut [u32],
    words: &mut [u64],
) -> Unmarked
    requires { (k ≤ 131072) × (d ≤ k) × (n ≤ d) × (d ≤ length list.old) × (k ≤ length marks.now) × Marked words.old [] }
    ensures { Looked (take n (pick_from d state (k - d) [])) marks.now d list.old list.new result }
{
    let first = k - d as u32;
    let mut found = Unmarked::None;
    for i in 0..n {
        state = state.next();
        let s = joining_segment(state, first + i as u32, &list[..i], words);
        mark(words, s);
        list[i] = s;
        found = look_at(found, s, marks[s as usize]);
        if found == Unmarked::Several {
            return found;
        }
    }
    found
}

// The set of `d` segments out of `k` that the draws after `state` pick, and which of them are unmarked. Most records that are of
// no use show it in their first segments, for which a scan is faster than a bitmap (docs/DECISIONS.md, 8 and 15); the others are drawn
// again with one. Beside `pick` and as it: droplet's `pick_with` says why there is not one function for both.
fn draw_set(state: Draw, k: u32, d: usize, marks: &[u8], list: &mut [u32]) -> Unmarked
    requires { (k ≤ 131072) × (d ≤ k) × (d ≤ length list.old) × (k ≤ length marks.now) }
    ensures { Looked (pick_from d state (k - d) []) marks.now d list.old list.new result }
{
    if d <= 16 {
        return draw_front(state, k, d, d, marks, list, &mut []);
    }
    if draw_front(state, k, d, 16, marks, list, &mut []) == Unmarked::Several {
        return Unmarked::Several;
    }
    draw_front(state, k, d, d, marks, list, &mut [0; 2048])
}

// The stored payload XOR the marked segments of `list`, as 64 bytes, those past the payload's being 0: fixed memory, no heap. Beside
// `payload_of`, which takes all: a filter as a parameter would be no plainer, since its clause must say which segments it lets through.
fn xor_marked(stored: &[u8], list: &[u32], file: &[u8], marks: &[u8]) -> [u8; 64]
    requires { (length stored.now ≤ 64) × AllBelow (length marks.now) list.now }
    ensures { result ≡ padded 64 (xor_lists stored.now (payload (length stored.now) file.now (known marks.now list.now))) }
{
    let mut p = [0; 64];
    xor_into(&mut p, stored);
    for &s in list {
        if marks[s as usize] == 1 {
            xor_segment(&mut p, file, stored.len(), s);
        }
    }
    p
}

// Segment `s`, the one that is unmarked among those of `list`, becomes the stored payload XOR the marked ones, and is marked.
fn fill(s: u32, stored: &[u8], list: &[u32], file: &mut [u8], marks: &mut [u8])
    requires { (length stored.now ≤ 64) × AllBelow (length marks.old) list.now × (s * length stored.now + length stored.now ≤ length file.old) × (s < length marks.old) }
    ensures { record { file = file.new; marks = marks.new } ≡ filled (length stored.now) (record { segments = list.now; payload = stored.now }) (record { file = file.old; marks = marks.old }) s }
{
    let l = stored.len();
    let p = xor_marked(stored, list, file, marks);
    let m = s as usize;
    let a = m * l;
    file[a..a + l].copy_from_slice(&p[..l]);
    marks[m] = 1;
}

// File, marks and number list stay three references, as the C interface lends them: a struct of them would be no plainer, since their types
// say that each keeps its length, and that a count of contradictions writes neither file nor marks, for which a struct needs clauses.
impl Pool<'_> {
    ghost use Rattle.decoder.specs.Restorer.{step, pass, present, peel, peel_all, contradicts, contradictions};
    ghost use Rattle.decoder.specs.Pools.{droplet_of, droplets_in, Seen, Room, Filled, Ended, MadeSheet};

    // The set of a record, and which of its segments are unmarked.
    fn draw_record(&self, bytes: &[u8], marks: &[u8], list: &mut [u32]) -> Drawn
        requires { (4 ≤ length bytes.now) × (self.now.plan.segments ≤ length marks.now) × (weight_count self.now.weights.now ≤ length list.old) }
        ensures { Seen self.now (record_seed bytes.now) marks.now list.old list.new result }
    {
        let first = Draw::of_seed(seed_of(bytes)).next();
        let degree = degree_for(self.weights, first.number() % self.plan.sum);
        let unmarked = draw_set(first, self.plan.segments, degree, marks, list);
        Drawn { degree, unmarked }
    }

    // A record's turn in a pass. Whether it fills a segment: it does if just one of its own is unmarked.
    fn step_record(&self, bytes: &[u8], file: &mut [u8], marks: &mut [u8], list: &mut [u32]) -> bool
        requires { (length bytes.now ≡ record_bytes self.now.l) × Room self.now file.old marks.old list.old }
        ensures { Filled self.now (step self.now.l (droplet_of self.now (record_from self.now.l bytes.now)) (record { file = file.old; marks = marks.old }))
            marks.old list.old file.new marks.new list.new (from_bool result) }
    {
        let drawn = self.draw_record(bytes, marks, list);
        let Unmarked::One(s) = drawn.unmarked else {
            return false;
        };
        fill(
            s,
            payload_in(bytes, self.l),
            &list[..drawn.degree],
            file,
            marks,
        );
        true
    }

    // One pass over the records, in store order. How many segments it fills.
    fn pass(&self, records: &[u8], file: &mut [u8], marks: &mut [u8], list: &mut [u32]) -> u32
        requires { Room self.now file.old marks.old list.old }
        ensures { Filled self.now (pass self.now.l (droplets_in self.now records.now) (record { file = file.old; marks = marks.old }))
            marks.old list.old file.new marks.new list.new result }
    {
        let mut filled = 0;
        for bytes in records.chunks_exact(record_bytes(self.l)) {
            filled += u32::from(self.step_record(bytes, file, marks, list));
        }
        filled
    }

    // Passes until one fills nothing; that last one is counted too. No `for`: what a pass fills ends the loop, no count of passes.
    fn peel(&self, records: &[u8], file: &mut [u8], marks: &mut [u8], list: &mut [u32]) -> Peeling
        requires { Room self.now file.old marks.old list.old × (present self.now.plan.segments marks.old ≡ 0) }
        ensures { Ended self.now
            (peel (suc self.now.plan.segments) self.now.plan.segments self.now.l (droplets_in self.now records.now) 0 (record { file = file.old; marks = marks.old }))
            list.old file.new marks.new list.new result }
    {
        let mut present = 0;
        let mut passes = 0;
        loop {
            let filled = self.pass(records, file, marks, list);
            passes += 1;
            if filled == 0 {
                return Peeling { present, passes };
            }
            present += filled;
        }
    }

    // Whether a record contradicts the segments: all of its own are marked, and their XOR is not its payload.
    fn contradicts(&self, bytes: &[u8], file: &[u8], marks: &[u8], list: &mut [u32]) -> bool
        requires { (length bytes.now ≡ record_bytes self.now.l) × Room self.now file.now marks.now list.old }
        ensures { (result ≡ contradicts self.now.l (record { file = file.now; marks = marks.now }) (droplet_of self.now (record_from self.now.l bytes.now)))
            × (drop (weight_count self.now.weights.now) list.new ≡ drop (weight_count self.now.weights.now) list.old) }
    {
        let drawn = self.draw_record(bytes, marks, list);
        if drawn.unmarked != Unmarked::None {
            return false;
        }
        let p = payload_of(file, self.l, &list[..drawn.degree]);
        !p.starts_with(payload_in(bytes, self.l))
    }

    // How many records contradict the segments. Beside `pass`: one function for both, with a closure for a record's turn, would be no
    // plainer, since its contract must name what the closure did to file and marks, and this one is not lent them to write.
    fn count_contradictions(
        &self,
        records: &[u8],
        file: &[u8],
        marks: &[u8],
        list: &mut [u32],
    ) -> usize
        requires { Room self.now file.now marks.now list.old }
        ensures { (result ≡ contradictions self.now.l (droplets_in self.now records.now) (record { file = file.now; marks = marks.now }))
            × (drop (weight_count self.now.weights.now) list.new ≡ drop (weight_count self.now.weights.now) list.old) }
    {
        let mut n = 0;
        for bytes in records.chunks_exact(record_bytes(self.l)) {
            n += usize::from(self.contradicts(bytes, file, marks, list));
        }
        n
    }

    // A restore that no question refuses.
    fn make_sheet(
        &self,
        records: &[u8],
        file: &mut [u8],
        marks: &mut [u8],
        list: &mut [u32],
    ) -> Sheet
        requires { Room self.now file.old marks.old list.old }
        ensures { MadeSheet self.now (droplets_in self.now records.now)
            (peel_all self.now.plan.segments self.now.l (droplets_in self.now records.now) file.old marks.old)
            list.old file.new marks.new list.new result }
    {
        let k = self.plan.segments as usize;
        let n = k * self.l;
        file[..n].fill(0);
        marks[..k].fill(0);
        let end = self.peel(records, file, marks, list);
        let contradictions = self.count_contradictions(records, file, marks, list);
        Sheet {
            present: end.present,
            passes: end.passes,
            contradictions,
        }
    }
}

// The questions 18 and 8, of the lengths of file, marks and number list. The writer asks question 8 too: it is one comparison, and a
// function for both would be no plainer.
#[tactic(auto, unfolding(crate::specs::Restorer::room_refusal))]
fn ask_room(
    plan: Plan,
    l: usize,
    file_len: usize,
    marks_len: usize,
    list_len: usize,
) -> Result<(), Refusal>
    requires { (l ≤ 64) × (plan.segments ≤ 131072) }
    ensures { asked result ≡ room_refusal plan.segments l plan.degrees file_len marks_len list_len }
{
    let k = plan.segments as usize;
    if file_len < k * l || marks_len < k {
        return Err(Refusal::FileOrMarks);
    }
    if list_len < plan.degrees as usize {
        return Err(Refusal::NumberList);
    }
    Ok(())
}

// The questions 14, 17, 18 and 8.
#[tactic(auto, unfolding(crate::specs::Restorer::later_refusal))]
fn ask_later(
    plan: Plan,
    l: usize,
    store: &[u8],
    count: usize,
    file_len: usize,
    marks_len: usize,
    list_len: usize,
) -> Result<(), Refusal>
    requires { (l ≤ 64) × (plan.segments ≤ 131072) }
    ensures { asked result ≡ later_refusal plan.segments l plan.degrees store.now count file_len marks_len list_len }
{
    if !count_fits(store, l, count) {
        return Err(Refusal::Count);
    }
    if has_seed_zero(first_records(store, l, count), l) {
        return Err(Refusal::StoredSeedZero);
    }
    ask_room(plan, l, file_len, marks_len, list_len)
}

// Fills what the records of a store give of a file. The number list is scratch memory.
pub fn restore(
    card: Card,
    weights: &[u8],
    store: &[u8],
    count: usize,
    file: &mut [u8],
    marks: &mut [u8],
    list: &mut [u32],
) -> Result<Sheet, Refusal>
    ensures { RestorePromise card weights.now store.now count file.old marks.old list.old result file.new marks.new list.new }
{
    let plan = check_plan(card, weights)?;
    let l = usize::from(card.l);
    ask_later(plan, l, store, count, file.len(), marks.len(), list.len())?;
    let pool = Pool { weights, plan, l };
    Ok(pool.make_sheet(first_records(store, l, count), file, marks, list))
}
