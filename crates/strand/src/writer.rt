ghost use Rattle.std.specs.Prelude.{◌≡◌, ◌+◌, ◌*◌, ◌^◌, ◌<◌, ◌≤◌, length, take};
ghost use Rattle.field.specs.CheckBytes.{CheckCount};
ghost use Rattle.droplet.specs.PoolCard.{segment_count, weight_count, weight_sum, strand_bytes, strand_bases};
ghost use Rattle.droplet.specs.Questions.{card_refusal};
ghost use Rattle.droplet.specs.Refusals.{asked};
ghost use Rattle.strand.specs.ReadCheck.{strand_word};
ghost use Rattle.strand.specs.Writer.{strand_line, own_refusal, WriterPromise};
ghost use Rattle.strand.specs.Loops.{with_front, begun, counted, Counts, Made, Printed, Tried, Ran};

use crate::droplet_bytes;
use droplet::card::{Bytes, Card, Plan};
use droplet::refusal::Refusal;
use droplet::{card, droplet as droplets};
use field::{bytes, check_bytes, generator};
use screen::limits::Verdict;
use screen::screen::measure_of;
use screen::{letters, limits};

// Why the writer stopped: it made what was wanted, or it spent its budget of seeds.
#[derive(Clone, Copy, Debug, PartialEq, Eq)]
pub enum Stop {
    Done,
    Spent,
}

// How a writer run ended. `next` is the seed after the last one tried, and of the strands that were not made some were dropped for a
// run, the others for GC alone.
#[derive(Clone, Copy, Debug, PartialEq, Eq)]
pub struct Run {
    pub stop: Stop,
    pub made: u32,
    pub tried: u32,
    pub next: u32,
    pub dropped_run: u32,
    pub dropped_gc: u32,
}

impl Run {
    // A run that has tried no seed yet.
    fn from_seed(start: u32) -> Run
        ensures { result ≡ begun start }
    {
        Run {
            stop: Stop::Spent,
            made: 0,
            tried: 0,
            next: start,
            dropped_run: 0,
            dropped_gc: 0,
        }
    }

    // Counts the next seed, by the verdict on its strand.
    fn count(&mut self, verdict: Verdict)
        requires { Counts self.old × (self.old.tried + 1 < 2 ^ 32) }
        ensures { self.new ≡ counted verdict self.old }
    {
        match verdict {
            Verdict::Passes => self.made += 1,
            Verdict::LongRun => self.dropped_run += 1,
            Verdict::GcAlone => self.dropped_gc += 1,
        }
        self.tried += 1;
        self.next = generator::step_seed(self.next);
    }
}

// The word of a strand in the first bytes of `word`: seed, payload and parity. All four bytes of the parity are copied, and
// those past R are none of the word's. CheckCount is asked as in field's `parity_of`.
fn fill_word(card: Card, seed: u32, payload: &[u8], word: &mut [u8])
    requires { CheckCount card.r × (length payload.now ≡ card.l) × (4 + card.l + 4 ≤ length word.old) }
    ensures { take (strand_bytes card) word.new ≡ strand_word card seed payload.now }
{
    let message = 4 + payload.len();
    droplet_bytes::put_droplet(seed, payload, word);
    let parity = check_bytes::parity_of(card.r, &word[..message]);
    bytes::copy(&parity, &mut word[message..]);
}

// A strand's letters and a newline at the front of `out`. The word is a part of an array of 72 bytes, so its length stays a clause: fixed
// memory.
fn write_line(word: &[u8], out: &mut [u8])
    requires { (length word.now ≤ 72) × (length word.now * 4 + 1 ≤ length out.old) }
    ensures { out.new ≡ with_front (strand_line word.now) out.old }
{
    let n = card::to_bases(Bytes(word.len())).0;
    letters::write_letters(word, &mut out[..n]);
    out[n] = b'\n';
}

// Writes a strand's line if the strand passes the screen, and answers the verdict on it.
fn write_passing(card: Card, word: &[u8], out: &mut [u8]) -> Verdict
    requires { (length word.now ≤ 72) × (length word.now * 4 + 1 ≤ length out.old) }
    ensures { Printed card word.now result out.old out.new }
{
    let n = card::to_bases(Bytes(word.len()));
    let verdict = limits::compare(card, measure_of(word), n);
    if verdict == Verdict::Passes {
        write_line(word, out);
    }
    verdict
}

// What the strands of a run are made from: a file, and the card and its weights that no question refused, with their plan. The buffer and
// the number list are no fields, as in interleave's moves: with `&mut` fields each contract would have to say too what they still refer to.
#[derive(Drop)]
struct Source<'a> {
    card: Card,
    plan: Plan,
    weights: &'a [u8],
    file: &'a [u8],
    ghost legal: { card_refusal card weights.now ≡ 0 },
    ghost segments: { plan.segments ≡ segment_count card },
    ghost degrees: { plan.degrees ≡ weight_count weights.now },
    ghost sum: { plan.sum ≡ weight_sum weights.now },
}

impl Source<'_> {
    // The bytes of a strand's line: n letters and a newline.
    fn line_bytes(&self) -> usize
        ensures { result ≡ strand_bases self.now.card + 1 }
    {
        card::strand_bases(self.card).0 + 1
    }

    // The questions 5 to 8, of a start seed, a number of strands, and the lengths of a buffer and of a number list.
    fn ask(&self, start: u32, wanted: u32, out_len: usize, list_len: usize) -> Result<(), Refusal>
        ensures { asked result ≡ own_refusal self.now.card (weight_count self.now.weights.now) (length self.now.file.now) start wanted out_len list_len }
    {
        if self.file.len() != self.card.f as usize {
            return Err(Refusal::FileLength);
        }
        if start == 0 {
            return Err(Refusal::StartSeed);
        }
        if 1000000 < wanted {
            return Err(Refusal::Output);
        }
        if out_len < (wanted as usize) * self.line_bytes() {
            return Err(Refusal::Output);
        }
        // One comparison: a function for it and the restorer's would be no plainer.
        if list_len < self.plan.degrees as usize {
            return Err(Refusal::NumberList);
        }
        Ok(())
    }

    // The word of the strand that a seed gives for the file, in the first bytes of 72: fixed memory, no heap.
    fn word_of(&self, seed: u32, list: &mut [u32]) -> [u8; 72]
        requires { weight_count self.now.weights.now ≤ length list.old }
        ensures { Made self.now.card self.now.weights.now self.now.file.now seed list.old list.new result }
    {
        let d = droplets::segments_of(seed, self.plan.segments, self.weights, self.plan.sum, list);
        let l = usize::from(self.card.l);
        let payload = droplets::payload_of(self.file, l, &list[..d]);
        let mut word = [0u8; 72];
        fill_word(self.card, seed, &payload[..l], &mut word);
        word
    }

    // Tries a seed: the verdict on its strand, whose line is written at the front of `out` if it passes.
    fn try_seed(&self, seed: u32, out: &mut [u8], list: &mut [u32]) -> Verdict
        requires { (weight_count self.now.weights.now ≤ length list.old) × (strand_bases self.now.card + 1 ≤ length out.old) }
        ensures { Tried self.now.card self.now.weights.now self.now.file.now seed result out.old list.old out.new list.new }
    {
        let word = self.word_of(seed, list);
        let n = card::strand_bytes(self.card).0;
        write_passing(self.card, &word[..n], out)
    }

    // The run from the start seed on, until it is done or its budget is spent. Each line goes behind those of the strands made before.
    fn run(&self, start: u32, wanted: u32, budget: u32, out: &mut [u8], list: &mut [u32]) -> Run
        requires { (weight_count self.now.weights.now ≤ length list.old) × (wanted * (strand_bases self.now.card + 1) ≤ length out.old) }
        ensures { Ran self.now.card self.now.weights.now self.now.file.now start wanted budget result out.old list.old out.new list.new }
    {
        let line = self.line_bytes();
        let mut run = Run::from_seed(start);
        for _ in 0..budget {
            if run.made == wanted {
                break;
            }
            let at = run.made as usize * line;
            let verdict = self.try_seed(run.next, &mut out[at..], list);
            run.count(verdict);
        }
        run.stop = if run.made == wanted {
            Stop::Done
        } else {
            Stop::Spent
        };
        run
    }
}

// The writer.
pub fn write_strands(
    card: Card,
    weights: &[u8],
    file: &[u8],
    start: u32,
    wanted: u32,
    budget: u32,
    out: &mut [u8],
    list: &mut [u32],
) -> Result<Run, Refusal>
    ensures { WriterPromise card weights.now file.now start wanted budget out.old list.old result out.new list.new }
{
    let plan = card::check_plan(card, weights)?;
    let source = Source {
        card,
        plan,
        weights,
        file,
    };
    source.ask(start, wanted, out.len(), list.len())?;
    Ok(source.run(start, wanted, budget, out, list))
}
