ghost use Rattle.std.specs.Prelude.{◌≡◌, ◌≤◌, length};
ghost use Rattle.listing.specs.Loops.{after_newline, after_byte, after_bytes, Counted, Goes, Closes};

use decoder::store;
use decoder::store::StoreAnswer;
use droplet::card::Card;
use droplet::refusal::Refusal;
use std::fmt;

// What the reads are taken by: the pool's card and its weights. The decoder's `Pool` is its own and another: it has the plan.
#[derive(Clone, Copy)]
pub struct Pool<'a> {
    pub card: Card,
    pub weights: &'a [u8],
}

// What the lines so far came to, the count of records that the next call is handed, and how many bytes of the line in hand are in
// the line's buffer.
#[derive(Clone, Copy, Debug, Default, PartialEq, Eq)]
pub struct Tally {
    pub reads: u64,
    pub accepted: u64,
    pub repeated: u64,
    pub refused: u64,
    pub count: usize,
    pub held: usize,
}

impl fmt::Display for Tally {
    fn fmt<W: fmt::Write>(&self, f: &mut fmt::Formatter<W>) -> fmt::Result {
        write!(
            f,
            "reads {} accepted {} repeated {} refused {}",
            self.reads, self.accepted, self.repeated, self.refused
        )
    }
}

// Line, store and tally are handed on one by one, here as in input.rt: a struct of them would hold two `&mut`, and each method would have
// to promise beside its own clause that they are the same references. The line is lent with `held` beside: fixed memory, no heap.

// What an answer adds. A refusal keeps the count of records.
fn add_answer(t: Tally, answer: Result<StoreAnswer, Refusal>) -> Tally
    ensures { Counted answer t result }
{
    let t = Tally {
        reads: t.reads.wrapping_add(1),
        held: 0,
        ..t
    };
    let Ok(reply) = answer else {
        return Tally {
            refused: t.refused.wrapping_add(1),
            ..t
        };
    };
    match reply {
        StoreAnswer::Accepted(count) => Tally {
            accepted: t.accepted.wrapping_add(1),
            count,
            ..t
        },
        StoreAnswer::Repeat(count) | StoreAnswer::Replaced(count) => Tally {
            repeated: t.repeated.wrapping_add(1),
            count,
            ..t
        },
    }
}

impl Pool<'_> {
    // The line in hand is whole: it is offered to the store, and the next one starts.
    fn end_line(self, line: &[u8], store: &mut [u8], t: Tally) -> Tally
        requires { t.held ≤ length line.now }
        ensures { Goes (after_newline self.entry.card self.entry.weights.now) t line.now store.old result line.now store.new }
    {
        let answer = store::store_read(self.card, self.weights, store, t.count, &line[..t.held]);
        add_answer(t, answer)
    }

    // The next byte of the input. Of a line that is longer than the buffer the buffer keeps the front: no strand is as long.
    fn add_byte(self, line: &mut [u8], store: &mut [u8], t: Tally, b: u8) -> Tally
        requires { t.held ≤ length line.old }
        ensures { Goes (λ p. after_byte self.entry.card self.entry.weights.now p b) t line.old store.old result line.new store.new }
    {
        if b == 10 {
            return self.end_line(line, store, t);
        }
        let n = t.held;
        if n < line.len() {
            line[n] = b;
            return Tally { held: n + 1, ..t };
        }
        t
    }

    // The next bytes of the input, however many.
    pub fn add_bytes(self, bytes: &[u8], line: &mut [u8], store: &mut [u8], mut t: Tally) -> Tally
        requires { t.held ≤ length line.old }
        ensures { Goes (λ p. after_bytes self.entry.card self.entry.weights.now p bytes.now) t line.old store.old result line.new store.new }
    {
        for &b in bytes {
            t = self.add_byte(line, store, t, b);
        }
        t
    }

    // The end of the input: a line in hand is the last one. After a newline there is none.
    pub fn end_input(self, line: &[u8], store: &mut [u8], t: Tally) -> Tally
        requires { t.held ≤ length line.now }
        ensures { Closes self.entry.card self.entry.weights.now t line.now store.old result store.new }
    {
        if t.held == 0 {
            return t;
        }
        self.end_line(line, store, t)
    }
}
