ghost use Rattle.std.specs.Prelude.{◌≡◌, ◌==◌, [], ◌++◌, ◌+◌, ◌-◌, ◌%◌, ◌≤◌, ◌<◌, length, drop};
ghost use Rattle.std.specs.List.{list_any};
ghost use Rattle.field.specs.Bytes.{padded};
ghost use Rattle.field.specs.Generator.{number_drawn};
ghost use Rattle.droplet.specs.PoolCard.{weight_sum};
ghost use Rattle.droplet.specs.Droplet.{degree, member, joining, pick_from, segment, payload};
ghost use Rattle.droplet.specs.Loops.{Drawable, Picked, Marked, with_bit, xor_front};

use super::weights::weight;
use field::generator::Draw;

// The degree that the number `r` gives. The bound of 4,096 bytes stays a clause, here and in `weights`: the weights are lent bytes, and
// docs/CLAIMS.md names this function.
pub fn degree_for(weights: &[u8], r: u32) -> usize
    requires { (length weights.now ≤ 4096) × (r < weight_sum weights.now) }
    ensures { result ≡ degree weights.now r }
{
    // The weights are taken from `r`, and not added up and compared with it: of 1,024 that takes a quarter less.
    let mut left = r;
    for i in 0..weights.len() / 4 {
        let next = weight(weights, i);
        if left < next {
            return i + 1;
        }
        left -= next;
    }
    unreachable!()
}

// Whether `t` is in `list`. Not by the library's `contains`, a call of some length that makes picking a set slower, with a bitmap too:
// 37 ns for 5 segments and 690 for 100, where this takes 29 and 576.
fn contains(list: &[u32], t: u32) -> bool
    ensures { result ≡ list_any (λ s. s == t) list.now }
{
    list.iter().any(|&s| s == t)
}

// Whether `t` has joined: by its bit where the bitmap has one for it, otherwise by a scan of the list.
fn has_joined(words: &[u64], list: &[u32], t: u32) -> bool
    requires { Marked words.now list.now }
    ensures { result ≡ member t list.now }
{
    let w = (t / 64) as usize;
    if w < words.len() {
        let b = t % 64;
        return (words[w] >> b) % 2 == 1;
    }
    contains(list, t)
}

// `s` joins the bitmap where that has a bit for it. Not the `set_mark` of marks: that is of bytes, and asks for a place within them; a
// trait of words for these two and `has_joined` and `mark_at` would be no plainer.
pub fn mark(words: &mut [u64], s: u32)
    ensures { words.new ≡ with_bit words.old s }
{
    let w = (s / 64) as usize;
    if w < words.len() {
        let b = s % 64;
        words[w] |= 1 << b;
    }
}

// The segment that joins those of `list` by the draw that ended in `state`. `words` is a bitmap of the list, of any length.
pub fn joining_segment(state: Draw, j: u32, list: &[u32], words: &[u64]) -> u32
    requires { (j < 131072) × Marked words.now list.now }
    ensures { result ≡ joining list.now j (number_drawn state % (j + 1)) }
{
    let t = state.number() % (j + 1);
    if has_joined(words, list, t) { j } else { t }
}

// The set with the help of a bitmap of any length: a number that has no bit there is looked for in the list. The decoder's
// `draw_front` has this loop too, and looks at each segment as it joins: one function for both, with a closure for the look, would be
// no plainer, since its contract must name the states through which the closure went. Its numbers by `as` and no TryFrom: the clause
// bounds them by K, so that a refusal could not happen.
fn pick_with(mut state: Draw, k: u32, d: usize, list: &mut [u32], words: &mut [u64])
    requires { (k ≤ 131072) × (d ≤ k) × (d ≤ length list.old) × Marked words.old [] }
    ensures { list.new ≡ pick_from d state (k - d) [] ++ drop d list.old }
{
    let first = k - d as u32;
    for i in 0..d {
        state = state.next();
        let s = joining_segment(state, first + i as u32, &list[..i], words);
        mark(words, s);
        list[i] = s;
    }
}

// The first `d` places of `list` become the set of `d` segments out of `k` that the draws after `state` pick. For few segments a
// scan is faster than a bitmap, which has to be cleared first (docs/DECISIONS.md, 8 and 15). The decoder's `draw_set` stands beside it for
// the reason that `pick_with` has. State, K, d and list are handed on one by one: this one is public, so that what it asks may not change,
// and a struct for the three private ones, in two crates, would be no plainer.
pub fn pick(state: Draw, k: u32, d: usize, list: &mut [u32])
    requires { (k ≤ 131072) × (d ≤ k) × (d ≤ length list.old) }
    ensures { list.new ≡ pick_from d state (k - d) [] ++ drop d list.old }
{
    if d <= 16 {
        pick_with(state, k, d, list, &mut []);
    } else {
        pick_with(state, k, d, list, &mut [0; 2048]);
    }
}

// The set of segments that a seed picks out of `k`, in the first places of `list`; its degree. `sum` is that of all weights,
// which the caller takes once for many seeds. The degree stands beside the list, which is the host's memory: no heap for one of its length.
pub fn segments_of(seed: u32, k: u32, weights: &[u8], sum: u32, list: &mut [u32]) -> usize
    requires { Drawable weights.now k sum list.old }
    ensures { Picked weights.now k seed result list.old list.new }
{
    let first = Draw::of_seed(seed).next();
    let d = degree_for(weights, first.number() % sum);
    pick(first, k, d, list);
    d
}

// `q` is XORed into the front of `p`.
pub fn xor_into(p: &mut [u8], q: &[u8])
    requires { length q.now ≤ length p.old }
    ensures { p.new ≡ xor_front p.old q.now }
{
    for (i, &b) in q.iter().enumerate() {
        p[i] ^= b;
    }
}

// Segment `s` of `file` is XORed into the first `l` bytes of `p`. The bytes past the file's end are 0, so they are left out.
pub fn xor_segment(p: &mut [u8], file: &[u8], l: usize, s: u32)
    requires { (l ≤ 64) × (l ≤ length p.old) }
    ensures { p.new ≡ xor_front p.old (segment l file.now s) }
{
    let a = (s as usize) * l;
    let e = (a + l).min(file.len());
    if a < e {
        xor_into(p, &file[a..e]);
    }
}

// The payload of the segments of `list`, as 64 bytes, those past `l` being 0: fixed memory, no heap. `l` stays a number bounded by a clause:
// docs/CLAIMS.md names this function, so what it asks may not change. The decoder's `xor_marked` leaves segments out; with a filter lent
// to one function for both, its clause would have to say which ones that lets through: no plainer.
pub fn payload_of(file: &[u8], l: usize, list: &[u32]) -> [u8; 64]
    requires { l ≤ 64 }
    ensures { result ≡ padded 64 (payload l file.now list.now) }
{
    let mut p = [0; 64];
    for &s in list {
        xor_segment(&mut p, file, l, s);
    }
    p
}
