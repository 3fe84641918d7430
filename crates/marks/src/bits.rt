ghost use Rattle.std.specs.Prelude.{◌≡◌, [], ◌*◌, ◌≤◌, ◌<◌, length};
ghost use Rattle.marks.specs.Marks.{mark_bytes, mark_at, with_mark, packed_into};

// The bytes that the marks of `k` segments take.
pub fn mark_bytes(k: u32) -> usize
    ensures { result ≡ mark_bytes k }
{
    (k as usize).div_ceil(8)
}

// The mark of segment `s`: 1 if it is present, 0 if it is missing. A number and no bool: its clause says the number (`mark_at` of
// specs/Marks).
pub fn mark_at(marks: &[u8], s: u32) -> u8
    requires { s < length marks.now * 8 }
    ensures { result ≡ mark_at marks.now s }
{
    let b = (s / 8) as usize;
    (marks[b] >> (s % 8)) % 2
}

// Marks segment `s` as present. It and `mark_at` are of bytes and ask for a place within them; droplet's two are of words and answer for
// any place: a trait of words for two bits would be no plainer.
pub fn set_mark(marks: &mut [u8], s: u32)
    requires { s < length marks.old * 8 }
    ensures { marks.new ≡ with_mark marks.old s }
{
    let b = (s / 8) as usize;
    let c = s % 8;
    marks[b] |= 1 << c;
}

// Marks each of `k` segments as missing.
pub fn clear_marks(marks: &mut [u8], k: u32)
    requires { mark_bytes k ≤ length marks.old }
    ensures { marks.new ≡ packed_into marks.old k [] }
{
    let n = mark_bytes(k);
    marks[..n].fill(0);
}
