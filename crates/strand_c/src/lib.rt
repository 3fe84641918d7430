// The C form of the read check, as an archive of its own: the C interface. What it does stands in the strand crate, with the same clauses.
#![tactic(auto)]

ghost use Rattle.std.specs.Prelude.{◌≡◌};
ghost use Rattle.strand.specs.ReadCheck.{read_check};
ghost use Rattle.strand.specs.CForm.{handed_card, handed_over};
ghost use Rattle.strand.specs.CForm.CAnswer.{handed};

use strand::c_form;

// The read check for a host written in C: 0 and the droplet in the buffer's first 4 + L bytes, or the refusal number.
#[unsafe(no_mangle)]
pub extern "C" fn fountain_check_read(
    f: u32,
    l: u8,
    r: u8,
    m: u8,
    lo: u16,
    hi: u16,
    dealt: u8,
    width: u32,
    weights: &[u8],
    read: &[u8],
    out: &mut [u8],
) -> u32
    ensures { handed result out.new ≡ handed_over l out.old
        (read_check (handed_card f l r m lo hi dealt width) weights.now read.now) }
{
    c_form::fountain_check_read(f, l, r, m, lo, hi, dealt, width, weights, read, out)
}
