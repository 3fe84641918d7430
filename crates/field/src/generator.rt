ghost use Rattle.std.specs.Prelude.{◌≡◌};
ghost use Rattle.field.specs.Generator.{of_seed, after_draw, number_drawn, seed_after};

// A draw state: the xorshift word and the Weyl word.
#[derive(Clone, Copy)]
pub struct Draw {
    pub x: u32,
    pub w: u32,
}

impl Draw {
    pub fn of_seed(seed: u32) -> Draw
        ensures { result ≡ of_seed seed }
    {
        Draw { x: seed, w: 0 }
    }

    // The state after one draw.
    pub fn next(self) -> Draw
        ensures { result ≡ after_draw self }
    {
        let x = self.x;
        let a = x ^ (x << 13);
        let b = a ^ (a >> 17);
        let c = b ^ (b << 5);
        Draw {
            x: c,
            w: self.w.wrapping_add(362437),
        }
    }

    // The number that the draw ending in this state gave.
    pub fn number(self) -> u32
        ensures { result ≡ number_drawn self }
    {
        self.x.wrapping_add(self.w)
    }
}

// The seed that follows `seed` in the schedule. One generic function for it and `times_root` is no plainer: it needs the shift, the top
// bit and the polynomial as further members of a trait.
pub fn step_seed(seed: u32) -> u32
    ensures { result ≡ seed_after seed }
{
    let top = seed & 0x8000_0000;
    let up = seed << 1;
    if top != 0 { up ^ 0xC5 } else { up }
}
