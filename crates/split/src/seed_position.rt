ghost use Rattle.std.specs.Prelude.{◌≡◌};
ghost use Rattle.field.specs.Generator.{seed_after, iterate};
ghost use Rattle.split.specs.SeedPosition.{seed_answer, seed_at};

use droplet::refusal::Refusal;
use field::polynomial::product_of;

// The seed after `steps` steps: a jump for each bit of `steps` that is a one, the lowest first. A jump of k steps is the product with the
// seed k steps after 1, and the square of that one jumps twice as far.
fn jump(start: u32, steps: u32) -> u32
    ensures { result ≡ iterate steps seed_after start }
{
    let mut seed = start;
    let mut bits = steps;
    let mut power = 2;
    // No `for`: the highest one of `steps` ends the loop, past which there are only squares that nothing takes.
    while bits > 0 {
        if bits % 2 == 1 {
            seed = product_of(seed, power);
        }
        power = product_of(power, power);
        bits /= 2;
    }
    seed
}

// The seed at a position of the schedule: `steps` steps after `start`.
#[tactic(auto, unfolding(crate::specs::SeedPosition::seed_at))]
pub fn seed_at(start: u32, steps: u32) -> Result<u32, Refusal>
    ensures { seed_answer result ≡ seed_at start steps }
{
    if start == 0 {
        return Err(Refusal::StartSeed);
    }
    Ok(jump(start, steps))
}
