// Sets of small numbers as the bits of one number, and the lowest set bit.
#![tactic(auto)]

ghost use Rattle.std.specs.Prelude.{◌<◌};
ghost use Rattle.bits.specs.Lowest.{Lowest};

pub fn lowest(m: u64) -> usize
    requires { 0 < m }
    ensures { Lowest m result }
{
    m.trailing_zeros() as usize
}
