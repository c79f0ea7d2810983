// Step 4 on blocks, document 02's CR 10: the status that the coarse run starts from.
#![tactic(auto)]

ghost use Rattle.std.specs.Prelude.{◌≡◌, length};
ghost use Rattle.rules.specs.Grid.{distance_at};
ghost use Rattle.rules.specs.Marks.{unmarked};
ghost use Rattle.loops.specs.InPlace.{Each};
ghost use Rattle.coarse.specs.Coarse.{first_status};
ghost use Rattle.block_start.specs.Start.{label_of, Startable};

use rules::Sides;

// The labels of all blocks: 0 for a negative distance, 1 for any other.
fn label(status: &mut [u8], blocks: &[i32])
    requires { length status.old ≡ length blocks.now }
    ensures { Each 0 (λ j d. label_of (distance_at blocks.now j)) 0 (length blocks.now) status.old status.new }
{
    // two slices by one index
    for (j, label) in status.iter_mut().enumerate() {
        *label = u8::from(blocks[j] >= 0);
    }
}

// The status that the coarse run starts from where no block is pinned.
pub fn start(status: &mut [u8], blocks: &[i32], h: Sides)
    requires { Startable h blocks.now (length status.old) }
    ensures { status.new ≡ first_status h unmarked blocks.now }
{
    label(status, blocks);
    let b = bounding_box::enclose(status, h);
    bounding_box::settle(status, b, h);
}
