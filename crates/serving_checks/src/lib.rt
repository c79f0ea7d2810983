// The checks of serve, document 02's CR 14: 34, then carve's checks, each made on all grids before the next, with the order record's 7.
#![tactic(auto)]

ghost use Rattle.std.specs.Prelude.{◌≡◌, not, ◌&&◌, ◌≤◌, ◌<◌, get_or, take};
ghost use Rattle.cells.specs.Groups.{any};
ghost use Rattle.rules.specs.declared.Record.{Record};
ghost use Rattle.rules.specs.Grid.{range, fit_sides};
ghost use Rattle.rules.specs.Checks.{first_failing};
ghost use Rattle.rules.specs.Refusals.{number_in};
ghost use Rattle.rules.specs.Machine.{unfit};
ghost use Rattle.office.specs.Parts.{total};
ghost use Rattle.office.specs.Serve.{no_record, within, grid_at};
ghost use Rattle.office.specs.Structs.{records_of};
ghost use Rattle.serving_checks.specs.Given.{sizes_of, grids_of, Sized, LaidOut, layout_checks, grid_checks};

use office::{Grids, Order};
use rules::{Record, Refusal};

// The record of the grid at p.
pub fn record_at(g: Grids, p: usize) -> Record
    requires { (p < g.count) × (g.count ≤ 16) }
    ensures { result ≡ get_or g.records p no_record }
{
    g.records[p]
}

// Whether some grid has unfit sides.
fn unfit_sides(g: Grids) -> bool
    requires { g.count ≤ 16 }
    ensures { result ≡ any (λ (given : Record). not (fit_sides given.sides)) (records_of g) }
{
    g.records[..g.count]
        .iter()
        .any(|given| !sizes::fit_sides(given.sides))
}

// Whether some grid is finished.
fn any_finished(g: Grids) -> bool
    requires { g.count ≤ 16 }
    ensures { result ≡ any (λ (given : Record). given.finished) (records_of g) }
{
    g.records[..g.count].iter().any(|given| given.finished)
}

// Where the part of the grid at p starts, in a buffer of all grids laid end to end: at the sum of the sizes before it.
pub fn start_of(g: Grids, p: usize) -> usize
    requires { Sized g × (p ≤ g.count) }
    ensures { result ≡ total (take p (sizes_of g)) }
{
    let mut from = 0;
    for given in &g.records[..p] {
        from += sizes::voxel_count(given.sides);
    }
    from
}

// Whether a limit and a number of grids are in range.
fn in_range(limit: u32, count: usize) -> bool
    ensures { result ≡ within 1 1000 limit && within 1 16 count }
{
    (1..=1000).contains(&limit) && (1..=16).contains(&count)
}

// Numbers 34, 1 and 2, of a limit and of buffers of these lengths: the first that fails.
fn layout_refusal(
    g: Grids,
    limit: u32,
    dist: usize,
    status: usize,
    marks: usize,
) -> Result<(), Refusal>
    ensures { number_in result ≡ first_failing (layout_checks limit g dist status marks) }
{
    if !in_range(limit, g.count) {
        return Err(Refusal::Office);
    }
    if unfit_sides(g) {
        return Err(Refusal::Side);
    }
    let n = start_of(g, g.count);
    if dist != n || status != n || marks != n {
        return Err(Refusal::Length);
    }
    Ok(())
}

// Whether the grid at p is unfit, in its own part of the buffers.
fn unfit_at(g: Grids, dist: &[i32], status: &[u8], p: usize) -> bool
    requires { LaidOut g dist.now status.now × (p < g.count) }
    ensures { result ≡ unfit (grid_at (grids_of g dist.now status.now) p) }
{
    let from = start_of(g, p);
    let to = start_of(g, p + 1);
    let r = record_at(g, p);
    fitness::unfit_state(r, &dist[from..to], &status[from..to])
}

// Whether some grid is.
fn unfit_grids(g: Grids, dist: &[i32], status: &[u8]) -> bool
    requires { LaidOut g dist.now status.now }
    ensures { result ≡ any (λ p. unfit (grid_at (grids_of g dist.now status.now) p)) (range 0 g.count) }
{
    for p in 0..g.count {
        if unfit_at(g, dist, status, p) {
            return true;
        }
    }
    false
}

// The first check that fails, of all but 35.
pub fn refusal(
    g: Grids,
    o: Order,
    dist: &[i32],
    marks: &[u8],
    status: &[u8],
    limit: u32,
) -> Result<(), Refusal>
    ensures { number_in result ≡ first_failing (grid_checks marks.now limit g o dist.now status.now) }
{
    layout_refusal(g, limit, dist.len(), status.len(), marks.len())?;
    if unfit_grids(g, dist, status) || order_record::unfit(o, g.count) {
        return Err(Refusal::Unfit);
    }
    if marks::stray(marks) {
        return Err(Refusal::MarkByte);
    }
    if any_finished(g) {
        return Err(Refusal::Finished);
    }
    Ok(())
}
