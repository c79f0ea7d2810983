// Document 02's CR 10, "Coarse run first": what the call answers. Its rule stands in specs/.
#![tactic(auto)]

use rules::Record;

// The record of a grid that was just begun, and how many examinations the coarse run made.
#[derive(Clone, Copy)]
pub struct CoarseStart {
    pub next: Record,
    pub examined: u32,
}
