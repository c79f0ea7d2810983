// Document 02's CR 11, "The other supplier's removal list": what the call answers. Its rule stands in specs/.
#![tactic(auto)]

// How many voxels the list removes, how many of them are openings, and the Euler number of what is left.
#[derive(Clone, Copy)]
pub struct Judgement {
    pub removed: u64,
    pub opened: u32,
    pub euler: i32,
}
