// One item of the turn's list.
use ps_model::Step;

/// A step, the number of the pass that made it, and how long the store was then with all entries that waited. No value of it is made.
#[derive(Drop)]
pub struct Deed {
    pub by: u64,
    pub step: Step,
    pub bytes: u64,
}
