//! What a run begins with, and what it leaves.

use crate::team::Team;
use class_model::Shared;
use shared_words::{SharedWords, WholeSeat};

/// What a run begins with: shared words and their whole seat as they were begun, processors that have taken no step, the
/// greatest number of rounds, at most 4,096, and what no step changes. All processors have one cycle and one quantum.
#[derive(Drop)]
pub struct Parts {
    pub words: SharedWords,
    pub whole: WholeSeat,
    pub processors: Team,
    pub rounds: u32,
    pub shared: Shared,
}

/// What a run leaves: how many rounds were taken, the processors, and what no step changes, as it was.
#[derive(Drop)]
pub struct Rounds {
    pub taken: u32,
    pub processors: Team,
    pub shared: Shared,
}
