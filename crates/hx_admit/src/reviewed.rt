// What a review finds.
use hx_model::Answer;
use hx_store::Change;

/// What a request writes, and its answer once that is done.
#[derive(Drop)]
pub struct Reviewed {
    /// The writes, all with the next version. None where the request changes nothing.
    pub writes: Vec<Change>,
    pub answer: Answer,
}
