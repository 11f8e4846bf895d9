//! A check over a network that it keeps.
use crate::progress::Progress;
use decisions::layers::DecisionLayer;

#[derive(Drop)]
pub struct Check<N> {
    // The network under the decisions.
    pub(crate) layer: DecisionLayer<N>,
    pub(crate) progress: Progress,
}
