//! What a run over lines is asked beside its replies.

/// What a run over lines is asked beside its replies.
#[derive(Debug, Clone, Copy, PartialEq, Eq)]
pub struct LineOptions {
    /// The most bytes that a line may have, without its line feed. `None`: as many as memory holds.
    pub longest: Option<usize>,
    /// How many splits may be made for an answer. 0 stands for any number.
    pub most_splits: u64,
    /// Whether an answer tells its nearness: how far from the edges that are drawn or combined it may be wrong, in
    /// 64ths of a grid unit.
    pub nearness: bool,
    /// Whether the reply to a line that holds no request tells why.
    pub why: bool,
    /// Whether to tell people how many lines have their reply.
    pub progress: bool,
}
