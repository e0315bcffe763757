/// What a search answers.
#[derive(Clone, Copy, Debug, PartialEq, Eq)]
pub enum Step {
    /// It found the next order.
    Found,
    /// No order is left.
    Done,
    /// The budget is spent.
    Paused,
}
