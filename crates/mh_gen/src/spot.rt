/// What an assignment goes to, by its number.
#[derive(Clone, Copy)]
pub enum Spot {
    /// The pending value of a signal.
    Signal(u32),
    /// A local.
    Local(u32),
}
