// Names without a value.

/// A name that is read and has no value.
#[derive(Clone, Copy, Debug, PartialEq, Eq)]
pub enum Missing {
    /// The local at this place, which is not bound.
    Local(u32),
    /// The global at this slot, which is not bound, and no built-in has its name.
    Global(u32),
}
