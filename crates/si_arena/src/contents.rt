// What an object holds.

use crate::dict::Dict;
use crate::object::Object;
use crate::value::Ref;

/// What an object holds.
#[derive(Clone, Copy)]
pub enum Contents<'a> {
    /// An exception or a thread.
    Plain(Object),
    /// A list (Python Language Reference 3.14, 3.2.5.2), by its items.
    List(&'a [Ref]),
    /// A dict (Python Language Reference 3.14, 3.2.7.1).
    Dict(&'a Dict),
}
