// Why an operation that asks for no memory gives no value.

use si_arena::Cause;

/// Why an operation that asks for no memory gives no value.
#[derive(Clone, Copy, Debug)]
pub enum Lack {
    /// It raises an exception.
    Raises(Cause),
    /// A key is not there: it raises a KeyError, whose argument is the key (Python Standard Library 3.14, "Built-in
    /// Exceptions").
    NoKey,
}
