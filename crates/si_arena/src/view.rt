// What a value shows.

use crate::characters::Characters;
use crate::object::Steps;
use crate::value::{BuiltIn, Ref};
use si_plain::{Kind, ModuleName, Text};

/// What a value is: case for case what the language has (Python Language Reference 3.14, 3.2).
#[derive(Clone, Copy)]
pub enum View<'a> {
    None,
    /// True or False.
    Truth(bool),
    Int(i64),
    Str(Characters<'a>),
    Bytes(&'a [u8]),
    BuiltIn(BuiltIn),
    /// A function of a script, by its number and its name.
    Function(u32, &'a Text),
    Range(&'a Steps),
    /// A tuple, by its items.
    Tuple(&'a [Ref]),
    /// A kind of exception.
    Kind(Kind),
    /// A module that was imported.
    Module(ModuleName),
    /// A queue, by its number and the most items that it may have, 0 for no bound.
    Queue(u32, u64),
    /// An interpreter, by its number.
    Interpreter(u32),
    /// The method `exec` of the interpreter of a number.
    Exec(u32),
    /// An object, by its address.
    Object(usize),
}
