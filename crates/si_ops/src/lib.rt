// The operations of values over an arena.
//
// Each goes as its definition in `si_semantics` says, which `specs/Runs.antt` puts beside the arena: it gives the value
// of the definition, or the cause of an exception whose kind and message are those of the definition, or memory was
// asked for and refused; what raises or is refused changes nothing. No operation makes the exception that it raises: the
// caller does, by `raised_for`, or by the key that is not there (`Lack`). A call may also print or make an object
// (`specs/Calls.antt`); what changes a list or a dict gives no value, or what is taken away (`specs/Changes.antt`).
//
// In reading order: `ranges` (the integers of a range), `characters` (texts compared where they lie), `held` (what a value
// holds that can be changed), `truth` (whether a value counts as true), `operand` (what a value is to an operator),
// `arithmetic` (operators before a value and between two), `refusal` (why a comparison has no answer), `equality` (`==`),
// `membership` (what is in a value), `comparison`, `lack` and `subscripts` (`E[i]`), `items` (what a `for` goes over),
// `gone_over` (all items at once, and unpacking), `exceptions` (which clause catches what, and what `raise` raises),
// `pieces`, `quoted`, `atoms` and `messages` (the parts of what is written), `inside` and `shown` (`str` and `repr`), `line`
// (what `print` writes), `first` (the names that are there from the first), `numerals` (the integers that texts write),
// `provided` (the built-ins that give a value), `bytes`, `tuples` and `lists` (bytes, tuples and lists joined, repeated and
// made, and dicts made), `changes` (`E[i] = v`, `del E[i]`, `+=`), `keyed` (what methods do with lists and dicts) and
// `calls` (of what is there from the first).
#![tactic(auto)]

mod arithmetic;
mod atoms;
mod bytes;
mod calls;
mod changes;
mod characters;
mod comparison;
mod equality;
mod exceptions;
mod first;
mod gone_over;
mod held;
mod inside;
mod items;
mod keyed;
mod lack;
mod line;
mod lists;
mod membership;
mod messages;
mod numerals;
mod operand;
mod pieces;
mod provided;
mod quoted;
mod ranges;
mod refusal;
mod shown;
mod subscripts;
mod truth;
mod tuples;

pub use arithmetic::{binary, on_integers, unary};
pub use calls::{Called, call, call_by_name};
pub use changes::{augment, delete_item, set_item};
pub use comparison::{are_one, compare, compare_integers};
pub use exceptions::{catches, raised_again, raised_by, raised_for};
pub use first::{built_in, first_global};
pub use gone_over::{nth_item, unpacks};
pub use items::Items;
pub use keyed::{append, get_value, pop_item, pop_value};
pub use lack::Lack;
pub use line::push_line;
pub use lists::{make_dict, make_list};
pub use operand::integer_in;
pub use shown::{push_repr, push_str};
pub use subscripts::subscript;
pub use truth::{decides, int_of_truth, is_true};
