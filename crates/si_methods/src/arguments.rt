// Which of its arguments a call takes.

ghost use Rattle.std.specs.Prelude.{◌∷◌, []};
ghost use Rattle.si_plain.specs.Characters.{characters_of};
ghost use Rattle.si_semantics.specs.Attributes as attributes;
ghost use Rattle.si_methods.specs.Passing.{Passes, PassesThread};

use crate::characters::is_spelled;
use si_arena::Ref;
use si_plain::Text;

/// The one argument of a call, which has no name.
pub fn only_argument(arguments: &[Ref], names: &[Text]) -> Option<Ref>
    ensures { Passes (λ vs does w. attributes.only_argument vs names.now does w) arguments.now result }
{
    if !names.is_empty() {
        return None;
    }
    match arguments {
        [argument] => Some(*argument),
        _ => None,
    }
}

/// The one argument of a call, which may be passed by this name.
pub fn one_argument(word: &str, arguments: &[Ref], names: &[Text]) -> Option<Ref>
    ensures { Passes (λ vs does w. attributes.one_argument (characters_of word.now) vs names.now does w) arguments.now result }
{
    match arguments {
        [argument] => match names {
            [] => Some(*argument),
            [name] => {
                if is_spelled(name, word) {
                    Some(*argument)
                } else {
                    None
                }
            }
            _ => None,
        },
        _ => None,
    }
}

/// The target of a thread and its arguments, which are passed by their names, in either order.
pub fn thread_arguments(arguments: &[Ref], names: &[Text]) -> Option<(Ref, Ref)>
    ensures { PassesThread arguments.now names.now result }
{
    match arguments {
        [first, second] => match names {
            [one, other] => in_order(one, other, *first, *second),
            _ => None,
        },
        _ => None,
    }
}

// Two values by their names: the target first, and then the arguments.
fn in_order(one: &Text, other: &Text, first: Ref, second: Ref) -> Option<(Ref, Ref)>
    ensures { PassesThread (first ∷ second ∷ []) (one.now ∷ other.now ∷ []) result }
{
    if is_spelled(one, "target") && is_spelled(other, "args") {
        return Some((first, second));
    }
    if is_spelled(one, "args") && is_spelled(other, "target") {
        return Some((second, first));
    }
    None
}
