// Why an exception was raised, and what it says.

ghost use Rattle.std.specs.Prelude.{◌≡◌, ◌++◌, IfOk, OnOk};
ghost use Rattle.si_arena.specs.Causes.{not_defined, not_bound, no_attribute};

use crate::refusal::Refusal;
use si_plain::{Kind, NoMemory, Text};
use std::alloc::Global;

/// Why an exception was raised. Its kind and its message follow from it.
#[derive(Clone, Copy, Debug, PartialEq, Eq)]
pub enum Cause {
    /// An operation on integers gives no integer, or a range would have the step 0: the kind says why.
    Arithmetic(Kind),
    /// A text would be longer than a str may be (this project's own).
    TooLong,
    /// An operation is given a value that it does not take.
    WrongType,
    /// A call of what is no function, no kind and no built-in (Python Language Reference 3.14, 6.3.3).
    NotCallable,
    /// A call with arguments that do not fit what is called (Python Language Reference 3.14, 6.3.3).
    WrongArguments,
    /// One call of own functions too many within each other, or one tuple or exception too many to be written or
    /// compared (this project's own).
    TooDeep,
    /// A bare `raise` where no exception is active (Python Language Reference 3.14, 7.8).
    NoneActive,
    /// An index that lies outside of what it is to be found in (Python Language Reference 3.14, 6.3.2).
    Outside,
    /// No value is bound to the global of this name, by its number among the arena's names.
    NotDefined(usize),
    /// No value is bound to the local of this name (Python Language Reference 3.14, 4.2.2).
    NotBound(usize),
    /// A value has no attribute of this name (Python Language Reference 3.14, 6.3.1).
    NoAttribute(usize),
    /// A dict got another key, or lost one, while its keys were gone over (Python Standard Library 3.14, "Mapping Types").
    SizeChanged,
    /// A call is refused by the rules of a module.
    Refused(Refusal),
}

/// Why a call gives no value.
#[derive(Clone, Copy, Debug, PartialEq, Eq)]
pub enum Fault {
    /// It raises an exception.
    Raises(Cause),
    /// Memory was refused.
    NoMemory,
}

impl From<NoMemory> for Fault {
    ghost use Rattle.std.specs.Prelude.{◌≡◌};
    ghost use Rattle.si_arena.specs.declared.cause.Fault.TheVariants.{NoMemory as Refused};

    ghost from_gives = { λ _ e. e ≡ Refused };

    fn from(_: NoMemory) -> Fault {
        Fault::NoMemory
    }
}

impl Cause {
    ghost use Rattle.std.specs.Prelude.{◌≡◌, IfOk};
    ghost use Rattle.si_arena.specs.Causes.{kind_of, message_of, CauseLies};

    /// The kind of the exception.
    pub fn kind(self) -> Kind
        ensures { result ≡ kind_of self }
    {
        match self {
            Cause::Arithmetic(kind) => kind,
            Cause::TooLong => Kind::OverflowError,
            Cause::WrongType => Kind::TypeError,
            Cause::NotCallable => Kind::TypeError,
            Cause::WrongArguments => Kind::TypeError,
            Cause::TooDeep => Kind::RecursionError,
            Cause::NoneActive => Kind::RuntimeError,
            Cause::Outside => Kind::IndexError,
            Cause::NotDefined(_) => Kind::NameError,
            Cause::NotBound(_) => Kind::UnboundLocalError,
            Cause::NoAttribute(_) => Kind::AttributeError,
            Cause::SizeChanged => Kind::RuntimeError,
            Cause::Refused(refusal) => refusal.kind(),
        }
    }

    /// The message of the exception, where these are the names. `AllocError` where memory is refused.
    pub(crate) fn message(self, alloc: Global, names: &[Text]) -> Result<Text, NoMemory>
        requires { CauseLies names.now self }
        ensures { IfOk result (λ t. t ≡ message_of names.now self) }
    {
        match self {
            Cause::Arithmetic(Kind::ZeroDivisionError) => ascii(alloc, "division by zero"),
            Cause::Arithmetic(Kind::OverflowError) => ascii(alloc, "integer out of range"),
            Cause::Arithmetic(Kind::ValueError) => ascii(alloc, "wrong value"),
            Cause::Arithmetic(_) => ascii(alloc, "wrong type"),
            Cause::TooLong => ascii(alloc, "too long"),
            Cause::WrongType => ascii(alloc, "wrong type"),
            Cause::NotCallable => ascii(alloc, "not callable"),
            Cause::WrongArguments => ascii(alloc, "wrong arguments"),
            Cause::TooDeep => ascii(alloc, "too deep"),
            Cause::NoneActive => ascii(alloc, "no active exception"),
            Cause::Outside => ascii(alloc, "index out of range"),
            Cause::NotDefined(name) => name_is_not_defined(alloc, &names[name]),
            Cause::NotBound(name) => local_is_not_bound(alloc, &names[name]),
            Cause::NoAttribute(name) => has_no_attribute(alloc, &names[name]),
            Cause::SizeChanged => ascii(alloc, "dictionary changed size"),
            Cause::Refused(refusal) => ascii(alloc, refusal.message()),
        }
    }
}

fn name_is_not_defined(alloc: Global, name: &Text) -> Result<Text, NoMemory>
    ensures { IfOk result (λ t. t ≡ not_defined name.now) }
{
    let mut text = ascii(alloc, "name ")?;
    text.append(name)?;
    push_ascii(&mut text, " is not defined")?;
    Ok(text)
}

fn local_is_not_bound(alloc: Global, name: &Text) -> Result<Text, NoMemory>
    ensures { IfOk result (λ t. t ≡ not_bound name.now) }
{
    let mut text = ascii(alloc, "local ")?;
    text.append(name)?;
    push_ascii(&mut text, " is not bound")?;
    Ok(text)
}

fn has_no_attribute(alloc: Global, name: &Text) -> Result<Text, NoMemory>
    ensures { IfOk result (λ t. t ≡ no_attribute name.now) }
{
    let mut text = ascii(alloc, "no attribute ")?;
    text.append(name)?;
    Ok(text)
}

// An ASCII text.
fn ascii(alloc: Global, text: &str) -> Result<Text, NoMemory>
    ensures { IfOk result (λ t. t ≡ text.now) }
{
    let mut all = Text::new(alloc);
    push_ascii(&mut all, text)?;
    Ok(all)
}

// An ASCII text at the end of a text.
fn push_ascii(text: &mut Text, ascii: &str) -> Result<(), NoMemory>
    ensures { OnOk result (text.new ≡ text.old ++ ascii.now) }
{
    for byte in ascii.as_bytes() {
        text.push(char::from(*byte))?;
    }
    Ok(())
}
