// Each public call once.

ghost use Rattle.si_arena.specs.Memory.{AllLie, Lies};

use crate::made;
use si_arena::{Arena, Fault, Object, Ref, Short};
use si_methods::{
    Answered, Awaited, Method, MethodName, Replied, attribute, call_method, method_named,
    method_of, reply,
};
use si_parcel::{Action, Answer, Ids};
use si_plain::{Kind, ModuleName, NoMemory, Text};
use std::alloc::Global;
use std::test::Fail;

// The method of a value that has this name.
fn method(arena: &Arena, value: Ref, name: &Text) -> Option<Method>
    requires { Lies arena.now value }
{
    method_of(arena, value, name)
}

#[test]
fn a_module_has_its_functions(rt: HostRuntime) -> Result<(), Fail> {
    let name = Text::from_str(rt.alloc(), "create_queue")?;
    let arena = Arena::new(rt.alloc());
    let found = method(&arena, Ref::Module([], ModuleName::Interpreters), &name);
    assert!(rt; matches!(found, Some(Method::CreateQueue)));
    Ok(())
}

// Whether an attribute of a value is this integer.
fn is_attribute(arena: &Arena, value: Ref, name: &Text, wanted: i64) -> bool
    requires { Lies arena.now value }
{
    matches!(attribute(arena, value, name), Ok(Some(Ref::Int(int))) if int == wanted)
}

#[test]
fn a_queue_has_its_bound(rt: HostRuntime) -> Result<(), Fail> {
    let name = Text::from_str(rt.alloc(), "maxsize")?;
    let arena = Arena::new(rt.alloc());
    let queue = Ref::Queue { id: 4, maxsize: 2 };
    assert!(rt; is_attribute(&arena, queue, &name, 2));
    Ok(())
}

// A call of a method by interpreter 0, of whose answer nothing is said.
fn called(
    alloc: Global,
    arena: &mut Arena,
    method: Method,
    object: Ref,
    arguments: &[Ref],
    names: &[Text],
) -> Result<Answered, Fault>
    requires object { Lies arena.old object }
    requires arguments { AllLie arena.old arguments.now }
{
    call_method(alloc, arena, 0, method, object, arguments, names)
}

// Whether a call asks for the size of queue 4, to tell whether it is full.
fn asks_for_its_size(told: Result<Answered, Fault>) -> bool {
    matches!(
        told,
        Ok(Answered::Asks(Awaited::IsFull(2), Action::Size(4)))
    )
}

#[test]
fn a_queue_is_asked_for_its_size(rt: HostRuntime) {
    let mut arena = Arena::new(rt.alloc());
    let queue = Ref::Queue { id: 4, maxsize: 2 };
    let asked = called(rt.alloc(), &mut arena, Method::IsFull, queue, &[], &[]);
    assert!(rt; asks_for_its_size(asked));
}

// Whether an answer makes an exception of this kind.
fn has_failed(replied: Result<Replied, NoMemory>, wanted: Kind) -> bool {
    matches!(replied, Ok(Replied::Failed(Object::Made(kind, _))) if kind == wanted)
}

#[test]
fn a_run_in_no_interpreter_fails(rt: HostRuntime) {
    let mut arena = Arena::new(rt.alloc());
    let replied = reply(rt.alloc(), &mut arena, Awaited::Exec(5), &Answer::NotFound);
    assert!(rt; has_failed(replied, Kind::InterpreterNotFoundError));
}

// The method of a value by a name that was looked up.
fn looked_up(arena: &Arena, value: Ref, name: &str) -> Option<Method>
    requires { Lies arena.now value }
{
    match MethodName::of(name) {
        Some(name) => method_named(arena, value, name),
        None => None,
    }
}

#[test]
fn a_name_is_looked_up_once(rt: HostRuntime) -> Result<(), Fail> {
    let mut arena = Arena::new(rt.alloc());
    let list = made::list(&mut arena, &[])?;
    assert!(rt; matches!(looked_up(&arena, list, "pop"), Some(Method::PopItem)));
    assert!(rt; MethodName::of("popitem").is_none());
    Ok(())
}

// What a call gives, or which key it lacks.
#[derive(Clone, Copy)]
enum Given {
    Value(Ref),
    NoKey(Ref),
    Other,
}

fn given_by(told: Result<Answered, Fault>) -> Given {
    match told {
        Ok(Answered::Value(value)) => Given::Value(value),
        Ok(Answered::NoKey(key)) => Given::NoKey(key),
        _ => Given::Other,
    }
}

// Whether a list of 1 gives None where 2 is put at its end, and 2 where its last item is taken.
fn grows_and_shrinks(alloc: Global) -> Result<bool, NoMemory> {
    let mut arena = Arena::new(alloc);
    let list = arena.make_list_of(&[Ref::Int(1)])?;
    let value = [Ref::Int(2)];
    let grown = call_method(alloc, &mut arena, 0, Method::Append, list, &value, &[]);
    let has_grown = matches!(given_by(grown), Given::Value(Ref::None));
    let last = called(alloc, &mut arena, Method::PopItem, list, &[], &[]);
    Ok(has_grown && matches!(given_by(last), Given::Value(Ref::Int(2))))
}

#[test]
fn a_list_grows_and_shrinks_at_its_end(rt: HostRuntime) -> Result<(), Fail> {
    assert!(rt; grows_and_shrinks(rt.alloc())?);
    Ok(())
}

// Whether a dict of 7 gives its value where that is taken, lacks 7 from then on, and gives None where it is asked for it.
fn tells_of_its_key(alloc: Global) -> bool {
    let mut arena = Arena::new(alloc);
    let Ok(Some(dict)) = arena.make_dict(&[Ref::Int(7), Ref::Truth([], true)]) else {
        return false;
    };
    let key = [Ref::Int(7)];
    let taken = call_method(alloc, &mut arena, 0, Method::PopValue, dict, &key, &[]);
    let is_taken = matches!(given_by(taken), Given::Value(Ref::Truth(_, true)));
    let again = call_method(alloc, &mut arena, 0, Method::PopValue, dict, &key, &[]);
    let is_gone = matches!(given_by(again), Given::NoKey(Ref::Int(7)));
    let other = called(alloc, &mut arena, Method::GetValue, dict, &key, &[]);
    is_taken && is_gone && matches!(given_by(other), Given::Value(Ref::None))
}

#[test]
fn a_dict_tells_of_its_keys(rt: HostRuntime) {
    assert!(rt; tells_of_its_key(rt.alloc()));
}

// Whether three texts are joined by another, each of one character.
fn joins_three(alloc: Global) -> Result<bool, NoMemory> {
    let mut arena = Arena::new(alloc);
    let comma = Ref::Short(Short::of(b','));
    let letter = Ref::Short(Short::of(0xef));
    let list = [made::list(&mut arena, &[letter, comma, letter])?];
    match call_method(alloc, &mut arena, 0, Method::JoinTexts, comma, &list, &[]) {
        Ok(Answered::Value(text)) => Ok(made::is_narrow(&arena, text, b"\xef,,,\xef")),
        _ => Ok(false),
    }
}

#[test]
fn texts_are_joined(rt: HostRuntime) -> Result<(), Fail> {
    assert!(rt; joins_three(rt.alloc())?);
    Ok(())
}

// Whether a text of one character is encoded as two bytes.
fn encodes_one(alloc: Global) -> bool {
    let mut arena = Arena::new(alloc);
    let letter = Ref::Short(Short::of(0xef));
    match call_method(alloc, &mut arena, 0, Method::Encode, letter, &[], &[]) {
        Ok(Answered::Value(bytes)) => arena.bytes(&bytes) == b"\xc3\xaf".as_slice(),
        _ => false,
    }
}

#[test]
fn a_text_is_encoded(rt: HostRuntime) {
    assert!(rt; encodes_one(rt.alloc()));
}

// Whether a call asks to give interpreter 2 values of two names.
fn prepares(told: Result<Answered, Fault>, first: &str, second: &str) -> bool {
    match told {
        Ok(Answered::Asks(_, Action::Prepare(2, binds))) => match binds.as_slice() {
            [one, other] => one.0.as_str() == first && other.0.as_str() == second,
            _ => false,
        },
        _ => false,
    }
}

// Whether the name of a dict goes before one that is passed by its name.
fn prepares_in_order(alloc: Global) -> Result<bool, NoMemory> {
    let names = [Text::from_str(alloc, "m")?];
    let mut arena = Arena::new(alloc);
    let Some(key) = made::text(&mut arena, "n") else {
        return Ok(false);
    };
    let Some(address) = made::dict(&mut arena, &[key, Ref::Int(3)]) else {
        return Ok(false);
    };
    let arguments = [Ref::Object(address), Ref::Int(4)];
    let object = Ref::Interpreter(2);
    let asked = called(
        alloc,
        &mut arena,
        Method::PrepareMain,
        object,
        &arguments,
        &names,
    );
    Ok(prepares(asked, "n", "m"))
}

#[test]
fn names_come_from_a_dict(rt: HostRuntime) -> Result<(), Fail> {
    assert!(rt; prepares_in_order(rt.alloc())?);
    Ok(())
}

// The answer that lists interpreters 0 and 2.
fn zero_and_two(alloc: Global) -> Result<Answer, NoMemory> {
    let mut ids = Vec::new(alloc);
    ids.push(0)?;
    ids.push(2)?;
    Ok(Answer::Ids(Ids::new(ids)))
}

// Whether there are two values, of which interpreter 2 is the second.
fn are_two(items: Option<&[Ref]>) -> bool {
    matches!(items, Some([_, Ref::Interpreter(2)]))
}

// Whether what an arena makes of that answer is its first object, a list of both.
fn lists_both(alloc: Global) -> Result<bool, NoMemory> {
    let answer = zero_and_two(alloc)?;
    let mut arena = Arena::new(alloc);
    match reply(alloc, &mut arena, Awaited::ListAll, &answer)? {
        Replied::Got(Ref::Object(address)) => Ok(address == 0 && are_two(arena.list(address))),
        _ => Ok(false),
    }
}

#[test]
fn interpreters_are_listed(rt: HostRuntime) -> Result<(), Fail> {
    assert!(rt; lists_both(rt.alloc())?);
    Ok(())
}
