// What is written of the values of modules, and what is raised and caught of threads.

ghost use Rattle.std.specs.Prelude.{◌<◌, length};
ghost use Rattle.si_arena.specs.Memory.{Lies};

use crate::made;
use si_arena::{Arena, Cause, Contents, Object, Ref, Refusal, Short};
use si_ops::{catches, push_str, raised_by};
use si_plain::{Kind, ModuleName};
use std::alloc::Global;
use std::test::Fail;

// Whether a value is written so by `str`.
fn is_str(alloc: Global, arena: &Arena, value: Ref, wanted: &str) -> bool
    requires { Lies arena.now value }
{
    let mut written = String::new(alloc);
    match push_str(&mut written, arena, value) {
        Ok(()) => written.as_str() == wanted,
        Err(_) => false,
    }
}

// Whether a value is written so by `str` and by `repr`.
fn is_written(alloc: Global, arena: &Arena, value: Ref, str: &str, repr: &str) -> bool
    requires { Lies arena.now value }
{
    is_str(alloc, arena, value, str) && made::is_repr(alloc, arena, value, repr)
}

#[test]
fn modules_are_written(rt: HostRuntime) {
    let arena = Arena::new(rt.alloc());
    let threading = "<module 'threading'>";
    let value = Ref::Module([], ModuleName::Threading);
    assert!(rt; is_written(rt.alloc(), &arena, value, threading, threading));
    let interpreters = "<module 'concurrent.interpreters'>";
    let value = Ref::Module([], ModuleName::Interpreters);
    assert!(rt; is_written(rt.alloc(), &arena, value, interpreters, interpreters));
}

#[test]
fn queues_and_interpreters_are_written(rt: HostRuntime) {
    let arena = Arena::new(rt.alloc());
    let queue = Ref::Queue { id: 3, maxsize: 10 };
    assert!(rt; is_written(rt.alloc(), &arena, queue, "Queue(3)", "Queue(3)"));
    let value = Ref::Interpreter(0);
    let interpreter = "Interpreter(0)";
    assert!(rt; is_written(rt.alloc(), &arena, value, interpreter, interpreter));
    let exec = "<exec of Interpreter(4294967295)>";
    assert!(rt; is_written(rt.alloc(), &arena, Ref::Exec(u32::MAX), exec, exec));
}

#[test]
fn threads_are_written(rt: HostRuntime) -> Result<(), Fail> {
    let mut arena = Arena::new(rt.alloc());
    let text = Ref::Short(Short::of(b'x'));
    let waiting = made::object(
        &mut arena,
        Object::Thread {
            interpreter: 1,
            text,
        },
    )?;
    assert!(rt; is_written(rt.alloc(), &arena, waiting, "<Thread>", "<Thread>"));
    let started = made::object(&mut arena, Object::Started(7))?;
    assert!(rt; is_written(rt.alloc(), &arena, started, "<Thread>", "<Thread>"));
    Ok(())
}

#[test]
fn refusals_are_written(rt: HostRuntime) -> Result<(), Fail> {
    let mut arena = Arena::new(rt.alloc());
    let number = made::name(&mut arena, "pop")?;
    let value = made::object(&mut arena, Object::Caused(Cause::NoAttribute(number)))?;
    let repr = "AttributeError('no attribute pop')";
    assert!(rt; is_written(rt.alloc(), &arena, value, "no attribute pop", repr));
    let full = Cause::Refused(Refusal::QueueIsFull);
    let value = made::object(&mut arena, Object::Caused(full))?;
    let repr = "QueueFull('queue is full')";
    assert!(rt; is_written(rt.alloc(), &arena, value, "queue is full", repr));
    Ok(())
}

// Whether `except BaseException` catches an object, where it may be raised.
fn is_caught(arena: &Arena, address: usize) -> Option<bool>
    requires { address < length arena.now.store }
{
    match catches(arena, Ref::Kind([], Kind::BaseException), address) {
        Ok(caught) => Some(caught),
        Err(_) => None,
    }
}

// The name of the kind of an exception.
fn kind_at(arena: &Arena, address: usize) -> &'static str
    requires { address < length arena.now.store }
{
    match arena.object(address) {
        Contents::Plain(object) => object.kind().name(),
        _ => "no exception",
    }
}

#[test]
fn a_thread_is_no_exception(rt: HostRuntime) -> Result<(), Fail> {
    let mut arena = Arena::new(rt.alloc());
    let _thread = arena.make(Object::Started(7))?;
    assert!(rt; is_caught(&arena, 0) == Some(false));
    let raised = raised_by(&mut arena, Ref::Object(0))?;
    assert!(rt; raised == 1);
    assert!(rt; kind_at(&arena, 1) == "TypeError");
    Ok(())
}
