// Which methods a value has.

ghost use Rattle.std.specs.Prelude.{◌≡◌, ℕ, List, map, option_map, Some};
ghost use Rattle.si_plain.specs.Characters.{characters_of};
ghost use Rattle.si_semantics.specs.Value as pure;
ghost use Rattle.si_semantics.specs.World.{World};
ghost use Rattle.si_semantics.specs.Attributes as attributes;
ghost use Rattle.si_arena.specs.Memory.{Memory, value_of, object_of, contents_of, Lies};
ghost use Rattle.si_methods.specs.Methods.{method_in, spelled, same_name, IsAmong, IsMethodName};

use crate::characters::same_word;
use si_arena::{Arena, Contents, Object, Ref, View};
use si_plain::{ModuleName, Text};

/// A method, or a function of a module (Python Standard Library 3.14, "Built-in Types": string methods, mutable sequence
/// types and "dict", and "threading"; PEP 734).
#[derive(Clone, Copy, Debug)]
pub enum Method {
    /// `str.startswith`.
    StartsWith,
    /// `str.endswith`.
    EndsWith,
    /// `str.join`.
    JoinTexts,
    /// `str.encode`.
    Encode,
    /// `append` of a list.
    Append,
    /// `pop` of a list.
    PopItem,
    /// `get` of a dict.
    GetValue,
    /// `pop` of a dict.
    PopValue,
    /// `create` of the module of interpreters.
    Create,
    /// `list_all`.
    ListAll,
    /// `get_current`.
    GetCurrent,
    /// `get_main`.
    GetMain,
    /// `create_queue`.
    CreateQueue,
    /// `is_shareable`.
    IsShareable,
    /// `threading.Thread`.
    MakeThread,
    /// `start` of a thread.
    Start,
    /// `join` of a thread.
    Join,
    /// `exec` of an interpreter.
    Execute,
    /// `is_running`.
    IsRunning,
    /// `close`.
    Close,
    /// `prepare_main`.
    PrepareMain,
    /// `empty` of a queue.
    IsEmpty,
    /// `full`.
    IsFull,
    /// `qsize`.
    Size,
    /// `put`.
    Put,
    /// `put_nowait`.
    PutNow,
    /// `get`.
    Get,
    /// `get_nowait`.
    GetNow,
}

/// The name of a method: `join`, `pop` and `get` are those of two.
#[derive(Clone, Copy, Debug, PartialEq, Eq)]
pub enum MethodName {
    StartsWith,
    EndsWith,
    Join,
    Encode,
    Append,
    Pop,
    Get,
    Create,
    ListAll,
    GetCurrent,
    GetMain,
    CreateQueue,
    IsShareable,
    Thread,
    Start,
    Exec,
    IsRunning,
    Close,
    PrepareMain,
    Empty,
    Full,
    Size,
    Put,
    PutNow,
    GetNow,
}

impl MethodName {
    /// The name of a method that a word is, if it is one. Takes no memory.
    pub fn of(word: &str) -> Option<MethodName>
        ensures { IsMethodName (characters_of word.now) result }
    {
        let names = [
            MethodName::StartsWith,
            MethodName::EndsWith,
            MethodName::Join,
            MethodName::Encode,
            MethodName::Append,
            MethodName::Pop,
            MethodName::Get,
            MethodName::Create,
            MethodName::ListAll,
            MethodName::GetCurrent,
            MethodName::GetMain,
            MethodName::CreateQueue,
            MethodName::IsShareable,
            MethodName::Thread,
            MethodName::Start,
            MethodName::Exec,
            MethodName::IsRunning,
            MethodName::Close,
            MethodName::PrepareMain,
            MethodName::Empty,
            MethodName::Full,
            MethodName::Size,
            MethodName::Put,
            MethodName::PutNow,
            MethodName::GetNow,
        ];
        spelled_so(word, &names)
    }

    // Whether it is another.
    fn is_same(self, other: MethodName) -> bool
        ensures { result ≡ same_name self other }
    {
        self == other
    }

    // How scripts spell it: ASCII.
    fn spelling(self) -> &'static str
        ensures { result.now ≡ spelled self }
    {
        match self {
            MethodName::StartsWith => "startswith",
            MethodName::EndsWith => "endswith",
            MethodName::Join => "join",
            MethodName::Encode => "encode",
            MethodName::Append => "append",
            MethodName::Pop => "pop",
            MethodName::Get => "get",
            MethodName::Create => "create",
            MethodName::ListAll => "list_all",
            MethodName::GetCurrent => "get_current",
            MethodName::GetMain => "get_main",
            MethodName::CreateQueue => "create_queue",
            MethodName::IsShareable => "is_shareable",
            MethodName::Thread => "Thread",
            MethodName::Start => "start",
            MethodName::Exec => "exec",
            MethodName::IsRunning => "is_running",
            MethodName::Close => "close",
            MethodName::PrepareMain => "prepare_main",
            MethodName::Empty => "empty",
            MethodName::Full => "full",
            MethodName::Size => "qsize",
            MethodName::Put => "put",
            MethodName::PutNow => "put_nowait",
            MethodName::GetNow => "get_nowait",
        }
    }
}

impl Method {
    // Its name.
    fn name(self) -> MethodName
        ensures { spelled result ≡ attributes.method_name (method_in self) }
    {
        match self {
            Method::StartsWith => MethodName::StartsWith,
            Method::EndsWith => MethodName::EndsWith,
            Method::JoinTexts => MethodName::Join,
            Method::Encode => MethodName::Encode,
            Method::Append => MethodName::Append,
            Method::PopItem => MethodName::Pop,
            Method::GetValue => MethodName::Get,
            Method::PopValue => MethodName::Pop,
            Method::Create => MethodName::Create,
            Method::ListAll => MethodName::ListAll,
            Method::GetCurrent => MethodName::GetCurrent,
            Method::GetMain => MethodName::GetMain,
            Method::CreateQueue => MethodName::CreateQueue,
            Method::IsShareable => MethodName::IsShareable,
            Method::MakeThread => MethodName::Thread,
            Method::Start => MethodName::Start,
            Method::Join => MethodName::Join,
            Method::Execute => MethodName::Exec,
            Method::IsRunning => MethodName::IsRunning,
            Method::Close => MethodName::Close,
            Method::PrepareMain => MethodName::PrepareMain,
            Method::IsEmpty => MethodName::Empty,
            Method::IsFull => MethodName::Full,
            Method::Size => MethodName::Size,
            Method::Put => MethodName::Put,
            Method::PutNow => MethodName::PutNow,
            Method::Get => MethodName::Get,
            Method::GetNow => MethodName::GetNow,
        }
    }
}

/// The method of a name that a value has, if it has one. Takes no memory.
pub fn method_of(arena: &Arena, value: Ref, name: &Text) -> Option<Method>
    requires { Lies arena.now value }
    ensures { (w : World) → w.store ≡ arena.now.store → option_map method_in result ≡ attributes.method_of (value_of arena.now value) name.now w }
{
    method_at(arena, value, MethodName::of(name.as_str()))
}

/// The same by the name of methods that its name is, if it is one. Takes no memory.
#[inline(always)]
pub fn method_at(arena: &Arena, value: Ref, name: Option<MethodName>) -> Option<Method>
    requires { Lies arena.now value }
    ensures { (x : pure.Text) (w : World) → IsMethodName x name → w.store ≡ arena.now.store → option_map method_in result ≡ attributes.method_of (value_of arena.now value) x w }
{
    match name {
        Some(name) => method_named(arena, value, name),
        None => None,
    }
}

/// The method of a name of methods that a value has, if it has one. Takes no memory. An object and a queue, whose methods are
/// called most, are looked at where they stand, and a list first.
#[inline(always)]
pub fn method_named(arena: &Arena, value: Ref, name: MethodName) -> Option<Method>
    requires { Lies arena.now value }
    ensures { (w : World) → w.store ≡ arena.now.store → option_map method_in result ≡ attributes.method_of (value_of arena.now value) (spelled name) w }
{
    match value {
        Ref::Object(address) => match arena.list(address) {
            Some(_) => method_of_list(name),
            None => method_of_object(arena.object(address), name),
        },
        Ref::Queue { .. } => method_of_queue(name),
        value => method_of_any(arena, value, name),
    }
}

// The same of a value of any kind.
#[inline(never)]
fn method_of_any(arena: &Arena, value: Ref, name: MethodName) -> Option<Method>
    requires { Lies arena.now value }
    ensures { (w : World) → w.store ≡ arena.now.store → option_map method_in result ≡ attributes.method_of (value_of arena.now value) (spelled name) w }
{
    match arena.view(&value) {
        View::None => None,
        View::Truth(_) => None,
        View::Int(_) => None,
        View::Str(_) => method_of_text(name),
        View::Bytes(_) => None,
        View::BuiltIn(_) => None,
        View::Function(_, _) => None,
        View::Range(_) => None,
        View::Tuple(_) => None,
        View::Kind(_) => None,
        View::Module(module) => function_of(module, name),
        View::Queue(_, _) => method_of_queue(name),
        View::Interpreter(_) => method_of_interpreter(name),
        View::Exec(_) => None,
        View::Object(address) => method_of_object(arena.object(address), name),
    }
}

// The method of a str.
fn method_of_text(name: MethodName) -> Option<Method>
    ensures { (t : pure.Text) (w : World) → option_map method_in result ≡ attributes.method_of (pure.Str t) (spelled name) w }
{
    among(
        &[
            Method::StartsWith,
            Method::EndsWith,
            Method::JoinTexts,
            Method::Encode,
        ],
        name,
    )
}

// The function of a module.
fn function_of(owner: ModuleName, name: MethodName) -> Option<Method>
    ensures { (w : World) → option_map method_in result ≡ attributes.method_of (pure.Module owner) (spelled name) w }
{
    match owner {
        ModuleName::Threading => among(&[Method::MakeThread], name),
        ModuleName::Interpreters => among(
            &[
                Method::Create,
                Method::ListAll,
                Method::GetCurrent,
                Method::GetMain,
                Method::CreateQueue,
                Method::IsShareable,
            ],
            name,
        ),
    }
}

// The method of a queue.
#[inline(never)]
fn method_of_queue(name: MethodName) -> Option<Method>
    ensures { (q m : ℕ) (w : World) → option_map method_in result ≡ attributes.method_of (pure.Queue q m) (spelled name) w }
{
    among(
        &[
            Method::IsEmpty,
            Method::IsFull,
            Method::Size,
            Method::Put,
            Method::PutNow,
            Method::Get,
            Method::GetNow,
        ],
        name,
    )
}

// The method of an interpreter.
fn method_of_interpreter(name: MethodName) -> Option<Method>
    ensures { (i : ℕ) (w : World) → option_map method_in result ≡ attributes.method_of (pure.Interpreter i) (spelled name) w }
{
    among(
        &[
            Method::Execute,
            Method::IsRunning,
            Method::Close,
            Method::PrepareMain,
        ],
        name,
    )
}

// The method of an object.
#[inline(never)]
fn method_of_object(object: Contents<'_>, name: MethodName) -> Option<Method>
    ensures { (m : Memory) → option_map method_in result ≡ attributes.method_named (spelled name) (attributes.methods_of_object (Some (contents_of m object.entry))) }
{
    match object {
        Contents::Plain(object) => method_of_plain(object, name),
        Contents::List(_) => method_of_list(name),
        Contents::Dict(_) => method_of_dict(name),
    }
}

// The method of a list.
#[inline(always)]
fn method_of_list(name: MethodName) -> Option<Method>
    ensures { (vs : List pure.Value) → option_map method_in result ≡ attributes.method_named (spelled name) (attributes.methods_of_object (Some (pure.Items vs))) }
{
    match name {
        MethodName::Append => Some(Method::Append),
        MethodName::Pop => Some(Method::PopItem),
        _ => None,
    }
}

// The method of a dict.
#[inline(always)]
fn method_of_dict(name: MethodName) -> Option<Method>
    ensures { (ps : List (pure.Key × pure.Value)) → option_map method_in result ≡ attributes.method_named (spelled name) (attributes.methods_of_object (Some (pure.Pairs ps))) }
{
    match name {
        MethodName::Get => Some(Method::GetValue),
        MethodName::Pop => Some(Method::PopValue),
        _ => None,
    }
}

// The method of an exception or a thread.
#[inline(never)]
fn method_of_plain(object: Object, name: MethodName) -> Option<Method>
    ensures { (m : Memory) → option_map method_in result ≡ attributes.method_named (spelled name) (attributes.methods_of_object (Some (object_of m object))) }
{
    match object {
        Object::Bare(_) => None,
        Object::Made(_, _) => None,
        Object::Caused(_) => None,
        Object::Thread { .. } => method_of_thread(name),
        Object::Started(_) => method_of_thread(name),
    }
}

// The method of a thread.
fn method_of_thread(name: MethodName) -> Option<Method>
    ensures { (r : ℕ) → option_map method_in result ≡ attributes.method_named (spelled name) (attributes.methods_of_object (Some (pure.Started r))) }
{
    among(&[Method::Start, Method::Join], name)
}

// The name among these that a word is.
fn spelled_so(word: &str, names: &[MethodName]) -> Option<MethodName>
    ensures { IsAmong (characters_of word.now) names.now result }
{
    for name in names {
        if same_word(word, name.spelling()) {
            return Some(*name);
        }
    }
    None
}

// The method of a name among these.
fn among(methods: &[Method], name: MethodName) -> Option<Method>
    ensures { option_map method_in result ≡ attributes.method_named (spelled name) (map method_in methods.now) }
{
    for method in methods {
        if method.name().is_same(name) {
            return Some(*method);
        }
    }
    None
}
