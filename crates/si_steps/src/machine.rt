// The machine.
ghost use Rattle.std.specs.Prelude.{◌≡◌, ◌↔◌, ◌<◌, [], length, IsTrue, IfOk, IfErr, OnOk, OnErr, slice_get, string_bytes};
ghost use Rattle.si_semantics.specs.Value.{Address};
ghost use Rattle.si_semantics.specs.Text as semantics;
ghost use Rattle.si_semantics.specs.Life.{kind_of};
ghost use Rattle.si_semantics.specs.World.{World, first_world};
ghost use Rattle.si_slots.specs.Contents.{Extends, no_code};
ghost use Rattle.si_slots.specs.Machine.{Course, Ending};
ghost use Rattle.si_slots.specs.Running.{NeverCloses, run_at};
ghost use Rattle.si_parcel.specs.Shared.{action_of, answer_of};
ghost use Rattle.si_methods.specs.Given.{answer_in};
ghost use Rattle.si_steps.specs.Shown.{ShowsGlobal, shown_in};
ghost use Rattle.si_steps.specs.Moments.{IsActionAt, HasAction, IsSound, IsWorld, ground_of};
ghost use Rattle.si_slots.specs.Views.{table_of};
ghost use Rattle.si_steps.specs.Machines.{Stands, IsRunning, IsWaiting, HasEnded, Steps, Answers, Awaits, Waits, bound_to, printed_of};
ghost use Rattle.si_semantics.specs.Shareable.{value_of_parcel};
ghost use Rattle.si_steps.specs.Outcomes.{told};

use crate::origin::Origin;
use crate::showing::NotShown;
use crate::state::{Standing, State};
use crate::step::{Exit, Outcome, Step};
use si_arena::{Arena, Contents, Fault, Ref};
use si_ops::push_str;
use si_parcel::{Action, Answer, Parcel};
use si_plain::{Kind, NoMemory, Text};
use si_slots::CodeTable;
use std::alloc::{AllocError, AllocFailed, Global};
use std::marker::Model;
use std::mem;

/// A machine, which runs the code of one table.
#[derive(Drop)]
pub struct Machine {
    state: State,
}

impl Model for Machine {
    ghost use Rattle.si_steps.specs.declared.state.State.{State};
    ghost use Rattle.std.specs.Coded.{codes};
    ghost use Rattle.si_semantics.specs.Code.{value_code};
    ghost use Rattle.si_parcel.specs.TreeCode.{tree_code};

    ghost Value = { State };

    ghost coded = { Prim.hlevel (codes, value_code, tree_code) };

    ghost view = { λ m. m.state };
}

impl Machine {
    /// A machine of the interpreter of a number, with no code, that has printed nothing.
    pub fn new(alloc: Global, own: u32) -> Machine
        ensures waits { Waits (first_world own) result }
        ensures own { result.own ≡ own }
        ensures table { result.table ≡ no_code }
        ensures idle { result.standing ≡ Standing.Idle }
        ensures printed { printed_of result ≡ [] }
        ensures outcome { result.outcome ≡ Exit.Returned }
    {
        Machine {
            state: State::new(alloc, own),
        }
    }

    /// Begins anew, at a place of a table: nothing is bound but `__name__`, and nothing was printed. Refused memory, the
    /// table comes back and the machine is as it was. Code of 2^63 instructions, for which no memory is large enough,
    /// counts as memory refused.
    ///
    /// The run from there may never come to be closed, whatever it is answered: no instruction of it lacks what it takes, and
    /// none is missing. Of each text that is compiled, the law `stays_open` of `si_slots` says so.
    pub fn load(&mut self, table: CodeTable, at: usize) -> Result<(), AllocFailed<CodeTable>>
        requires { NeverCloses (run_at (table_of table, at) (first_world self.old.own)) }
        ensures stands { OnOk result (Stands (run_at (table_of table, at) (first_world self.old.own)) self.new) }
        ensures running { OnOk result (IsRunning self.new) }
        ensures printed { OnOk result (printed_of self.new ≡ []) }
        ensures err { OnErr result (self.new ≡ self.old) }
        ensures comes_back { IfErr result (λ e. e.value ≡ table) }
    {
        if table.len() >= 1 << 63 {
            return Err(AllocFailed { value: table });
        }
        let mut state = State::new(table.allocator(), self.state.own);
        state.table = table;
        match state.learn() {
            Ok(()) => {
                state.begin_run(at);
                self.state = state;
                Ok(())
            }
            Err(_) => Err(AllocFailed { value: state.table }),
        }
    }

    /// The table, handed out so that a text can be added to it; `resume` takes it back. Meanwhile the machine has one of
    /// no code.
    pub fn lend_table(&mut self) -> CodeTable
        ensures lent { result ≡ self.old.table }
        ensures rest { self.new ≡ record self.old { table = no_code } }
    {
        let alloc = self.state.table.allocator();
        mem::replace(&mut self.state.table, CodeTable::new(alloc))
    }

    /// Takes the table back, to which texts were added, and begins a run at a place of it, in the namespace that the runs
    /// before have left. What was printed stays. Where memory is refused the machine stands still from then on. Code of
    /// 2^63 instructions, for which no memory is large enough, counts as memory refused.
    ///
    /// As in `load`, the run from there may never come to be closed.
    pub fn resume(&mut self, table: CodeTable, at: usize) -> Result<(), NoMemory>
        ghost w: { World }
        requires awaits { Awaits w table self.old }
        requires never { NeverCloses (run_at (table_of table, at) w) }
        ensures stands { OnOk result (Stands (run_at (table_of table, at) w) self.new) }
        ensures running { OnOk result (IsRunning self.new) }
        ensures starved { OnErr result (self.new.standing ≡ Standing.Starved) }
        ensures printed { printed_of self.new ≡ printed_of self.old }
    {
        if table.len() >= 1 << 63 {
            self.state.starve();
            return Err(AllocError);
        }
        self.state.table = table;
        match self.state.learn() {
            Ok(()) => {
                self.state.begin_run(at);
                Ok(())
            }
            Err(_) => {
                self.state.starve();
                Err(AllocError)
            }
        }
    }

    /// Binds a global name to the value of a parcel, between runs. The name is bound by its bytes, which are its characters
    /// where it is ASCII, as each name of a script is. A name that no text has spoken of gets a slot in the table, whose code
    /// stays the same. Where memory is refused the
    /// machine stands still from then on.
    pub fn bind(&mut self, name: &str, parcel: &Parcel) -> Result<(), NoMemory>
        ensures bound { OnOk result ((w : World) → Waits w self.old → Waits (bound_to name.now (value_of_parcel parcel.now) w) self.new) }
        ensures starved { OnErr result (self.new.standing ≡ Standing.Starved) }
        ensures code { table_of self.new.table ≡ table_of self.old.table }
        ensures grown { Extends self.old.table self.new.table }
        ensures printed { printed_of self.new ≡ printed_of self.old }
    {
        match self.state.bind_parcel(name, parcel) {
            Ok(()) => Ok(()),
            Err(_) => {
                self.state.starve();
                Err(AllocError)
            }
        }
    }

    /// Whether a run was begun that has not ended and waits for no answer, and memory was not refused.
    pub fn is_running(&self) -> bool
        ensures { IsTrue result ↔ IsRunning self.now }
    {
        match self.state.standing {
            Standing::Running => true,
            Standing::Idle => false,
            Standing::Waiting => false,
            Standing::Starved => false,
        }
    }

    /// Whether an action was asked whose answer is awaited.
    pub fn is_waiting(&self) -> bool
        ensures { IsTrue result ↔ IsWaiting self.now }
    {
        match self.state.standing {
            Standing::Waiting => true,
            Standing::Idle => false,
            Standing::Running => false,
            Standing::Starved => false,
        }
    }

    /// Whether memory was refused: it stands still from then on.
    pub fn is_starved(&self) -> bool
        ensures { IsTrue result ↔ (self.now.standing ≡ Standing.Starved) }
    {
        match self.state.standing {
            Standing::Starved => true,
            Standing::Running => false,
            Standing::Waiting => false,
            Standing::Idle => false,
        }
    }

    /// What was printed since it was last taken.
    pub fn printed(&self) -> &str
        ensures { result.now ≡ printed_of self.now }
    {
        self.state.printed.as_str()
    }

    /// The printed text, moved out; what is printed later begins anew.
    pub fn take_printed(&mut self) -> String
        ensures taken { string_bytes result ≡ printed_of self.old }
        ensures none { printed_of self.new ≡ [] }
        ensures rest { self.new ≡ record self.old { printed = self.new.printed } }
    {
        let alloc = self.state.table.allocator();
        mem::replace(&mut self.state.printed, String::new(alloc))
    }

    /// One instruction; with it the machine may come to wait for an answer.
    #[inline(always)]
    pub fn step(&mut self) -> Step
        ghost c: { Course }
        requires stands { Stands c self.old }
        requires running { IsRunning self.old }
        ensures { Steps c self.old self.new result }
    {
        self.state.step()
    }

    /// The action that was asked, moved out: it is to be handed out once. It makes the request at which the course stands.
    pub fn take_request(&mut self) -> Action
        ghost c: { Course }
        requires { HasAction c.place self.old.action }
        ensures asked { IsActionAt c.place (action_of result) }
        ensures rest { self.new ≡ record self.old { action = None } }
    {
        match mem::replace(&mut self.state.action, None) {
            Some(action) => action,
            None => unreachable!(),
        }
    }

    /// The answer to the action that was asked: the course goes on by just this answer. One that does not fit is never given;
    /// it would be as None. Where memory is refused the machine stands still from then on.
    pub fn answer(&mut self, answer: &Answer) -> Step
        ghost c: { Course }
        requires stands { Stands c self.old }
        requires waiting { IsWaiting self.old }
        ensures { Answers c (answer_in (answer_of answer.now)) self.old self.new result }
    {
        self.state.answer(answer)
    }

    /// How the run ended that has come to its end. `AllocError` where memory is refused.
    pub fn take_outcome(&self) -> Result<Outcome, NoMemory>
        ghost c: { Course }
        requires { HasEnded c self.now }
        ensures { IfOk result (λ outcome. c.place ≡ Ending (told outcome)) }
    {
        let alloc = self.state.table.allocator();
        match self.state.outcome {
            Exit::Returned => Ok(Outcome::Returned),
            Exit::Raised(address) => {
                let kind = kind_at(&self.state.arena, address);
                let message = message_of(alloc, &self.state.arena, address)?;
                Ok(Outcome::Raised(kind, message))
            }
        }
    }

    /// What a global denotes, as a text: the `repr` of the value that is bound to the name in the world of the machine; None
    /// where nothing is bound to it. The name goes by its bytes, which are its characters where it is ASCII, as each name of a
    /// script is. A built-in is no global.
    ///
    /// # Errors
    ///
    /// `Raises` where `repr` raises an exception: RecursionError where values are too deep within each other, OverflowError
    /// where the text is longer than a str may be. `NoMemory` where memory was refused.
    pub fn global(&self, name: &str) -> Result<Option<Text>, NotShown>
        requires { IsSound (ground_of self.now) }
        ensures { (w : World) → IsWorld (ground_of self.now) w → ShowsGlobal (shown_in w name.now) result }
    {
        self.state.show_global(name)
    }

    /// Where the exception came from that left the last run, if one did and its code is known. A hint: no contract speaks of
    /// it.
    pub fn origin(&self) -> Option<Origin> {
        self.state.origin()
    }
}

// The kind of the exception at an address; of any other object BaseException.
fn kind_at(arena: &Arena, address: usize) -> Kind
    requires { address < length arena.now.store }
    ensures { result ≡ kind_of (slice_get arena.now.store address) }
{
    match arena.object(address) {
        Contents::Plain(object) => object.kind(),
        Contents::List(_) => Kind::BaseException,
        Contents::Dict(_) => Kind::BaseException,
    }
}

// The message of the exception at an address, when it leaves a run: its `str`, where there is one.
fn message_of(alloc: Global, arena: &Arena, address: usize) -> Result<Text, NoMemory>
    requires { address < length arena.now.store }
    ensures { IfOk result (λ text. text ≡ semantics.message_of (semantics.str_in arena.now.store (Address address))) }
{
    let mut message = String::new(alloc);
    match push_str(&mut message, arena, Ref::Object(address)) {
        Ok(()) => Text::from_str(alloc, message.as_str()),
        Err(Fault::Raises(_)) => Text::from_str(alloc, "<exception str() failed>"),
        Err(Fault::NoMemory) => Err(AllocError),
    }
}
