// Interpreters and runs by themselves.

use si_parcel::{BoxedText, Job, Outcome};
use si_plain::{NoMemory, Text};
use si_registry::{Registry, Standing};
use std::alloc::Global;
use std::test::Fail;

fn boxed(alloc: Global, text: &str) -> Result<BoxedText, NoMemory> {
    Ok(BoxedText::new(alloc, Text::from_str(alloc, text)?)?)
}

// Two interpreters, of which 1 has a run in its inbox.
fn started(alloc: Global) -> Result<Registry, NoMemory> {
    let text = boxed(alloc, "t")?;
    let mut registry = Registry::new(alloc);
    registry.create(2)?;
    registry.create(2)?;
    if registry.count() == 2 {
        registry.start(1, text)?;
    }
    Ok(registry)
}

// The oldest job of an interpreter, taken.
fn take(registry: &mut Registry, id: u32) -> Option<Job> {
    if id as usize >= registry.count() {
        return None;
    }
    registry.take(id)
}

// Whether that job is this.
fn takes(registry: &mut Registry, id: u32, wanted: Job) -> bool {
    match take(registry, id) {
        None => false,
        Some(job) => job == wanted,
    }
}

fn is_standing(registry: &Registry, id: u32, wanted: Standing) -> bool {
    match registry.interpreter(id) {
        None => false,
        Some(interpreter) => interpreter.standing() == wanted,
    }
}

// Whether the run that an interpreter has taken is this, or it has none where that is none.
fn has_taken(registry: &Registry, id: u32, wanted: Option<u64>) -> bool {
    match registry.interpreter(id) {
        None => false,
        Some(interpreter) => interpreter.taken_run() == wanted,
    }
}

// Whether a run has an outcome, and it has returned.
fn has_returned(registry: &Registry, run: u64) -> bool {
    match registry.run(run) {
        None => false,
        Some(run) => match run.outcome() {
            None => false,
            Some(outcome) => *outcome == Outcome::Returned,
        },
    }
}

// Whether one more interpreter has this number, or there is none where that is none.
fn creates(registry: &mut Registry, wanted: Option<u32>) -> Result<bool, NoMemory> {
    Ok(registry.create(2)? == wanted)
}

// Whether interpreter 0 alone is open.
fn is_open_alone(registry: &Registry) -> Result<bool, NoMemory> {
    let open = registry.open()?;
    Ok(open.as_slice() == [0].as_slice())
}

#[test]
fn at_most_as_many_as_told(rt: HostRuntime) -> Result<(), Fail> {
    let mut registry = Registry::new(rt.alloc());
    assert!(rt; creates(&mut registry, Some(0))?);
    assert!(rt; creates(&mut registry, Some(1))?);
    assert!(rt; creates(&mut registry, None)?);
    assert!(rt; registry.count() == 2);
    Ok(())
}

#[test]
fn a_run_from_start_to_end(rt: HostRuntime) -> Result<(), Fail> {
    let job = Job::Run(0, boxed(rt.alloc(), "t")?);
    let mut registry = started(rt.alloc())?;
    assert!(rt; is_standing(&registry, 1, Standing::Running(0)));
    assert!(rt; has_taken(&registry, 1, None));
    assert!(rt; takes(&mut registry, 1, job));
    assert!(rt; has_taken(&registry, 1, Some(0)));
    Ok(())
}

#[test]
fn an_outcome_is_kept(rt: HostRuntime) -> Result<(), Fail> {
    let mut registry = started(rt.alloc())?;
    take(&mut registry, 1);
    if registry.count() == 2 {
        registry.end(1, 0, Outcome::Returned);
    }
    assert!(rt; is_standing(&registry, 1, Standing::Idle));
    assert!(rt; has_returned(&registry, 0));
    Ok(())
}

#[test]
fn a_closed_one_is_not_open(rt: HostRuntime) -> Result<(), Fail> {
    let mut registry = started(rt.alloc())?;
    take(&mut registry, 1);
    if registry.count() == 2 {
        registry.close(1)?;
    }
    assert!(rt; is_open_alone(&registry)?);
    assert!(rt; takes(&mut registry, 1, Job::Closing));
    Ok(())
}
