// What takes memory, and what stands where it is refused: the same call made again gives what it would have given.
//
// `cases/refuse_memory` refuses these tests each of their allocations in turn.

use crate::parcels::{
    action, answer, binds, boxed, is_action, is_answer, is_cloned, nested, raised, shows,
};
use si_parcel::{Binds, Ids, Job, Outcome};
use si_plain::NoMemory;
use std::alloc::Global;
use std::test::Fail;

// Whether a first call has given what it should, where it was given memory.
fn is_right(first: Result<bool, NoMemory>) -> bool {
    match first {
        Ok(right) => right,
        Err(_) => true,
    }
}

#[test]
fn refused_clone_of_a_parcel(rt: HostRuntime) -> Result<(), Fail> {
    let parcel = nested(rt.alloc())?;
    assert!(rt; is_right(is_cloned(rt.alloc(), &parcel)));
    assert!(rt; is_cloned(rt.alloc(), &parcel)?);
    Ok(())
}

#[test]
fn refused_show_of_a_parcel(rt: HostRuntime) -> Result<(), Fail> {
    let parcel = nested(rt.alloc())?;
    let wanted = "('a', (1, None), b'\\x00')";
    assert!(rt; is_right(shows(rt.alloc(), &parcel, wanted)));
    assert!(rt; shows(rt.alloc(), &parcel, wanted)?);
    Ok(())
}

#[test]
fn refused_clone_of_an_action(rt: HostRuntime) -> Result<(), Fail> {
    let prepare = action(rt.alloc(), 7)?;
    assert!(rt; is_right(is_action(rt.alloc(), &prepare, &prepare)));
    assert!(rt; is_action(rt.alloc(), &prepare, &prepare)?);
    Ok(())
}

#[test]
fn refused_clone_of_an_answer(rt: HostRuntime) -> Result<(), Fail> {
    let given = answer(rt.alloc(), 17)?;
    assert!(rt; is_right(is_answer(rt.alloc(), &given, &given)));
    assert!(rt; is_answer(rt.alloc(), &given, &given)?);
    Ok(())
}

// Whether a clone of a job is the same.
fn is_job(alloc: Global, job: &Job) -> Result<bool, NoMemory> {
    let clone = job.clone_job(alloc)?;
    Ok(clone == *job)
}

#[test]
fn refused_clone_of_a_job(rt: HostRuntime) -> Result<(), Fail> {
    let job = Job::Run(1, boxed(rt.alloc(), "print('a long text')")?);
    assert!(rt; is_right(is_job(rt.alloc(), &job)));
    assert!(rt; is_job(rt.alloc(), &job)?);
    Ok(())
}

// Whether a clone of an outcome is the same.
fn is_outcome(outcome: &Outcome) -> Result<bool, NoMemory> {
    let clone = outcome.clone_outcome()?;
    Ok(clone == *outcome)
}

#[test]
fn refused_clone_of_an_outcome(rt: HostRuntime) -> Result<(), Fail> {
    let outcome = raised(rt.alloc())?;
    assert!(rt; is_right(is_outcome(&outcome)));
    assert!(rt; is_outcome(&outcome)?);
    Ok(())
}

// Whether a clone of a list is the same.
fn are_ids(alloc: Global, ids: &Ids) -> Result<bool, NoMemory> {
    let clone = ids.clone_ids(alloc)?;
    Ok(clone == *ids)
}

#[test]
fn refused_clone_of_lists(rt: HostRuntime) -> Result<(), Fail> {
    let ids = Ids::new(vec![in rt.alloc(); 0, 2]?);
    assert!(rt; is_right(are_ids(rt.alloc(), &ids)));
    assert!(rt; are_ids(rt.alloc(), &ids)?);
    Ok(())
}

// Whether a clone of names and values is the same.
fn are_binds(alloc: Global, binds: &Binds) -> Result<bool, NoMemory> {
    let clone = binds.clone_binds(alloc)?;
    Ok(clone == *binds)
}

#[test]
fn refused_clone_of_names(rt: HostRuntime) -> Result<(), Fail> {
    let binds = binds(rt.alloc())?;
    assert!(rt; is_right(are_binds(rt.alloc(), &binds)));
    assert!(rt; are_binds(rt.alloc(), &binds)?);
    Ok(())
}
