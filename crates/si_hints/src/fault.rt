// The first place that breaks a rule.

use crate::reason::Reason;
use std::alloc::{AllocError, AllocFailed};

// A place of a text, counted in bytes, and why what stands there is refused.
#[derive(Clone, Copy)]
pub(crate) struct Fault<'a> {
    pub(crate) at: usize,
    pub(crate) reason: Reason<'a>,
}

// Why going over a text ends.
#[derive(Clone, Copy)]
pub(crate) enum Stop<'a> {
    Fault(Fault<'a>),
    NoMemory,
}

impl Stop<'_> {
    // A reason at a place.
    pub(crate) fn at<'a>(at: usize, reason: Reason<'a>) -> Stop<'a> {
        Stop::Fault(Fault { at, reason })
    }
}

impl From<AllocError> for Stop<'_> {
    fn from(_: AllocError) -> Self {
        Stop::NoMemory
    }
}

impl<T: Drop> From<AllocFailed<T>> for Stop<'_> {
    fn from(_: AllocFailed<T>) -> Self {
        Stop::NoMemory
    }
}
