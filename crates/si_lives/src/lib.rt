// What further answers change in an interpreter's life: a law beside those of `si_semantics`, in `specs/Laws.antt`, which
// `laws` states. Its proof goes over the whole meaning of scripts; it stands apart from the definitions, so that nothing
// waits for it.
#![tactic(auto)]

pub mod laws;
