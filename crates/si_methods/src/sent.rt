// What goes to other interpreters: parcels and texts.

ghost use Rattle.std.specs.Prelude.{◌≡◌, ◌≤◌, ◌∷◌, [], length, Ok, IfOk, IfErr};
ghost use Rattle.si_semantics.specs.Value as pure;
ghost use Rattle.si_semantics.specs.Attributes as attributes;
ghost use Rattle.si_arena.specs.Memory.{value_of, all_of, pair_of, pairs_of, Lies, AllLie, PairLies, PairsLie};
ghost use Rattle.si_arena.specs.Texts.{characters_in};
ghost use Rattle.si_methods.specs.Passing.{IsSent, IsUnsent, AreSent, NamespaceLies, alone_of, paired_of, pairs_in, unsent_of};

use crate::shown::characters_of;
use si_arena::{Arena, Cause, Characters, Dict, Fault, Pair, Ref, Refusal};
use si_parcel::{BoxedText, Parcel};
use si_plain::{NoMemory, Text};
use si_share::{ShareFault, copy_out, text_of};
use std::alloc::{AllocError, Global};

/// The parcel as which a value is sent. `Refused(NotShareable)` where it is not shareable, or past the limits of parcels;
/// `NoMemory` where memory is refused.
pub fn sent(alloc: Global, arena: &Arena, value: Ref) -> Result<Parcel, Fault>
    requires { Lies arena.now value }
    ensures { IsSent (value_of arena.now value) result }
{
    match copy_out(alloc, arena, value) {
        Ok(parcel) => Ok(parcel),
        Err(fault) => Err(unsent(fault)),
    }
}

// Why a value is not sent.
fn unsent(fault: ShareFault) -> Fault
    ensures { result ≡ unsent_of fault }
{
    match fault {
        ShareFault::NotShareable => Fault::Raises(Cause::Refused(Refusal::NotShareable)),
        ShareFault::TooLarge => Fault::Raises(Cause::Refused(Refusal::NotShareable)),
        ShareFault::NoMemory => Fault::NoMemory,
    }
}

/// The keys of a dict with the parcels of their values, in order; none where there is no dict. `WrongType` where a key is no
/// str, `Refused(NotShareable)` where a value is not shareable, or past the limits of parcels: what comes first. `NoMemory`
/// where memory is refused.
pub fn namespace_sent(
    alloc: Global,
    arena: &Arena,
    namespace: Option<&Dict>,
) -> Result<Vec<(Text, Parcel)>, Fault>
    requires { NamespaceLies arena.now namespace }
    ensures ok { IfOk result (λ pairs. attributes.parcels_by_name (pairs_in arena.now namespace.entry) ≡ Ok pairs.items) }
    ensures err { IfErr result (λ fault. IsUnsent (pairs_in arena.now namespace.entry) fault) }
{
    match namespace {
        Some(dict) => dict_sent(alloc, arena, dict),
        None => Ok(Vec::new(alloc)),
    }
}

// The keys of a dict with the parcels of their values.
fn dict_sent(alloc: Global, arena: &Arena, dict: &Dict) -> Result<Vec<(Text, Parcel)>, Fault>
    requires { PairsLie arena.now dict.now }
    ensures ok { IfOk result (λ pairs. attributes.parcels_by_name (pairs_of arena.now dict.now) ≡ Ok pairs.items) }
    ensures err { IfErr result (λ fault. IsUnsent (pairs_of arena.now dict.now) fault) }
{
    let mut pairs = Vec::with_capacity(alloc, dict.len())?;
    for i in 0..dict.len() {
        let bind = pair_sent(alloc, arena, dict.pair(i))?;
        match pairs.push(bind) {
            Ok(()) => {}
            Err(_) => return Err(Fault::NoMemory),
        }
    }
    Ok(pairs)
}

// A key with the parcel of its value.
fn pair_sent(alloc: Global, arena: &Arena, pair: Pair) -> Result<(Text, Parcel), Fault>
    requires { PairLies arena.now pair }
    ensures { AreSent (pair_of arena.now pair ∷ []) (alone_of result) }
{
    match characters_of(arena, &pair.key) {
        Some(name) => named_sent(alloc, arena, name, pair.value),
        None => Err(Fault::Raises(Cause::WrongType)),
    }
}

// A name with the parcel of a value.
fn named_sent(
    alloc: Global,
    arena: &Arena,
    name: Characters<'_>,
    value: Ref,
) -> Result<(Text, Parcel), Fault>
    requires { Lies arena.now value }
    ensures { AreSent ((pure.Word (characters_in name.entry), value_of arena.now value) ∷ []) (alone_of result) }
{
    match sent(alloc, arena, value) {
        Ok(parcel) => paired(text_of(alloc, name), parcel),
        Err(fault) => Err(fault),
    }
}

// A name with a parcel, unless memory was refused for it.
fn paired(name: Result<Text, NoMemory>, parcel: Parcel) -> Result<(Text, Parcel), Fault>
    ensures { result ≡ paired_of name parcel }
{
    match name {
        Ok(name) => Ok((name, parcel)),
        Err(_) => Err(Fault::NoMemory),
    }
}

/// Names with the parcels of these values, in order. `Refused(NotShareable)` where a value is not shareable, or past the
/// limits of parcels; `NoMemory` where memory is refused.
pub fn all_sent(
    alloc: Global,
    arena: &Arena,
    names: &[Text],
    values: &[Ref],
) -> Result<Vec<(Text, Parcel)>, Fault>
    requires lie { AllLie arena.now values.now }
    requires named { length values.now ≤ length names.now }
    ensures ok { IfOk result (λ pairs. attributes.parcels_by_name (attributes.as_pairs (attributes.paired names.now (all_of arena.now values.now))) ≡ Ok pairs.items) }
    ensures err { IfErr result (λ fault. IsUnsent (attributes.as_pairs (attributes.paired names.now (all_of arena.now values.now))) fault) }
{
    let mut pairs = Vec::with_capacity(alloc, values.len())?;
    for i in 0..values.len() {
        let parcel = sent(alloc, arena, values[i])?;
        let name = names[i].clone()?;
        match pairs.push((name, parcel)) {
            Ok(()) => {}
            Err(_) => return Err(Fault::NoMemory),
        }
    }
    Ok(pairs)
}

/// These characters, as a text that goes into an action. `AllocError` where memory is refused.
pub fn boxed(alloc: Global, characters: Characters<'_>) -> Result<BoxedText, NoMemory>
    ensures { IfOk result (λ t. t ≡ characters_in characters.entry) }
{
    let text = text_of(alloc, characters)?;
    match BoxedText::new(alloc, text) {
        Ok(boxed) => Ok(boxed),
        Err(_) => Err(AllocError),
    }
}
