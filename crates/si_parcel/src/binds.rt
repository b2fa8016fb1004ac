// Names with their parcels.

ghost use Rattle.std.specs.Prelude.{◌≡◌, ◌↔◌, IfOk, IfErr, IsTrue};

use crate::parcel::Parcel;
use si_plain::Text;
use std::alloc::{AllocError, AllocFailed, Global};
use std::boxed::Box;
use std::marker::Model;

/// Names to bind, each with its parcel, in order: 8 bytes itself. A contract sees the list of the pairs.
#[derive(Drop)]
pub struct Binds {
    pairs: Box<Vec<(Text, Parcel)>>,
}

impl Model for Binds {
    ghost use Rattle.std.specs.Prelude.{ℕ, List};
    ghost use Rattle.si_semantics.specs.Parcels.{Tree};
    ghost use Rattle.si_parcel.specs.TreeCode.{binds_code};

    ghost Value = { List (List ℕ × Tree) };

    ghost coded = { binds_code };

    ghost view = { λ b. b.pairs.value.items };
}

impl Binds {
    /// These pairs. Where memory is refused, they come back.
    pub fn new(
        alloc: Global,
        pairs: Vec<(Text, Parcel)>,
    ) -> Result<Binds, AllocFailed<Vec<(Text, Parcel)>>>
        ensures pairs { IfOk result (λ b. b ≡ pairs.items) }
        ensures back { IfErr result (λ e. e.value ≡ pairs) }
    {
        let pairs = Box::new(alloc, pairs)?;
        Ok(Binds { pairs })
    }

    /// Its pairs.
    pub fn as_slice(&self) -> &[(Text, Parcel)]
        ensures { result.now ≡ self.now }
    {
        self.pairs.as_slice()
    }

    /// Its pairs, given back.
    pub fn into_pairs(self) -> Vec<(Text, Parcel)>
        ensures { result.items ≡ self }
    {
        Box::into_inner(self.pairs)
    }

    /// The same pairs again. `AllocError` where memory is refused.
    pub fn clone_binds(&self, alloc: Global) -> Result<Binds, AllocError>
        ensures { IfOk result (λ b. b ≡ self.now) }
    {
        let mut pairs = Vec::with_capacity(alloc, self.pairs.len())?;
        'pairs: for (name, parcel) in self.as_slice() {
            let name = name.clone()?;
            let parcel = parcel.clone_parcel(alloc)?;
            pairs.push((name, parcel))?;
        }
        let pairs = Box::new(alloc, pairs)?;
        Ok(Binds { pairs })
    }

    // Whether the two are the same pairs in the same order.
    pub(crate) fn same(&self, other: &Binds) -> bool
        ensures { IsTrue result ↔ (self.now ≡ other.now) }
    {
        let pairs = self.pairs.as_slice();
        let others = other.pairs.as_slice();
        let len = pairs.len();
        if len != others.len() {
            return false;
        }
        'pairs: for i in 0..len {
            if !same_pair(&pairs[i], &others[i]) {
                return false;
            }
        }
        true
    }
}

impl PartialEq for Binds {
    ghost use Rattle.si_parcel.specs.Same.{same_by, same_by_per};
    ghost use Rattle.si_parcel.specs.TreeCode.{binds_code};

    ghost eq = { same_by binds_code };

    ghost laws = { same_by_per binds_code };

    /// Whether the two are the same.
    fn eq(&self, other: &Binds) -> bool
        ensures eq { result ≡ same_by binds_code self.now other.now }
        ensures same { IsTrue result ↔ (self.now ≡ other.now) }
    {
        self.same(other)
    }
}

impl Eq for Binds {
    ghost use Rattle.si_parcel.specs.Same.{same_by_equiv};
    ghost use Rattle.si_parcel.specs.TreeCode.{binds_code};

    ghost laws = { same_by_equiv binds_code };
}

// Whether two names and their parcels are the same.
fn same_pair(pair: &(Text, Parcel), other: &(Text, Parcel)) -> bool
    ensures { IsTrue result ↔ (pair.now ≡ other.now) }
{
    pair.0 == other.0 && pair.1.same(&other.1)
}
