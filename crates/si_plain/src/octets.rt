// A bytes of a script: a row of bytes.

ghost use Rattle.std.specs.Prelude.{◌≡◌, IfOk};

use std::alloc::{AllocError, Global};
use std::boxed::Box;
use std::marker::Model;

/// A bytes of a script (Python Language Reference 3.14, 3.2.5.1 "Immutable sequences"): a row of bytes that never
/// changes. It is 8 bytes itself. A contract sees the list.
#[derive(Debug, Drop)]
pub struct Octets {
    bytes: Box<Vec<u8>>,
}

impl Model for Octets {
    ghost use Rattle.std.specs.Prelude.{ℕ, List};

    ghost Value = { List ℕ };

    ghost view = { λ o. o.bytes.value.items };
}

impl Octets {
    /// A copy of these bytes. `AllocError` where memory is refused.
    pub fn from_slice(alloc: Global, bytes: &[u8]) -> Result<Octets, AllocError>
        ensures { IfOk result (λ o. o ≡ bytes.now) }
    {
        let bytes = Box::new(alloc, bytes.to_vec(alloc)?)?;
        Ok(Octets { bytes })
    }

    /// These bytes. `AllocError` where memory is refused.
    pub fn new(alloc: Global, bytes: Vec<u8>) -> Result<Octets, AllocError>
        ensures { IfOk result (λ o. o ≡ bytes.items) }
    {
        let bytes = Box::new(alloc, bytes)?;
        Ok(Octets { bytes })
    }

    /// Its bytes, in order.
    pub fn as_slice(&self) -> &[u8]
        ensures { result.now ≡ self.now }
    {
        self.bytes.as_slice()
    }
}

impl Clone for Octets {
    ghost is_clone = { λ octets copy. copy ≡ octets };

    fn clone(&self) -> Result<Octets, AllocError> {
        let bytes = self.bytes.clone()?;
        Ok(Octets { bytes })
    }
}

impl PartialEq for Octets {
    ghost use Rattle.std.specs.Prelude.{bytes_eq};
    ghost use Rattle.std.specs.Cmp.{partial_equiv_from_equiv};
    ghost use Rattle.std.specs.Cmp.Lexicographic.{nat_list_eq_equiv};

    ghost eq = { bytes_eq };

    ghost laws = { partial_equiv_from_equiv nat_list_eq_equiv };

    fn eq(&self, other: &Octets) -> bool {
        self.bytes.as_slice() == other.bytes.as_slice()
    }
}

impl Eq for Octets {
    ghost use Rattle.std.specs.Cmp.Lexicographic.{nat_list_eq_equiv};

    ghost laws = { nat_list_eq_equiv };
}
