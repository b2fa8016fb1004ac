// Numbers of interpreters.

ghost use Rattle.std.specs.Prelude.{◌≡◌, IfOk};

use std::alloc::{AllocError, Global};
use std::marker::Model;

/// Interpreters by their numbers. A contract sees the list.
#[derive(Debug, Drop)]
pub struct Ids {
    ids: Vec<u32>,
}

impl Model for Ids {
    ghost use Rattle.std.specs.Prelude.{ℕ, List};

    ghost Value = { List ℕ };

    ghost view = { λ i. i.ids.items };
}

impl Ids {
    /// These numbers.
    pub fn new(ids: Vec<u32>) -> Ids
        ensures { result ≡ ids.items }
    {
        Ids { ids }
    }

    /// Its numbers.
    pub fn as_slice(&self) -> &[u32]
        ensures { result.now ≡ self.now }
    {
        self.ids.as_slice()
    }

    /// Its numbers, given back.
    pub fn into_ids(self) -> Vec<u32>
        ensures { result.items ≡ self }
    {
        self.ids
    }

    /// The same numbers again. `AllocError` where memory is refused.
    pub fn clone_ids(&self, alloc: Global) -> Result<Ids, AllocError>
        ensures { IfOk result (λ i. i ≡ self.now) }
    {
        let ids = self.ids.as_slice().to_vec(alloc)?;
        Ok(Ids { ids })
    }
}

impl PartialEq for Ids {
    ghost use Rattle.std.specs.Prelude.{bytes_eq};
    ghost use Rattle.std.specs.Cmp.{partial_equiv_from_equiv};
    ghost use Rattle.std.specs.Cmp.Lexicographic.{nat_list_eq_equiv};

    ghost eq = { bytes_eq };

    ghost laws = { partial_equiv_from_equiv nat_list_eq_equiv };

    /// Whether the two are the same.
    fn eq(&self, other: &Ids) -> bool {
        self.ids.as_slice() == other.ids.as_slice()
    }
}

impl Eq for Ids {
    ghost use Rattle.std.specs.Cmp.Lexicographic.{nat_list_eq_equiv};

    ghost laws = { nat_list_eq_equiv };
}
