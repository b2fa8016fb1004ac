// The names of arguments that are passed by name.
ghost use Rattle.std.specs.Prelude.{◌≡◌, IfOk, map, string_bytes};

use si_plain::NoMemory;
use std::alloc::Global;
use std::marker::Model;

/// The names of the arguments of a call that are passed by name, in order.
#[derive(Debug, Drop)]
pub struct Keywords {
    names: Vec<String>,
}

impl Model for Keywords {
    ghost use Rattle.std.specs.Prelude.{List, ℕ, map, string_bytes};

    ghost Value = { List (List ℕ) };

    ghost view = { λ k. map string_bytes k.names.items };
}

impl Keywords {
    /// A copy of these names.
    pub(crate) fn of(alloc: Global, names: &[String]) -> Result<Keywords, NoMemory>
        ensures { IfOk result (λ k. k ≡ map string_bytes names.now) }
    {
        let mut copies = Vec::new(alloc);
        for name in names {
            copies.push(String::from_str(alloc, name.as_str())?)?;
        }
        Ok(Keywords { names: copies })
    }

    /// The names.
    pub fn as_slice(&self) -> &[String]
        ensures { map string_bytes result.now ≡ self.now }
    {
        self.names.as_slice()
    }
}
