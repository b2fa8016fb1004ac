// The names of the locals of a function.
ghost use Rattle.std.specs.Prelude.{◌≡◌, length, IfOk};
ghost use Rattle.si_slots.specs.Views.{text_at};

use si_plain::{Names, NoMemory};
use std::alloc::Global;
use std::marker::Model;

/// The names of the locals of a function, by their places.
#[derive(Drop)]
pub(crate) struct Frame {
    names: Vec<String>,
}

impl Model for Frame {
    ghost use Rattle.std.specs.Prelude.{List, ℕ, map, string_bytes};

    ghost Value = { List (List ℕ) };

    ghost view = { λ f. map string_bytes f.names.items };
}

impl Frame {
    /// A copy of these names, of which there are at most 2^32.
    pub(crate) fn of(alloc: Global, names: &Names) -> Result<Frame, NoMemory>
        ensures { IfOk result (λ frame. frame ≡ names.now) }
    {
        let mut copies = Vec::new(alloc);
        for slot in 0..names.len() {
            let Some(name) = names.get(slot as u32) else {
                unreachable!()
            };
            copies.push(String::from_str(alloc, name)?)?;
        }
        Ok(Frame { names: copies })
    }

    /// How many there are.
    pub(crate) fn len(&self) -> usize
        ensures { result ≡ length self.now }
    {
        self.names.len()
    }

    /// The one at a place; where there is none, the empty one.
    pub(crate) fn name(&self, place: u32) -> &str
        ensures { result.now ≡ text_at self.now place }
    {
        match self.names.get(place as usize) {
            Some(name) => name.as_str(),
            None => "",
        }
    }
}
