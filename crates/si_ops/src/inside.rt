// Which lists and dicts are being written.

ghost use Rattle.std.specs.Prelude.{◌≡◌};
ghost use Rattle.si_semantics.specs.Text.{is_inside};
ghost use Rattle.si_ops.specs.inner.Written.{addresses_of};

/// The addresses of the lists and dicts that are being written, the innermost first.
#[derive(Clone, Copy)]
pub enum Inside<'a> {
    /// None.
    Nothing,
    /// One, and those around it.
    Within(usize, &'a Inside<'a>),
}

/// Whether an address is one of these.
pub fn is_inside(address: usize, inside: &Inside) -> bool
    ensures { result ≡ is_inside address (addresses_of inside.now) }
{
    match inside {
        Inside::Nothing => false,
        Inside::Within(here, outer) => address == *here || is_inside(address, outer),
    }
}
