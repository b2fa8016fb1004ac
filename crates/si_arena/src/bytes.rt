// Bytes lie as the texts do whose characters have their numbers.

ghost use Rattle.std.specs.Prelude.{◌≡◌};
ghost use Rattle.si_arena.specs.Bytes as spec;

use crate::value::Ref;

/// The text whose characters have the numbers of bytes; of anything else None, which is no text.
pub(crate) fn text_of_bytes(bytes: Ref) -> Ref
    ensures { result ≡ spec.text_of_bytes bytes }
{
    match bytes {
        Ref::ShortBytes(short) => Ref::Short(short),
        Ref::Bytes { length, start } => Ref::Narrow { length, start },
        _ => Ref::None,
    }
}

/// The bytes with the numbers of a text's characters, where these are below 256; anything else as it is.
pub(crate) fn bytes_of_text(text: Ref) -> Ref
    ensures { result ≡ spec.bytes_of_text text }
{
    match text {
        Ref::Short(short) => Ref::ShortBytes(short),
        Ref::Narrow { length, start } => Ref::Bytes { length, start },
        other => other,
    }
}
