// How the keys of dicts are hashed.

ghost use Rattle.si_arena.specs.inner.Hashing as hashing;

use std::hash::{FoldHasher, Hasher};

/// Where a key's entry is looked for. Integers in a row lie in the same lines of the cache, as they are often looked up one
/// after another: 64 of them, from a multiple of 64 on, are mixed together, and lie in 16 neighbouring groups of a table, 4 in
/// each. The first of the 16 may be any group, so that no stride of keys makes all of them meet.
#[derive(Clone, Copy)]
pub struct KeyHasher {
    // what was written, but for an integer's last 6 bits
    folded: FoldHasher,
    // the last 6 bits of what was written last, where that is an integer
    in_run: Option<u8>,
}

impl Default for KeyHasher {
    ghost is_default = { hashing.IsInitial };

    fn default() -> KeyHasher {
        KeyHasher {
            folded: FoldHasher::default(),
            in_run: None,
        }
    }
}

impl Hasher for KeyHasher {
    ghost write = { hashing.write };

    ghost finish = { hashing.finish };

    #[inline(always)]
    fn finish(&self) -> u64 {
        let mixed = self.folded.finish();
        match self.in_run {
            Some(at) => {
                let at = at as u64;
                let group = (mixed % 0x100_0000 + at / 4) % 0x100_0000;
                let tag = mixed / 0x100_0000_0000 % 64 * 4 + at % 4;
                tag * 0x100_0000 + group
            }
            None => mixed,
        }
    }

    #[inline(always)]
    fn write(&mut self, bytes: &[u8]) {
        if bytes.len() == 8 {
            let number = u64::from_le_bytes([
                bytes[0], bytes[1], bytes[2], bytes[3], bytes[4], bytes[5], bytes[6], bytes[7],
            ]);
            self.folded.write_u64(number / 64);
            self.in_run = Some((number % 64) as u8);
        } else {
            self.folded.write(bytes);
            self.in_run = None;
        }
    }
}
