// The locals of functions. Where statements may stand is tried in `cases/texts.py`.

use si_parse::parse;
use si_scope::resolve;
use std::test::Fail;

#[test]
fn locals_are_parameters_and_what_is_bound(rt: HostRuntime) -> Result<(), Fail> {
    let script =
        "def f(b, a):\n global g\n g = 1\n x = a\n b = y\n while x: z = 1\n x += 1\nif 1:\n def h():\n  w = 1\n";
    let scoped = resolve(rt.alloc(), parse(rt.alloc(), script)?)?;
    let cases = [
        (0, 0, Some("b")),
        (0, 1, Some("a")),
        (0, 2, Some("x")),
        (0, 3, Some("z")),
        (0, 4, None),
        (1, 0, Some("w")),
        (1, 1, None),
        (2, 0, None),
    ];
    for (function, slot, want) in cases {
        let name = match scoped.locals(function) {
            Some(names) => names.get(slot),
            None => None,
        };
        assert_eq!(rt; name, want, "slot {slot} of {function}");
    }
    assert_eq!(rt; scoped.locals(2).is_none(), true);
    assert_eq!(rt; scoped.body().len(), 2);
    Ok(())
}

#[test]
fn objects_and_indices_of_targets_are_used_and_not_bound(rt: HostRuntime) -> Result<(), Fail> {
    let script =
        "def f(a):\n [b, c[d]] = a\n e = g[0] = 1\n h[0] += 2\n del i[0]\n for j, (k, l[m]) in n: pass\n";
    let scoped = resolve(rt.alloc(), parse(rt.alloc(), script)?)?;
    let Some(names) = scoped.locals(0) else {
        panic!(rt; "one function")
    };
    assert_eq!(rt; names.len(), 5);
    for (slot, want) in [(0, "a"), (1, "b"), (2, "e"), (3, "j"), (4, "k")] {
        assert_eq!(rt; names.get(slot), Some(want), "slot {slot}");
    }
    Ok(())
}
