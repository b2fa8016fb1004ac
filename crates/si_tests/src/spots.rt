// Of which statement the compiler notes that code is.

use crate::code::add;
use si_slots::{CodeTable, Spot};
use std::test::Fail;

// A text with each statement whose code is not one piece: functions come first, `elif` counts as a statement, and what
// follows the suite of a loop is the loop's.
const TEXT: &str = "
def f(x):
    if x:
        y = 1
    elif x == 2:
        y = 2
    else:
        y = 3
    return y
while f(1):
    pass
for i in ():
    f(i)
else:
    f = i
try:
    f
except f:
    pass
";

// The statements of that text, place by place, by the order in which their code is made.
const STATEMENTS: [u32; 34] = [
    0, 1, 1, // `if x`, `y = 1` and the jump after it
    2, 3, 3, // `elif x == 2`, `y = 2` and the jump after it
    4, // `y = 3`
    5, 5, // `return y`, and the return at the end
    6, // `def f`
    7, 7, 7, 7, 7, 7, // the entry of `while`, its test after a suite of no code, and its end
    9, 9, 9, // `for`, and its item is bound
    10, 10, 10, // `f(i)`
    9, // the next item of `for`
    11, // `f = i`
    12, 13, 13, 13, // the entry of `try`, `f`, and the end of its suite
    14, // `except f`
    15, 15, 15, 15, 15, // its suite of no code, the jumps after it, what raises again, and the end
];

#[test]
fn place_by_place(rt: HostRuntime) -> Result<(), Fail> {
    let mut table = CodeTable::new(rt.alloc());
    assert_eq!(rt; table.spot(0), None);
    add(rt.alloc(), &mut table, TEXT)?;
    assert_eq!(rt; table.len(), STATEMENTS.len());
    for (at, statement) in STATEMENTS.iter().enumerate() {
        let spot = Spot {
            text: 0,
            statement: *statement,
        };
        assert_eq!(rt; table.spot(at), Some(spot), "at {at}");
    }
    assert_eq!(rt; table.spot(table.len()), None);
    Ok(())
}

// A text of no statement has code of none, and the statements of the next one are numbered anew.
#[test]
fn texts_are_numbered(rt: HostRuntime) -> Result<(), Fail> {
    let mut table = CodeTable::new(rt.alloc());
    add(rt.alloc(), &mut table, "a = 1\nb = 2\n")?;
    add(rt.alloc(), &mut table, "")?;
    add(rt.alloc(), &mut table, "c = 3\nd = 4\n")?;
    let spots = [
        Some((0, 0)),
        Some((0, 1)),
        Some((0, 1)),
        None,
        Some((2, 0)),
        Some((2, 1)),
        Some((2, 1)),
    ];
    assert_eq!(rt; table.len(), spots.len());
    for (at, spot) in spots.iter().enumerate() {
        let spot = spot.map(|(text, statement)| Spot { text, statement });
        assert_eq!(rt; table.spot(at), spot, "at {at}");
    }
    Ok(())
}
