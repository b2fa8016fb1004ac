// What the compiler makes of scripts, instruction by instruction, and texts that share a table.

use si_emit::compile;
use si_parse::parse;
use si_plain::{BinaryOperator, UnaryOperator};
use si_scope::{Scoped, resolve};
use si_slots::{Aim, CodeTable, Constant, FullInstr, Routine, Source, Spot, Target};
use std::alloc::Global;
use std::test::Fail;

// The script of a text.
fn script(alloc: Global, text: &str) -> Result<Scoped, Fail> {
    Ok(resolve(alloc, parse(alloc, text)?)?)
}

// Adds the code of a text to a table, and tells where it begins.
pub(crate) fn add(alloc: Global, table: &mut CodeTable, text: &str) -> Result<usize, Fail> {
    let tree = script(alloc, text)?;
    Ok(compile(&tree, table)?)
}

// The first place at which the code is not this; none where it is.
fn first_other(table: &CodeTable, wanted: &[FullInstr]) -> Option<usize> {
    for (at, instr) in wanted.iter().enumerate() {
        if table.instruction(at) != Some(*instr) {
            return Some(at);
        }
    }
    None
}

// The name that has a slot.
fn name_of(table: &CodeTable, slot: usize) -> Option<&str> {
    table.name(u32::try_from(slot).ok()?)
}

// Whether these names have the first slots, and no others have one.
fn has_names(table: &CodeTable, wanted: &[&str]) -> bool {
    for (slot, name) in wanted.iter().enumerate() {
        if name_of(table, slot) != Some(*name) {
            return false;
        }
    }
    table.slots() == wanted.len() && name_of(table, wanted.len()).is_none()
}

// Whether the literals are these texts.
fn has_literals(table: &CodeTable, wanted: &[&str]) -> bool {
    for (literal, text) in table.literals().iter().zip(wanted.iter()) {
        if literal.name() != *text {
            return false;
        }
    }
    table.literals().len() == wanted.len()
}

// The function of a number.
fn routine_of(table: &CodeTable, number: usize) -> Option<Routine> {
    table.routine(u32::try_from(number).ok()?)
}

// Whether the functions are these.
fn has_routines(table: &CodeTable, wanted: &[Routine]) -> bool {
    for (number, routine) in wanted.iter().enumerate() {
        if routine_of(table, number) != Some(*routine) {
            return false;
        }
    }
    table.routines() == wanted.len() && routine_of(table, wanted.len()).is_none()
}

// The code of the text below.
const OF_TWO_LINES: [FullInstr; 8] = [
    FullInstr::Unary(
        UnaryOperator::Minus,
        Target::Temporary(0),
        Source::Global(0),
    ),
    FullInstr::Binary(
        BinaryOperator::Add,
        Target::Temporary(0),
        Source::Temporary(0),
        Source::Literal(Constant::Int(2)),
    ),
    FullInstr::StoreGlobal(0, Source::Temporary(0)),
    FullInstr::LoadGlobal(Target::Temporary(0), 1),
    // 'a' 'b' * 2 and -1 are computed
    FullInstr::Copy(Target::Temporary(1), Source::Literal(Constant::Placed(0))),
    FullInstr::Copy(Target::Temporary(2), Source::Literal(Constant::Int(-1))),
    FullInstr::Call(Target::Nowhere, 0, 2),
    FullInstr::Finish,
];

#[test]
fn instruction_by_instruction(rt: HostRuntime) -> Result<(), Fail> {
    let mut table = CodeTable::new(rt.alloc());
    assert!(rt; table.is_empty());
    let at = add(
        rt.alloc(),
        &mut table,
        "x = -x + 2\nprint('a' 'b' * 2, -1)\n",
    )?;
    assert!(rt; at == 0 && table.len() == OF_TWO_LINES.len());
    assert_eq!(rt; first_other(&table, &OF_TWO_LINES), None);
    assert!(rt; table.instruction(OF_TWO_LINES.len()).is_none());
    assert!(rt; has_names(&table, &["x", "print"]) && has_literals(&table, &["abab"]));
    table.facts();
    Ok(())
}

// The code of two texts, of which the second uses the names of the first.
const SHARED: [FullInstr; 7] = [
    FullInstr::StoreGlobal(0, Source::Global(1)),
    FullInstr::Finish,
    // b = a ** 'c'
    FullInstr::Binary(
        BinaryOperator::Power,
        Target::Temporary(0),
        Source::Global(0),
        Source::Literal(Constant::Placed(0)),
    ),
    FullInstr::StoreGlobal(1, Source::Temporary(0)),
    // b = b[a + 1]
    FullInstr::SubscriptSum(
        Target::Temporary(0),
        Source::Global(1),
        Source::Global(0),
        1,
    ),
    FullInstr::StoreGlobal(1, Source::Temporary(0)),
    FullInstr::Finish,
];

#[test]
fn texts_share_slots(rt: HostRuntime) -> Result<(), Fail> {
    let mut table = CodeTable::new(rt.alloc());
    let first = add(rt.alloc(), &mut table, "a = b\n")?;
    let second = add(rt.alloc(), &mut table, "b = a ** 'c'\nb = b[a + 1]\n")?;
    assert!(rt; (first, second) == (0, 2) && has_names(&table, &["a", "b"]));
    assert_eq!(rt; first_other(&table, &SHARED), None);
    Ok(())
}

// The code of the text below, where one integer stands in an instruction and one beside the code.
const OF_A_LONG_INTEGER: [FullInstr; 4] = [
    FullInstr::Binary(
        BinaryOperator::Subtract,
        Target::Temporary(0),
        Source::Literal(Constant::Int(32767)),
        Source::Global(0),
    ),
    FullInstr::Binary(
        BinaryOperator::Add,
        Target::Temporary(0),
        Source::Temporary(0),
        Source::Literal(Constant::Placed(0)),
    ),
    FullInstr::StoreGlobal(0, Source::Temporary(0)),
    FullInstr::Finish,
];

#[test]
fn integer_past_16_bits_has_a_place(rt: HostRuntime) -> Result<(), Fail> {
    let mut table = CodeTable::new(rt.alloc());
    add(rt.alloc(), &mut table, "a = 32767 - a + 32768\n")?;
    assert_eq!(rt; first_other(&table, &OF_A_LONG_INTEGER), None);
    assert!(rt; table.len() == OF_A_LONG_INTEGER.len() && has_literals(&table, &[""]));
    Ok(())
}

// Whether a table has the code of `a = 'x'` and no other.
fn has_one_text(table: &CodeTable) -> bool {
    table.len() == 2 && has_names(table, &["a"]) && has_literals(table, &["x"])
}

// For runs in which an allocation is refused: a table then is as it was, and serves again.
#[test]
fn refused_memory_leaves_no_half_of_a_try(rt: HostRuntime) -> Result<(), Fail> {
    let text =
        "try:\n    for b in range(2):\n        c = b\nexcept TypeError as d:\n    print('y')\nfinally:\n    a = 'z'\n";
    let second = script(rt.alloc(), text)?;
    let mut table = CodeTable::new(rt.alloc());
    add(rt.alloc(), &mut table, "a = 'x'\n")?;
    let at = match compile(&second, &mut table) {
        Ok(at) => at,
        Err(_) => {
            assert!(rt; has_one_text(&table));
            compile(&second, &mut table)?
        }
    };
    let (text, statement) = (1, 0);
    assert!(rt; at == 2 && table.spot(at) == Some(Spot { text, statement }));
    assert!(rt; has_literals(&table, &["x", "y", "z"]));
    Ok(())
}

// The code of `f`, of `g`, and of the statements, of the text below.
const TWO_FUNCTIONS: [FullInstr; 14] = [
    FullInstr::Copy(Target::Local(2), Source::Local(0)),
    FullInstr::Binary(
        BinaryOperator::Add,
        Target::Temporary(0),
        Source::Local(2),
        Source::Global(0),
    ),
    FullInstr::Return(Source::Temporary(0)),
    FullInstr::Return(Source::Literal(Constant::Nothing)),
    FullInstr::Return(Source::Literal(Constant::Nothing)),
    FullInstr::StoreGlobal(0, Source::Literal(Constant::Int(1))),
    FullInstr::StoreGlobal(1, Source::Literal(Constant::Function(0, 0))),
    FullInstr::LoadGlobal(Target::Temporary(0), 1),
    FullInstr::LoadGlobal(Target::Temporary(1), 0),
    FullInstr::Copy(Target::Temporary(2), Source::Literal(Constant::Int(2))),
    FullInstr::CallByName(Target::Nowhere, 0, 2),
    FullInstr::Copy(Target::Jump(false, Aim::Ahead(1)), Source::Global(0)),
    FullInstr::StoreGlobal(2, Source::Literal(Constant::Function(1, 1))),
    FullInstr::Finish,
];

// A function of two parameters and one more local, which is called by position and by name, and one in a branch.
#[test]
fn functions_come_first(rt: HostRuntime) -> Result<(), Fail> {
    let text =
        "x = 1\ndef f(a, b):\n    c = a\n    return c + x\nf(x, b=2)\nif x:\n    def g():\n        pass\n";
    let mut table = CodeTable::new(rt.alloc());
    let at = add(rt.alloc(), &mut table, text)?;
    assert!(rt; at == 5 && table.len() == TWO_FUNCTIONS.len());
    assert_eq!(rt; first_other(&table, &TWO_FUNCTIONS), None);
    let f = Routine {
        at: 0,
        parameters: 2,
        locals: 3,
    };
    let g = Routine {
        at: 4,
        parameters: 0,
        locals: 0,
    };
    assert!(rt; has_routines(&table, &[f, g]) && has_literals(&table, &["f", "g"]));
    Ok(())
}

// The code of `f` of the text below, where `a` and `b` are local.
const TARGETS: [FullInstr; 28] = [
    // a[b] = 1
    FullInstr::StoreItem(
        Source::Literal(Constant::Int(1)),
        Source::Local(0),
        Source::Local(1),
    ),
    // a[0], b = b
    FullInstr::Unpack(Source::Local(1), 0, 2),
    FullInstr::StoreItem(
        Source::Temporary(1),
        Source::Local(0),
        Source::Literal(Constant::Int(0)),
    ),
    FullInstr::Copy(Target::Local(1), Source::Temporary(0)),
    // a, b = b, a
    FullInstr::Copy(Target::Temporary(0), Source::Local(1)),
    FullInstr::Copy(Target::Temporary(1), Source::Local(0)),
    FullInstr::Reverse(0, 2),
    FullInstr::Copy(Target::Local(0), Source::Temporary(1)),
    FullInstr::Copy(Target::Local(1), Source::Temporary(0)),
    // a = b[1] = 2
    FullInstr::Copy(Target::Temporary(0), Source::Literal(Constant::Int(2))),
    FullInstr::Copy(Target::Temporary(1), Source::Kept(0)),
    FullInstr::Copy(Target::Local(0), Source::Temporary(1)),
    FullInstr::StoreItem(
        Source::Temporary(0),
        Source::Local(1),
        Source::Literal(Constant::Int(1)),
    ),
    // a[b] += 3
    FullInstr::Copy(Target::Temporary(0), Source::Local(0)),
    FullInstr::Copy(Target::Temporary(1), Source::Local(1)),
    FullInstr::Subscript(Target::Temporary(2), Source::Kept(0), Source::Kept(1)),
    FullInstr::AddInPlace(
        Target::Temporary(2),
        Source::Temporary(2),
        Source::Literal(Constant::Int(3)),
    ),
    FullInstr::StoreItem(
        Source::Temporary(2),
        Source::Temporary(0),
        Source::Temporary(1),
    ),
    // del a[b]
    FullInstr::DeleteItem(Source::Local(0), Source::Local(1)),
    // for a[0] in b: pass
    FullInstr::StartFor(1, 2, Source::Local(1)),
    FullInstr::StoreItem(
        Source::Temporary(0),
        Source::Local(0),
        Source::Literal(Constant::Int(0)),
    ),
    FullInstr::NextItem(Target::Temporary(0), 2),
    // [a, {b: 1}]
    FullInstr::Copy(Target::Temporary(0), Source::Local(0)),
    FullInstr::Copy(Target::Temporary(1), Source::Local(1)),
    FullInstr::Copy(Target::Temporary(2), Source::Literal(Constant::Int(1))),
    FullInstr::GatherDict(Target::Temporary(1), 1, 2),
    FullInstr::GatherList(Target::Nowhere, 0, 2),
    FullInstr::Return(Source::Literal(Constant::Nothing)),
];

#[test]
fn targets_are_bound_from_the_left_after_the_value(rt: HostRuntime) -> Result<(), Fail> {
    let text =
        "def f(a, b):\n a[b] = 1\n a[0], b = b\n a, b = b, a\n a = b[1] = 2\n a[b] += 3\n del a[b]\n for a[0] in b: pass\n [a, {b: 1}]\n";
    let mut table = CodeTable::new(rt.alloc());
    add(rt.alloc(), &mut table, text)?;
    assert_eq!(rt; first_other(&table, &TARGETS), None);
    Ok(())
}

// The code of two texts of one function each.
const OF_TWO_TEXTS: [FullInstr; 6] = [
    FullInstr::Return(Source::Literal(Constant::Nothing)),
    FullInstr::StoreGlobal(0, Source::Literal(Constant::Function(0, 0))),
    FullInstr::Finish,
    FullInstr::Return(Source::Literal(Constant::Nothing)),
    FullInstr::StoreGlobal(1, Source::Literal(Constant::Function(1, 1))),
    FullInstr::Finish,
];

// A second text's functions are numbered after those of the first.
#[test]
fn numbers_go_on(rt: HostRuntime) -> Result<(), Fail> {
    let mut table = CodeTable::new(rt.alloc());
    let first = add(rt.alloc(), &mut table, "def f():\n    pass\n")?;
    let second = add(rt.alloc(), &mut table, "def g():\n    pass\n")?;
    assert!(rt; (first, second) == (1, 4));
    assert_eq!(rt; first_other(&table, &OF_TWO_TEXTS), None);
    let [f, g] = [0, 3].map(|at| Routine {
        at,
        parameters: 0,
        locals: 0,
    });
    assert!(rt; has_routines(&table, &[f, g]));
    Ok(())
}
