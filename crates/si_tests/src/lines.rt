// In which lines statements stand, by the numbers that they have where code is made of them.

use si_emit::compile;
use si_hints::{Statements, statement_line};
use si_parse::parse;
use si_scope::resolve;
use si_slots::CodeTable;
use std::alloc::{AllocError, Global};
use std::test::Fail;

// The statements of texts, by number: of each its line, after the name of the function in which it stands.
const TEXTS: [(&str, &str); 9] = [
    ("", ""),
    ("x = 1\n\n# nothing\nprint(x)", "1 4 "),
    ("x = [\n    1,\n]; y = 2;\nz = 3\n", "1 3 4 "),
    (
        "def f(a):\n    b = a; c = b\n    if b:\n        return a\n    elif c: return b\n    else:\n        return {0: c}[0]\nx = f(1)\n",
        "f:2 f:2 f:3 f:4 f:5 f:5 f:7 1 8 ",
    ),
    (
        "try:\n    x\nexcept KeyError:\n    y\nexcept ValueError as e: z(); e\nelse: y\nfinally:\n    x\n",
        "1 2 3 4 5 5 5 6 8 ",
    ),
    (
        "for a, b in c: pass\nelse: d\nwhile not a:\n    break\nelse:\n    b\n",
        "1 1 2 3 4 6 ",
    ),
    (
        "def f(): return {1: 2}[1]\ndef g(a, b):\n    def_ = 1\n    for x in a:\n        b\nf(); g(1,\n  2)\n",
        "f:1 g:3 g:4 g:5 1 2 6 6 ",
    ),
    (
        "if a:\n    def f():\n        pass\n    b\nelse:\n    def g(): global c; c = 1\n    d\n",
        "f:3 g:6 g:6 1 2 4 6 7 ",
    ),
    (
        "def f():\r\n  if a:\r\n    while b: c\r\n  d\r(a if b else\n c)\nimport threading\n",
        "f:2 f:3 f:3 f:4 1 5 7 ",
    ),
];

// The statements of a text, as above.
fn shown(alloc: Global, statements: &Statements) -> Result<String, AllocError> {
    let mut all = String::new(alloc);
    for number in 0..u32::try_from(statements.len()).unwrap_or(0) {
        if let Some(found) = statements.line(number) {
            let line = found.line;
            let text = match found.function {
                Some(name) => format!(in alloc; "{name}:{line} ")?,
                None => format!(in alloc; "{line} ")?,
            };
            all.push_str(text.as_str())?;
        }
    }
    Ok(all)
}

#[test]
fn statements_have_lines(rt: HostRuntime) -> Result<(), Fail> {
    for (text, wanted) in TEXTS {
        let statements = Statements::of(rt.alloc(), text)?;
        assert_eq!(rt; shown(rt.alloc(), &statements)?.as_str(), wanted, "{text}");
        let after = u32::try_from(statements.len()).unwrap_or(0);
        assert!(rt; statement_line(rt.alloc(), text, after)?.is_none());
    }
    Ok(())
}

#[test]
fn statements_are_numbered_as_their_code_is_made(rt: HostRuntime) -> Result<(), Fail> {
    for (text, _) in TEXTS {
        let statements = Statements::of(rt.alloc(), text)?;
        let tree = resolve(rt.alloc(), parse(rt.alloc(), text)?)?;
        let mut table = CodeTable::new(rt.alloc());
        compile(&tree, &mut table)?;
        assert_eq!(rt;
            statements.len().saturating_sub(1),
            table.statement() as usize,
            "{text}"
        );
    }
    Ok(())
}
