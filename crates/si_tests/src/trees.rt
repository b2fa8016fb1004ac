// Worked cases: trees as Python's own `ast` shows them. Texts that are refused stand in `cases/texts.py`.

use si_parse::parse;
use si_syntax::{Expr, Stmt};
use std::alloc::Global;
use std::process::Abort;
use std::test::Fail;

// The statements of a text, printed.
fn shown(alloc: Global, text: &str) -> Result<String, Fail> {
    let module = parse(alloc, text)?;
    let body = module.body();
    Ok(format!(in alloc; "{body:?}")?)
}

// Asserts that a text is read as these statements.
fn expect(rt: &(impl Abort + AllocGlobal), text: &str, wanted: &str) -> Result<(), Fail> {
    assert_eq!(rt; shown(rt.alloc(), text)?.as_str(), wanted, "{text:?}");
    Ok(())
}

// Asserts of each text that it is read as the statements beside it.
fn expect_statements(rt: &(impl Abort + AllocGlobal), cases: &[(&str, &str)]) -> Result<(), Fail> {
    for (text, trees) in cases {
        let wanted = format!(in rt.alloc(); "[{trees}]")?;
        expect(rt, text, wanted.as_str())?;
    }
    Ok(())
}

// Asserts of each text that it is read as the one expression beside it.
fn expect_expressions(rt: &(impl Abort + AllocGlobal), cases: &[(&str, &str)]) -> Result<(), Fail> {
    for (text, tree) in cases {
        let wanted = format!(in rt.alloc(); "[Evaluate({tree})]")?;
        expect(rt, text, wanted.as_str())?;
    }
    Ok(())
}

#[test]
fn powers_bind_tighter_than_signs(rt: HostRuntime) -> Result<(), Fail> {
    let cases = [
        ("-2 ** 2", "Unary(Minus, Binary(Power, Int(2), Int(2)))"),
        ("2 ** -1", "Binary(Power, Int(2), Unary(Minus, Int(1)))"),
        (
            "2 ** 3 ** 2",
            "Binary(Power, Int(2), Binary(Power, Int(3), Int(2)))",
        ),
    ];
    expect_expressions(&rt, &cases)
}

#[test]
fn sums_and_products_go_to_the_left(rt: HostRuntime) -> Result<(), Fail> {
    let cases = [
        (
            "1 - 2 + 3",
            "Binary(Add, Binary(Subtract, Int(1), Int(2)), Int(3))",
        ),
        (
            "1 + 7 // 2 % 3",
            "Binary(Add, Int(1), Binary(Modulo, Binary(FloorDivide, Int(7), Int(2)), Int(3)))",
        ),
    ];
    expect_expressions(&rt, &cases)
}

#[test]
fn a_line_ends_in_lf_cr_or_cr_lf_and_the_last_one_may_lack_it(rt: HostRuntime) -> Result<(), Fail> {
    for text in [
        "x = 1\nf(x)\n",
        "x = 1\rf(x)\r",
        "x = 1\r\nf(x)\r\n",
        "x = 1\nf(x)",
        "x = 1; f(x)",
        "x = 1; f(x);\n",
        "x = 1;\nf(x);",
        "x = 1 # one; two\nf(x) # (",
        "\n  # first\nx = 1\n\n \t\nf( # here\n  x)\n",
    ] {
        expect(
            &rt,
            text,
            "[Assign(Assign { targets: [Named(\"x\")], value: Int(1) }), Evaluate(Call(Name(\"f\"), CallNames { attribute: None, arguments: [] }, [Name(\"x\")]))]",
        )?;
    }
    for text in ["", "\n", "# x", " \t"] {
        expect(&rt, text, "[]")?;
    }
    Ok(())
}

// Whether a text is one literal, of a str with this value.
fn is_literal(alloc: Global, text: &str, value: &str) -> Result<bool, Fail> {
    let module = parse(alloc, text)?;
    Ok(match module.body() {
        [Stmt::Evaluate(Expr::Str(text))] => text.as_str() == value,
        _ => false,
    })
}

#[test]
fn literals_have_the_values_of_python(rt: HostRuntime) -> Result<(), Fail> {
    let known = [
        ("'it\\'s'", "it's"),
        ("u\"\"", ""),
        ("''''''", ""),
        ("'''a''\r\nb\r\"'''", "a''\nb\n\""),
        ("\"\"\"\\\"\"\"\"", "\""),
        ("U'\u{e9}\\\u{e9}'", "\u{e9}\\\u{e9}"),
        (r"r'\n\'\x'", r"\n\'\x"),
        ("R'''\\\r\n'''", "\\\n"),
        (r#"'\\\'\"\a\b\f\n\r\t\v'"#, "\\'\"\x07\x08\x0c\n\r\t\x0b"),
        ("'a\\\r\nb\\\nc\\\rd'", "abcd"),
        (r"'\0\18\377\1234'", "\0\x018\u{ff}S4"),
        (r"'\x41f\u20aC0\U0010ffff1'", "Af\u{20ac}0\u{10ffff}1"),
        (r"'\q\8\('", r"\q\8\("),
    ];
    for (literal, value) in known {
        assert!(rt; is_literal(rt.alloc(), literal, value)?, "{literal:?}");
    }
    Ok(())
}

#[test]
fn operators_bind_as_in_python(rt: HostRuntime) -> Result<(), Fail> {
    let cases = [
        (
            "1 | 2 ^ 3 & 4 << 5 + ~6",
            "Binary(BitOr, Int(1), Binary(BitXor, Int(2), Binary(BitAnd, Int(3), Binary(ShiftLeft, Int(4), Binary(Add, Int(5), Unary(Invert, Int(6)))))))",
        ),
        (
            "1 >> 2 << 3",
            "Binary(ShiftLeft, Binary(ShiftRight, Int(1), Int(2)), Int(3))",
        ),
        (
            "not a or b and not c == d",
            "Boolean(Or, Unary(Not, Name(\"a\")), [Boolean(And, Name(\"b\"), [Unary(Not, Compare(Name(\"c\"), [(Equal, Name(\"d\"))]))])])",
        ),
        (
            "(a or b) or c or d",
            "Boolean(Or, Boolean(Or, Name(\"a\"), [Name(\"b\")]), [Name(\"c\"), Name(\"d\")])",
        ),
        (
            "a < b | 1 >= c is not None is True != d",
            "Compare(Name(\"a\"), [(Less, Binary(BitOr, Name(\"b\"), Int(1))), (GreaterEqual, Name(\"c\")), (IsNot, Nothing), (Is, Truth(true)), (NotEqual, Name(\"d\"))])",
        ),
        (
            "a in b not in c == d",
            "Compare(Name(\"a\"), [(In, Name(\"b\")), (NotIn, Name(\"c\")), (Equal, Name(\"d\"))])",
        ),
        (
            "not a not in b | 1",
            "Unary(Not, Compare(Name(\"a\"), [(NotIn, Binary(BitOr, Name(\"b\"), Int(1)))]))",
        ),
        (
            "-a[0] ** b(1)[c]",
            "Unary(Minus, Binary(Power, Subscript(Name(\"a\"), Int(0)), Subscript(Call(Name(\"b\"), CallNames { attribute: None, arguments: [] }, [Int(1)]), Name(\"c\"))))",
        ),
        (
            "a if b or c else d if False else e",
            "Conditional(Boolean(Or, Name(\"b\"), [Name(\"c\")]), Name(\"a\"), Conditional(Truth(false), Name(\"d\"), Name(\"e\")))",
        ),
    ];
    expect_expressions(&rt, &cases)
}

#[test]
fn tuples_are_displayed_in_brackets(rt: HostRuntime) -> Result<(), Fail> {
    let cases = [
        ("()", "Tuple([])"),
        ("(1,)", "Tuple([Int(1)])"),
        ("(1, 2)", "Tuple([Int(1), Int(2)])"),
        ("(1, 2, 3,)", "Tuple([Int(1), Int(2), Int(3)])"),
        ("((1))", "Int(1)"),
        ("(1, (2,),)", "Tuple([Int(1), Tuple([Int(2)])])"),
        (
            "((), ((1), 2))",
            "Tuple([Tuple([]), Tuple([Int(1), Int(2)])])",
        ),
        (
            "(a, b)[0] + f((c,), d)",
            "Binary(Add, Subscript(Tuple([Name(\"a\"), Name(\"b\")]), Int(0)), Call(Name(\"f\"), CallNames { attribute: None, arguments: [] }, [Tuple([Name(\"c\")]), Name(\"d\")]))",
        ),
    ];
    expect_expressions(&rt, &cases)
}

#[test]
fn tuples_may_stand_without_brackets(rt: HostRuntime) -> Result<(), Fail> {
    let cases = [
        ("1,", "Evaluate(Tuple([Int(1)]))"),
        (
            "1, 2,; 3",
            "Evaluate(Tuple([Int(1), Int(2)])), Evaluate(Int(3))",
        ),
        (
            "x = (), 1",
            "Assign(Assign { targets: [Named(\"x\")], value: Tuple([Tuple([]), Int(1)]) })",
        ),
        (
            "x += 1,",
            "Augment(Augment { name: \"x\", operator: Add, value: Tuple([Int(1)]) })",
        ),
        (
            "return a, b",
            "Return(1, Some(Tuple([Name(\"a\"), Name(\"b\")])))",
        ),
        (
            "for x in a, b,: c, d",
            "For(For { target: Named(\"x\"), items: Tuple([Name(\"a\"), Name(\"b\")]), body: [Evaluate(Tuple([Name(\"c\"), Name(\"d\")]))], last: [] })",
        ),
    ];
    expect_statements(&rt, &cases)
}

#[test]
fn lists_and_dicts_are_displayed_with_their_items_in_order(rt: HostRuntime) -> Result<(), Fail> {
    let cases = [
        ("[]", "ListDisplay([])"),
        ("[1]", "ListDisplay([Int(1)])"),
        (
            "[1, [2], (3,),]",
            "ListDisplay([Int(1), ListDisplay([Int(2)]), Tuple([Int(3)])])",
        ),
        ("{}", "DictDisplay([])"),
        (
            "{a: 1, b if c else d: {},}",
            "DictDisplay([Name(\"a\"), Int(1), Conditional(Name(\"c\"), Name(\"b\"), Name(\"d\")), DictDisplay([])])",
        ),
        (
            "[a][0][b]",
            "Subscript(Subscript(ListDisplay([Name(\"a\")]), Int(0)), Name(\"b\"))",
        ),
    ];
    expect_expressions(&rt, &cases)
}

#[test]
fn targets_are_items_and_rows(rt: HostRuntime) -> Result<(), Fail> {
    let cases = [
        (
            "a, b[0] = [c] = {1: 2, 3: [4]}",
            "Assign(Assign { targets: [Unpack([Named(\"a\"), Item(Item { object: Name(\"b\"), index: Int(0) })]), Unpack([Named(\"c\")])], value: DictDisplay([Int(1), Int(2), Int(3), ListDisplay([Int(4)])]) })",
        ),
        (
            "(x[0]) -= []",
            "AugmentItem(AugmentItem { item: Item { object: Name(\"x\"), index: Int(0) }, operator: Subtract, value: ListDisplay([]) })",
        ),
        (
            "del x[0][1]",
            "Delete(Item { object: Subscript(Name(\"x\"), Int(0)), index: Int(1) })",
        ),
        (
            "for a, (b,) in c: pass",
            "For(For { target: Unpack([Named(\"a\"), Unpack([Named(\"b\")])]), items: Name(\"c\"), body: [Pass], last: [] })",
        ),
    ];
    expect_statements(&rt, &cases)
}

#[test]
fn statements_of_branches_and_loops(rt: HostRuntime) -> Result<(), Fail> {
    let cases = [
        (
            "x += 1; (y) **= 2; pass",
            "Augment(Augment { name: \"x\", operator: Add, value: Int(1) }), Augment(Augment { name: \"y\", operator: Power, value: Int(2) }), Pass",
        ),
        (
            "if a: b",
            "If(If { first: Branch { test: Name(\"a\"), body: [Evaluate(Name(\"b\"))] }, elifs: [], last: [] })",
        ),
        (
            "if a: b\nelif c: d; pass\nelif e: break\nelse: continue\n",
            "If(If { first: Branch { test: Name(\"a\"), body: [Evaluate(Name(\"b\"))] }, elifs: [Branch { test: Name(\"c\"), body: [Evaluate(Name(\"d\")), Pass] }, Branch { test: Name(\"e\"), body: [Break(3)] }], last: [Continue(4)] })",
        ),
        (
            "while a:\n  if b:\n    break\n\n    # c\n  else: continue\nd",
            "While(While { test: Name(\"a\"), body: [If(If { first: Branch { test: Name(\"b\"), body: [Break(3)] }, elifs: [], last: [Continue(6)] })], last: [] }), Evaluate(Name(\"d\"))",
        ),
        (
            "if a:\n if b: c\nelse:\n d",
            "If(If { first: Branch { test: Name(\"a\"), body: [If(If { first: Branch { test: Name(\"b\"), body: [Evaluate(Name(\"c\"))] }, elifs: [], last: [] })] }, elifs: [], last: [Evaluate(Name(\"d\"))] })",
        ),
    ];
    expect_statements(&rt, &cases)
}

#[test]
fn loops_may_have_an_else(rt: HostRuntime) -> Result<(), Fail> {
    let cases = [
        (
            "while a: b\nelse: c",
            "While(While { test: Name(\"a\"), body: [Evaluate(Name(\"b\"))], last: [Evaluate(Name(\"c\"))] })",
        ),
        (
            "for x in y: z",
            "For(For { target: Named(\"x\"), items: Name(\"y\"), body: [Evaluate(Name(\"z\"))], last: [] })",
        ),
        (
            "for ((x)) in f(1) + 2:\n break\nelse:\n pass\n",
            "For(For { target: Named(\"x\"), items: Binary(Add, Call(Name(\"f\"), CallNames { attribute: None, arguments: [] }, [Int(1)]), Int(2)), body: [Break(2)], last: [Pass] })",
        ),
        (
            "for(x)in a if b else c: pass",
            "For(For { target: Named(\"x\"), items: Conditional(Name(\"b\"), Name(\"a\"), Name(\"c\")), body: [Pass], last: [] })",
        ),
        (
            "if a:\n while b:\n  for c in d: e\n else: f\nelse: g",
            "If(If { first: Branch { test: Name(\"a\"), body: [While(While { test: Name(\"b\"), body: [For(For { target: Named(\"c\"), items: Name(\"d\"), body: [Evaluate(Name(\"e\"))], last: [] })], last: [Evaluate(Name(\"f\"))] })] }, elifs: [], last: [Evaluate(Name(\"g\"))] })",
        ),
    ];
    expect_statements(&rt, &cases)
}

#[test]
fn clauses_are_read_in_their_order(rt: HostRuntime) -> Result<(), Fail> {
    let cases = [
        (
            "try: a\nexcept: b",
            "Try(Try { body: [Evaluate(Name(\"a\"))], clauses: [Clause { value: None, name: None, body: [Evaluate(Name(\"b\"))] }], last: [] })",
        ),
        (
            "try: pass\nexcept E: a\nexcept F as e:\n b\n c\nexcept:\n pass\nelse: d",
            "Try(Try { body: [Pass], clauses: [Clause { value: Some(Name(\"E\")), name: None, body: [Evaluate(Name(\"a\"))] }, Clause { value: Some(Name(\"F\")), name: Some(\"e\"), body: [Evaluate(Name(\"b\")), Evaluate(Name(\"c\"))] }, Clause { value: None, name: None, body: [Pass] }], last: [Evaluate(Name(\"d\"))] })",
        ),
        (
            "try: pass\nexcept E or f(1) as e: pass",
            "Try(Try { body: [Pass], clauses: [Clause { value: Some(Boolean(Or, Name(\"E\"), [Call(Name(\"f\"), CallNames { attribute: None, arguments: [] }, [Int(1)])])), name: Some(\"e\"), body: [Pass] }], last: [] })",
        ),
        (
            "try: pass\nexcept (E): pass\na",
            "Try(Try { body: [Pass], clauses: [Clause { value: Some(Name(\"E\")), name: None, body: [Pass] }], last: [] }), Evaluate(Name(\"a\"))",
        ),
        (
            "try:\n try: a\n except: b\nexcept: c",
            "Try(Try { body: [Try(Try { body: [Evaluate(Name(\"a\"))], clauses: [Clause { value: None, name: None, body: [Evaluate(Name(\"b\"))] }], last: [] })], clauses: [Clause { value: None, name: None, body: [Evaluate(Name(\"c\"))] }], last: [] })",
        ),
    ];
    expect_statements(&rt, &cases)
}

#[test]
fn arguments_are_passed_by_place_or_by_name(rt: HostRuntime) -> Result<(), Fail> {
    let alloc = rt.alloc();
    for (arguments, names, trees) in [
        (
            "a, b=1, c=2",
            "[\"b\", \"c\"]",
            "[Name(\"a\"), Int(1), Int(2)]",
        ),
        ("a=1,", "[\"a\"]", "[Int(1)]"),
        ("x == 1", "[]", "[Compare(Name(\"x\"), [(Equal, Int(1))])]"),
        ("(a), a=a", "[\"a\"]", "[Name(\"a\"), Name(\"a\")]"),
    ] {
        let text = format!(in alloc; "f({arguments})")?;
        let wanted = format!(in alloc;
            "[Evaluate(Call(Name(\"f\"), CallNames {{ attribute: None, arguments: {names} }}, {trees}))]"
        )?;
        expect(&rt, text.as_str(), wanted.as_str())?;
    }
    Ok(())
}

#[test]
fn functions_are_read_with_their_lines(rt: HostRuntime) -> Result<(), Fail> {
    let cases = [
        (
            "def f(): pass",
            "Define(Define { line: 1, name: \"f\", parameters: [], body: [Pass] })",
        ),
        (
            "def f(a, b,): return a",
            "Define(Define { line: 1, name: \"f\", parameters: [\"a\", \"b\"], body: [Return(1, Some(Name(\"a\")))] })",
        ),
        (
            "x\n\ndef f(a):\n  global b, c\n  return;\n",
            "Evaluate(Name(\"x\")), Define(Define { line: 3, name: \"f\", parameters: [\"a\"], body: [Global(4, [\"b\", \"c\"]), Return(5, None)] })",
        ),
        ("global a", "Global(1, [\"a\"])"),
        (
            "return; return 1",
            "Return(1, None), Return(1, Some(Int(1)))",
        ),
        (
            "def f():\n def g(a): break\n return g(\n  a=1)",
            "Define(Define { line: 1, name: \"f\", parameters: [], body: [Define(Define { line: 2, name: \"g\", parameters: [\"a\"], body: [Break(2)] }), Return(3, Some(Call(Name(\"g\"), CallNames { attribute: None, arguments: [\"a\"] }, [Int(1)])))] })",
        ),
    ];
    expect_statements(&rt, &cases)
}
