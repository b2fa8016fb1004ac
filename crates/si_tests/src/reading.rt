// A text that is read, and texts that are refused, each in its line.

use si_parse::ParseFault;
use si_reading::{Reading, read};
use si_scope::Scoped;
use std::alloc::Global;
use std::test::Fail;

// The fault of a text that is refused.
fn fault(alloc: Global, text: &str) -> Option<ParseFault> {
    match read(alloc, text) {
        Ok(_) => None,
        Err(fault) => Some(fault),
    }
}

#[test]
fn a_text_is_read(rt: HostRuntime) -> Result<(), Fail> {
    let alloc = rt.alloc();
    let script = read(alloc, "while f(1):\n    break\n")?;
    let body = script.body();
    let shown = format!(in alloc; "{body:?}")?;
    assert_eq!(rt;
        shown.as_str(),
        "[While(While { test: Call(Name(\"f\"), CallNames { attribute: None, arguments: [] }, [Int(1)]), body: [Break(2)], last: [] })]"
    );
    Ok(())
}

#[test]
fn others_are_refused_in_a_line(rt: HostRuntime) {
    let alloc = rt.alloc();
    assert_eq!(rt;
        fault(alloc, "x = 1\nx = = 2\n"),
        Some(ParseFault::Syntax(2))
    );
    assert_eq!(rt;
        fault(alloc, "x = 1\nif x:\n    break\n"),
        Some(ParseFault::Syntax(3))
    );
}

// How many statements a script has, where there is one.
fn statements(script: Option<Scoped>) -> Option<usize> {
    match script {
        Some(script) => Some(script.body().len()),
        None => None,
    }
}

#[test]
fn a_reading_has_the_script_of_its_text_alone(rt: HostRuntime) -> Result<(), Fail> {
    let alloc = rt.alloc();
    let text = "x = 1\nprint(x)\n";
    let reading = Reading::new(alloc, text)?;
    assert_eq!(rt; statements(reading.script_of(text)), Some(2));
    let reading = Reading::new(alloc, text)?;
    assert_eq!(rt; statements(reading.script_of("x = 1\nprint(y)\n")), None);
    Ok(())
}
