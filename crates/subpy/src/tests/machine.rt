// A machine that was given no text.

use si_steps::Machine;
use std::test::Fail;

#[test]
fn a_machine_without_code_is_idle(rt: HostRuntime) -> Result<(), Fail> {
    let mut machine = Machine::new(rt.alloc(), 0);
    assert!(rt; !machine.is_running());
    assert_eq!(rt; machine.printed(), "");
    assert!(rt; machine.take_printed().is_empty());
    Ok(())
}
