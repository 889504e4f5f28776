//! What is evaluated of a compiled query.

use std::alloc::Global;
use std::process::Abort;
use std::test::Fail;
use wsm_bytecode::{Program, SectionId};
use wsm_check::{Checked, check};
use wsm_compiler::compile;
use wsm_machine::{Inputs, Outcome, Ran, run_any};
use wsm_query::parse;
use wsm_record::{Cell, Value};

// Counts the records of keys a and b whose number goes into 10 more than once, in windows of 60.
const DIVIDES: &[u8] =
    b"KEYS a, b; FIELD n INT 0 .. 100; START 0; SKEW 100; LATENESS 10; RECORDS 1000; \
SELECT COUNT(*), SUM(n) WHERE n <> 0 AND 10 / n > 1 WINDOW FIXED 60 ACCUMULATING EMIT PANES;";

fn checked(alloc: Global, text: &[u8]) -> Result<Checked, Fail> {
    let query = parse(alloc, text)?;
    Ok(check(alloc, query).map_err(|(_, refusal)| refusal)?)
}

fn compiled(alloc: Global, text: &[u8]) -> Result<Program, Fail> {
    let checked = checked(alloc, text)?;
    Ok(compile(alloc, checked)?)
}

// Runs the WHERE of a program on a record of the key a.
fn selects(rt: &impl Abort, alloc: Global, program: &Program, n: i64) -> Ran {
    let inputs = Inputs {
        key: 0,
        values: &[Value::Int(n)],
        count: 0,
        accs: &[Value::Int(0)],
    };
    assert!(rt; inputs.fits(program));
    run_any(alloc, program, SectionId::Where, &inputs)
}

// A number, whether it is selected, and after how many instructions.
const SELECTED: [(i64, bool, u64); 3] = [(0, false, 3), (5, true, 8), (6, false, 8)];

// The run ended so.
fn ended(rt: &impl Abort, ran: &Ran, selected: bool, steps: u64) {
    assert_eq!(rt; ran.outcome, Outcome::Done);
    assert_eq!(rt; ran.stack.cells(), [Cell::Bool(selected)].as_slice());
    assert_eq!(rt; ran.steps, steps);
}

// The right side of AND divides by the number. It isn't evaluated where that is 0.
#[test]
fn a_side_that_is_not_needed_is_not_evaluated(rt: HostRuntime) -> Result<(), Fail> {
    let program = compiled(rt.alloc(), DIVIDES)?;
    for &(n, selected, steps) in &SELECTED {
        ended(&rt, &selects(&rt, rt.alloc(), &program, n), selected, steps);
    }
    Ok(())
}
