//! What is said of programs.

use crate::devices::TakesFew;
use crate::runs::{BASE, Case, PROMPT, text_of};
use std::alloc::Global;
use std::process::Abort;
use std::test::Fail;
use wsm::{End, Guarded, compile_text, judge, migrate};
use wsm_bytecode::{Program, SectionId, decode};
use wsm_given::{BASE_HEADER_OF_VERSION_1, BASE_PROGRAM, SECTIONS};
use wsm_machine::{Inputs, Outcome, Ran, Trap, run_any};
use wsm_record::Value;

const WHERE: &[u8] = &[2, 0, 2, 1, 0x50];

const UPDATE: &[u8] = &[3, 0, 4, 0, 0x40, 0, 0x50];

const FIRE: &[u8] = &[4, 0, 7, 6, 0, 2, 1, 0x50];

// PUSHI 1, PUSHI 0, DIV, RET
const BY_ZERO: &[u8] = b"\x04\0\x01\x01\0\0\0\0\0\0\0\x01\0\0\0\0\0\0\0\0\x13\x50";

const LISTING: &str = "where 0 PUSHB 1
where 1 RET
update 0 FIELD 0
update 1 FOLD 0
update 2 RET
fire 0 COUNT
fire 1 ACC 0
fire 2 PUSHB 1
fire 3 RET
accepted,5,4,6
";

// The bytes of a program with these sections.
fn program(alloc: Global, sections: [&[u8]; 3]) -> Result<Vec<u8>, Fail> {
    let header = BASE_PROGRAM.get(..SECTIONS).ok_or("no header")?;
    let mut bytes = header.to_vec(alloc)?;
    for section in sections {
        bytes.extend_from_slice(section)?;
    }
    Ok(bytes)
}

#[test]
fn a_program_is_explained(rt: HostRuntime) -> Result<(), Fail> {
    let program = program(rt.alloc(), [WHERE, UPDATE, FIRE])?;
    let mut out = Guarded::new(Vec::new(rt.alloc()));
    assert_eq!(rt; judge(rt.alloc(), &program, true, &mut out), Ok(true));
    assert_eq!(rt; out.into_writer().as_slice(), LISTING.as_bytes());
    Ok(())
}

#[test]
fn a_program_is_written_in_version_2(rt: HostRuntime) -> Result<(), Fail> {
    let mut old = BASE_HEADER_OF_VERSION_1.to_vec(rt.alloc())?;
    for section in [WHERE, UPDATE, FIRE] {
        old.extend_from_slice(section)?;
    }
    let new = program(rt.alloc(), [WHERE, UPDATE, FIRE])?;
    assert_eq!(rt; old.len(), 139);
    assert_eq!(rt; migrate(rt.alloc(), &old)?.as_slice(), new.as_slice());
    assert_eq!(rt; migrate(rt.alloc(), &new)?.as_slice(), new.as_slice());
    Ok(())
}

fn decoded(alloc: Global, sections: [&[u8]; 3]) -> Result<Program, Fail> {
    let bytes = program(alloc, sections)?;
    Ok(decode(alloc, &bytes)?)
}

// The run was trapped at its third instruction.
fn is_trapped(rt: &impl Abort, ran: &Ran) {
    assert_eq!(rt; ran.outcome, Outcome::Trap(Trap::ZeroDivisor));
    assert_eq!(rt; ran.steps, 3);
}

// Without the verifier the section runs until it divides.
#[test]
fn a_division_by_zero_is_trapped(rt: HostRuntime) -> Result<(), Fail> {
    let program = decoded(rt.alloc(), [WHERE, UPDATE, BY_ZERO])?;
    let inputs = Inputs {
        key: 0,
        values: &[Value::Int(7)],
        count: 1,
        accs: &[Value::Int(7)],
    };
    assert!(rt; inputs.fits(&program));
    is_trapped(
        &rt,
        &run_any(rt.alloc(), &program, SectionId::Fire, &inputs),
    );
    Ok(())
}

#[test]
fn a_failed_device_took_a_beginning(rt: HostRuntime) -> Result<(), Fail> {
    let program = program(rt.alloc(), [WHERE, UPDATE, FIRE])?;
    let taken = Vec::new(rt.alloc());
    let mut out = Guarded::new(TakesFew { taken, left: 10 });
    let end = judge(rt.alloc(), &program, true, &mut out);
    assert_eq!(rt; end, Err(End::WriteFailed));
    assert_eq!(rt;
        out.into_writer().taken.as_slice(),
        b"where 0 PU".as_slice()
    );
    Ok(())
}

// The line of the judgement of a query's program.
fn judgement(alloc: Global, text: &str) -> Result<Vec<u8>, Fail> {
    let program = compile_text(alloc, text.as_bytes())?;
    let mut out = Guarded::new(Vec::new(alloc));
    judge(alloc, &program, false, &mut out)?;
    Ok(out.into_writer())
}

const JUDGED: [Case; 11] = [
    Case {
        want: "accepted,5,4,6\n",
        ..BASE
    },
    Case {
        columns: "SUM(n) / COUNT(*)",
        want: "accepted,5,5,6\n",
        ..BASE
    },
    Case {
        window: "SLIDING 60 EVERY 25 ACCUMULATING",
        want: "accepted,11,4,14\n",
        ..BASE
    },
    Case {
        clock: PROMPT,
        window: "SESSION 30 ACCUMULATING",
        want: "accepted,6,4,10\n",
        ..BASE
    },
    Case {
        columns: "100 / SUM(n)",
        want: "rejected,fire,2,MayDivideByZero\n",
        ..BASE
    },
    Case {
        columns: "COUNT(*) WHERE n <> 0 AND 10 / n > 1",
        want: "accepted,9,3,6\n",
        ..BASE
    },
    Case {
        columns: "COUNT(*), SUM(n) WHERE n <> 0 AND 10 / n > 1",
        want: "accepted,11,4,6\n",
        ..BASE
    },
    Case {
        field: "n INT -5..5",
        columns: "COUNT(*), SUM(n) WHERE n <> 0 AND 10 / n > 1",
        want: "rejected,where,3,MayDivideByZero\n",
        ..BASE
    },
    Case {
        columns: "SUM(IF n <> 0 THEN 100 / n ELSE 0 END)",
        want: "accepted,9,3,6\n",
        ..BASE
    },
    Case {
        columns: "COUNT(*) WHERE 10 / n > 1 AND n <> 0",
        want: "rejected,where,2,MayDivideByZero\n",
        ..BASE
    },
    Case {
        field: "n INT 0..1000000000000",
        clock: "START 0; SKEW 100; LATENESS 10; RECORDS 1000000000000",
        want: "rejected,update,1,AccumulatorRange\n",
        ..BASE
    },
];

// Here `want` is the line of the judgement.
#[test]
fn queries_are_judged(rt: HostRuntime) -> Result<(), Fail> {
    for case in &JUDGED {
        let text = text_of(rt.alloc(), case)?;
        let line = judgement(rt.alloc(), text.as_str())?;
        assert_eq!(rt; line.as_slice(), case.want.as_bytes(), "{text}");
    }
    Ok(())
}
