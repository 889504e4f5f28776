//! Programs put together at random, over the header of the base program.

use crate::noise::Noise;
use crate::running::program_ran;
use crate::sections::Sections;
use crate::sides::Sides;
use std::alloc::Global;
use std::process::Abort;
use std::test::Fail;
use wsm_bytecode::{CellType, Clock, Costs, Header, Program, decode, encode};
use wsm_engine::Engine;
use wsm_given::is_whole;
use wsm_interval::Interval;
use wsm_machine::Inputs;
use wsm_record::{Field, Form, Kind, Mode, Name, Schema, Ty, Value};
use wsm_verifier::{Rule, Verified, verify};
use wsm_windows::Shape;

/// Rows of both keys: the ends of the field's interval, an early, a late and a refused record.
const ROWS: &[u8] =
    b"r,a,5,7\nr,b,59,100\nr,a,0,0\nr,a,1,101\nw,60\nr,a,61,50\nr,b,52,1\nr,a,3,1\nw,70\nw,200\n";

/// Numbers that no section put together here needs more than.
const ROOMY: Costs = Costs {
    per_record: 1_000,
    per_pane: 1_000,
    held: 100,
};

/// How a program was taken.
#[derive(Clone, Copy, Debug, PartialEq, Eq)]
enum Taken {
    /// An operand names nothing.
    Refused,
    /// The verifier rejects it.
    Rejected(Rule),
    /// It was accepted and kept its promises, in so many runs of its sections by both machines.
    Ran(u32),
    /// It broke a promise.
    Wrong,
}

fn name(text: &[u8]) -> Result<Name, Fail> {
    Ok(Name::new(text).ok_or("no name")?)
}

// Keys a and b.
fn keys(alloc: Global) -> Result<Vec<Name>, Fail> {
    Ok(vec![in alloc; name(b"a")?, name(b"b")?]?)
}

// A number n of 0 to 100.
fn fields(alloc: Global) -> Result<Vec<Field>, Fail> {
    let name = name(b"n")?;
    let ty = Ty::Int { lo: 0, hi: 100 };
    Ok(vec![in alloc; Field { name, ty }]?)
}

fn schema(alloc: Global) -> Result<Schema, Fail> {
    let keys = keys(alloc)?;
    let fields = fields(alloc)?;
    Ok(Schema::new(alloc, &keys, &fields, &[])?)
}

// The header of the base program, which states a budget.
fn header(alloc: Global, budget: Costs) -> Result<Header, Fail> {
    Ok(Header {
        schema: schema(alloc)?,
        clock: Clock {
            start: 0,
            skew: 100,
            lateness: 10,
            from_window: false,
            records: 1000,
        },
        shape: Shape::Fixed(60),
        mode: Mode::Accumulating,
        early: 0,
        late: 0,
        form: Form::Panes,
        kinds: Vec::from_slice(alloc, &[Kind::Sum])?,
        columns: Vec::from_slice(alloc, &[CellType::Int, CellType::Int])?,
        budget,
    })
}

// A program of sections, unless an operand names nothing.
fn program_of(alloc: Global, sections: &Sections, budget: Costs) -> Result<Option<Program>, Fail> {
    let selection = sections.selection.to_vec(alloc)?;
    let update = sections.update.to_vec(alloc)?;
    let fire = sections.fire.to_vec(alloc)?;
    Ok(Program::new(header(alloc, budget)?, selection, update, fire).ok())
}

// Its bytes.
fn bytes_of(alloc: Global, sections: &Sections, budget: Costs) -> Result<Option<Vec<u8>>, Fail> {
    match program_of(alloc, sections, budget)? {
        Some(program) => Ok(Some(encode(alloc, &program)?)),
        None => Ok(None),
    }
}

fn verified(alloc: Global, bytes: &[u8]) -> Result<Verified, Rule> {
    let Ok(program) = decode(alloc, bytes) else {
        return Err(Rule::Memory);
    };
    match verify(alloc, program) {
        Ok(verified) => Ok(verified),
        Err((_, rejection)) => Err(rejection.rule),
    }
}

// What a program needs, or the rule by which it is rejected.
fn judged(alloc: Global, bytes: &[u8]) -> Result<Costs, Rule> {
    match verified(alloc, bytes) {
        Ok(verified) => Ok(verified.costs()),
        Err(rule) => Err(rule),
    }
}

// What a record of a key and a number costs.
fn record_steps(sides: &mut Sides, key: u16, number: i64) -> Option<u64> {
    let values = [Value::Int(number)];
    let accs = [Value::Int(0)];
    let inputs = Inputs {
        key,
        values: &values,
        count: 1,
        accs: &accs,
    };
    let kept = sides.keep(&inputs)?.steps;
    let updated = sides.update(&inputs)?.steps;
    Some(kept.saturating_add(updated))
}

// What a firing of a key, of some records and a sum costs.
fn pane_steps(sides: &mut Sides, key: u16, count: i64, sum: i64) -> Option<u64> {
    let values = [Value::Int(0)];
    let accs = [Value::Int(sum)];
    let inputs = Inputs {
        key,
        values: &values,
        count,
        accs: &accs,
    };
    Some(sides.fire(&inputs)?.steps)
}

// Whether each run of a record keeps within a number of steps.
fn records_within(sides: &mut Sides, most: u64) -> bool {
    for (key, number) in [(0, 0), (1, 0), (0, 1), (1, 60), (0, 99), (0, 100), (1, 100)] {
        if !record_steps(sides, key, number).is_some_and(|steps| steps <= most) {
            return false;
        }
    }
    true
}

// Whether each firing keeps within a number of steps, at both ends of the sum's range too.
fn panes_within(sides: &mut Sides, range: Interval, most: u64) -> bool {
    let cases = [
        (0, 1, range.lo),
        (1, 1, range.hi),
        (0, 1000, range.lo),
        (1, 1000, range.hi),
    ];
    for (key, count, sum) in cases {
        if !pane_steps(sides, key, count, sum).is_some_and(|steps| steps <= most) {
            return false;
        }
    }
    true
}

fn opened(alloc: Global, bytes: &[u8]) -> Option<Engine> {
    Engine::open(alloc, verified(alloc, bytes).ok()?).ok()
}

// How many runs of an accepted program's sections both machines answer, within what it needs; none
// where they don't.
fn runs_within(alloc: Global, bytes: &[u8], costs: Costs) -> Option<u32> {
    let verified = verified(alloc, bytes).ok()?;
    runs_beside(alloc, &verified, bytes, costs)
}

// The same of the program that the bytes are.
fn runs_beside(alloc: Global, verified: &Verified, bytes: &[u8], costs: Costs) -> Option<u32> {
    let mut engine = opened(alloc, bytes)?;
    runs_of(alloc, verified, &mut engine, costs)
}

// The same with an engine of it.
fn runs_of(alloc: Global, verified: &Verified, engine: &mut Engine, costs: Costs) -> Option<u32> {
    let range = verified.range(0)?;
    let mut sides = Sides::open(alloc, verified);
    let is_within = records_within(&mut sides, costs.per_record)
        && panes_within(&mut sides, range, costs.per_pane);
    if is_within && sides.answer(engine, ROWS) {
        Some(sides.runs)
    } else {
        None
    }
}

// What is needed, less one of a number.
fn one_less(costs: Costs) -> [(Costs, Rule); 3] {
    let per_record = costs.per_record.saturating_sub(1);
    let per_pane = costs.per_pane.saturating_sub(1);
    let held = costs.held.saturating_sub(1);
    [
        (
            Costs {
                per_record,
                ..costs
            },
            Rule::BudgetRecord,
        ),
        (Costs { per_pane, ..costs }, Rule::BudgetPane),
        (Costs { held, ..costs }, Rule::BudgetHeld),
    ]
}

// Whether sections are judged so, where they state a budget.
fn is_judged(
    alloc: Global,
    sections: &Sections,
    budget: Costs,
    want: Result<Costs, Rule>,
) -> Result<bool, Fail> {
    let Some(bytes) = bytes_of(alloc, sections, budget)? else {
        return Ok(false);
    };
    Ok(judged(alloc, &bytes) == want)
}

// Whether one less than what is needed is rejected, for each number.
fn needs_all(alloc: Global, sections: &Sections, costs: Costs) -> Result<bool, Fail> {
    for (budget, rule) in one_less(costs) {
        if !is_judged(alloc, sections, budget, Err(rule))? {
            return Ok(false);
        }
    }
    Ok(true)
}

// In how many runs an accepted program of sections, which states what it needs and no more, keeps
// its promises; none where it breaks one.
fn keeps(alloc: Global, sections: &Sections, costs: Costs) -> Result<Option<u32>, Fail> {
    let Some(bytes) = bytes_of(alloc, sections, costs)? else {
        return Ok(None);
    };
    let (text, end) = program_ran(alloc, &bytes, ROWS);
    if judged(alloc, &bytes) != Ok(costs) || end.is_err() || !is_whole(&text) {
        return Ok(None);
    }
    Ok(runs_within(alloc, &bytes, costs))
}

fn tried(alloc: Global, sections: &Sections) -> Result<Taken, Fail> {
    let Some(bytes) = bytes_of(alloc, sections, ROOMY)? else {
        return Ok(Taken::Refused);
    };
    match judged(alloc, &bytes) {
        Err(Rule::Memory) => Ok(Taken::Wrong),
        Err(rule) => Ok(Taken::Rejected(rule)),
        Ok(costs) => match keeps(alloc, sections, costs)? {
            Some(runs) if needs_all(alloc, sections, costs)? => Ok(Taken::Ran(runs)),
            _ => Ok(Taken::Wrong),
        },
    }
}

/// How many programs were taken in each way.
#[derive(Clone, Copy, Debug)]
struct Counts {
    refused: u32,
    ran: u32,
    wrong: u32,
    // Runs of a section by both machines, of the programs that ran.
    runs: u32,
    // By the number of the rule.
    rejected: [u32; 17],
}

impl Counts {
    fn add(&mut self, taken: Taken) {
        let count = match taken {
            Taken::Refused => &mut self.refused,
            Taken::Ran(runs) => {
                self.runs = self.runs.saturating_add(runs);
                &mut self.ran
            }
            Taken::Wrong => &mut self.wrong,
            Taken::Rejected(rule) => &mut self.rejected[rule as usize],
        };
        *count = count.saturating_add(1);
    }

    fn programs(&self) -> u32 {
        let mut count = self
            .refused
            .saturating_add(self.ran)
            .saturating_add(self.wrong);
        for rejected in self.rejected {
            count = count.saturating_add(rejected);
        }
        count
    }
}

// How programs of a seed are taken.
fn programs_of(alloc: Global, seed: u64, number: u32) -> Result<Counts, Fail> {
    let mut noise = Noise::new(seed);
    let mut counts = Counts {
        refused: 0,
        ran: 0,
        wrong: 0,
        runs: 0,
        rejected: [0; 17],
    };
    for _ in 0..number {
        let sections = Sections::at_random(alloc, &mut noise)?;
        counts.add(tried(alloc, &sections)?);
    }
    Ok(counts)
}

// None is wrong, one in twenty or more is accepted, some have an operand that names nothing, and each
// rule of the sections rejects one, but none of the budget, which is roomy. Of an accepted program both
// machines run two sections on seven records and one on four firings, and WHERE on the six records of
// the rows that are in range.
fn are_right<R: Abort>(rt: &R, counts: &Counts) {
    assert_eq!(rt; counts.wrong, 0);
    assert_eq!(rt; counts.programs(), 5_000);
    assert!(rt; counts.ran >= 250 && counts.refused > 0, "{counts:?}");
    assert!(rt; counts.runs >= counts.ran.saturating_mul(24), "{counts:?}");
    let (sections, others) = counts.rejected.split_at(13);
    assert!(rt; sections.iter().all(|rejected| *rejected > 0), "{counts:?}");
    assert!(rt; others.iter().all(|rejected| *rejected == 0), "{counts:?}");
}

#[test]
fn programs_at_random(rt: HostRuntime) -> Result<(), Fail> {
    are_right(&rt, &programs_of(rt.alloc(), 2, 5_000)?);
    Ok(())
}

// The same of another seed.
#[test]
fn other_programs_at_random(rt: HostRuntime) -> Result<(), Fail> {
    are_right(&rt, &programs_of(rt.alloc(), 3, 5_000)?);
    Ok(())
}
