//! What reading asks of a program, asked of its parts.

ghost use Rattle.std.specs.Prelude.{◌≡◌};
ghost use Rattle.std.specs.List.{list_all};
ghost use Rattle.wsm_record.specs.Name.{is_between};
ghost use Rattle.wsm_program.specs.Program.{is_column, is_clock, is_firing, is_row, is_budget, is_header, is_instr, is_section, is_program};
ghost use Rattle.wsm_record.specs.Modes.{may_write};
ghost use Rattle.wsm_program.specs.View.{header_of, program_of};

use crate::instr::{Argument, Instr};
use crate::named::{has_name, is_number_field, name_count};
use crate::program::{Costs, Header};
use wsm_record::limits::{MAX_ACCUMULATORS, MAX_COLUMNS, MAX_PANES, MAX_SECTION, MAX_STATED};
use wsm_record::{CellType, Schema};
use wsm_windows::is_span;

/// Whether these are the parts of a program.
#[tactic(auto, unfolding(crate::specs::Program::is_program))]
pub(crate) fn is_lawful(
    header: &Header,
    selection: &[Instr],
    update: &[Instr],
    fire: &[Instr],
) -> bool
    ensures { result ≡ is_program (program_of header.now selection.now update.now fire.now) }
{
    is_lawful_header(header)
        && is_lawful_section(header, selection)
        && is_lawful_section(header, update)
        && is_lawful_section(header, fire)
}

#[tactic(auto, unfolding(crate::specs::Program::is_header))]
fn is_lawful_header(header: &Header) -> bool
    ensures { result ≡ is_header (header_of header.now) }
{
    // Whoever asks a schema for its sources learns that it is one.
    let _ = header.schema.source_count();
    is_lawful_clock(header)
        && is_lawful_firing(header)
        && is_lawful_row(header)
        && is_lawful_budget(header.budget)
}

fn is_lawful_clock(header: &Header) -> bool
    ensures { result ≡ is_clock (header_of header.now) }
{
    header.clock.is_within_limits() && header.clock.is_timely(header.shape)
}

fn is_lawful_firing(header: &Header) -> bool
    ensures { result ≡ is_firing (header_of header.now) }
{
    header.shape.is_within_limits()
        && is_span(header.early)
        && is_span(header.late)
        && header.mode.may_write(header.form)
}

fn is_lawful_row(header: &Header) -> bool
    ensures { result ≡ is_row (header_of header.now) }
{
    header.kinds.len() <= MAX_ACCUMULATORS
        && is_count(header.columns.len(), 1, MAX_COLUMNS)
        && are_lawful_columns(&header.schema, &header.columns)
}

fn is_count(number: usize, low: usize, high: usize) -> bool
    ensures { result ≡ is_between low high number }
{
    low <= number && number <= high
}

fn is_stated(number: u64, high: u64) -> bool
    ensures { result ≡ is_between 1 high number }
{
    1 <= number && number <= high
}

fn are_lawful_columns(schema: &Schema, columns: &[CellType]) -> bool
    ensures { result ≡ list_all (is_column schema.now) columns.now }
{
    columns
        .iter()
        .all(|column| is_lawful_column(schema, *column))
}

fn is_lawful_column(schema: &Schema, column: CellType) -> bool
    ensures { result ≡ is_column schema.now column }
{
    match column {
        CellType::Int | CellType::Bool => true,
        CellType::Enum(number) => name_count(schema, number).is_some(),
    }
}

fn is_lawful_budget(budget: Costs) -> bool
    ensures { result ≡ is_budget budget }
{
    is_stated(budget.per_record, MAX_STATED)
        && is_stated(budget.per_pane, MAX_STATED)
        && is_stated(budget.held, MAX_PANES)
}

#[tactic(auto, unfolding(crate::specs::Program::is_section))]
fn is_lawful_section(header: &Header, instrs: &[Instr]) -> bool
    ensures { result ≡ is_section (header_of header.now) instrs.now }
{
    instrs.len() <= MAX_SECTION && are_lawful_instrs(header, instrs)
}

fn are_lawful_instrs(header: &Header, instrs: &[Instr]) -> bool
    ensures { result ≡ list_all (is_instr (header_of header.now)) instrs.now }
{
    instrs.iter().all(|instr| is_lawful_instr(header, *instr))
}

fn is_lawful_instr(header: &Header, instr: Instr) -> bool
    ensures { result ≡ is_instr (header_of header.now) instr }
{
    match instr.argument() {
        Argument::Name(list, name) => has_name(&header.schema, list, name),
        Argument::Field(field) => (field as usize) < header.schema.fields().len(),
        Argument::Accumulator(accumulator) => (accumulator as usize) < header.kinds.len(),
        Argument::Test(test, _) => is_number_field(&header.schema, test.field),
        Argument::Nothing | Argument::Number(_) | Argument::Truth(_) | Argument::Target(_) => true,
    }
}
