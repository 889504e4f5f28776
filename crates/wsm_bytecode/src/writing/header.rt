//! The header.

ghost use Rattle.std.specs.Prelude.{◌≡◌, ◌++◌, ◌<◌, length, OnOk, IsTrue};
ghost use Rattle.wsm_program.specs.Program.{is_limited, is_header};
ghost use Rattle.wsm_program.specs.View.{header_of};
ghost use Rattle.wsm_bytecode.specs.declared.version.Version.TheVariants.{Two};
ghost use Rattle.wsm_bytecode.specs.Parts.{times as times_bytes, kinds as kinds_bytes, column as column_bytes, columns as columns_bytes, budget as budget_bytes};
ghost use Rattle.wsm_bytecode.specs.Spelling.{header as header_bytes};

use crate::tags::{TypeTag, kind_tag, type_tag};
use crate::writing::numbers::{put_two, put_u8, put_u64};
use crate::writing::schema::{put_fields, put_names};
use crate::writing::version2::put_settings;
use std::alloc::AllocError;
use wsm_program::{Clock, Costs, Header};
use wsm_record::{CellType, Kind};

pub(crate) fn put_header(out: &mut Vec<u8>, header: &Header) -> Result<(), AllocError>
    requires { IsTrue (is_header (header_of header.now)) }
    ensures { OnOk result (out.new.items ≡ out.old.items ++ header_bytes Two (header_of header.now)) }
{
    put_names(out, header.schema.keys())?;
    put_fields(out, header.schema.fields())?;
    put_times(out, header.clock)?;
    put_settings(out, header)?;
    put_kinds(out, &header.kinds)?;
    put_columns(out, &header.columns)?;
    put_budget(out, header.budget)
}

fn put_times(out: &mut Vec<u8>, clock: Clock) -> Result<(), AllocError>
    requires { IsTrue (is_limited clock) }
    ensures { OnOk result (out.new.items ≡ out.old.items ++ times_bytes clock) }
{
    put_two(out, clock.start, clock.skew)?;
    put_two(out, clock.lateness, clock.records)
}

fn put_kinds(out: &mut Vec<u8>, kinds: &[Kind]) -> Result<(), AllocError>
    requires { length kinds.now < 256 }
    ensures { OnOk result (out.new.items ≡ out.old.items ++ kinds_bytes kinds.now) }
{
    put_u8(out, kinds.len() as u8)?;
    for kind in kinds {
        put_u8(out, kind_tag(*kind))?;
    }
    Ok(())
}

fn put_columns(out: &mut Vec<u8>, columns: &[CellType]) -> Result<(), AllocError>
    requires { length columns.now < 256 }
    ensures { OnOk result (out.new.items ≡ out.old.items ++ columns_bytes columns.now) }
{
    put_u8(out, columns.len() as u8)?;
    for column in columns {
        put_column(out, *column)?;
    }
    Ok(())
}

fn put_column(out: &mut Vec<u8>, column: CellType) -> Result<(), AllocError>
    ensures { OnOk result (out.new.items ≡ out.old.items ++ column_bytes column) }
{
    match column {
        CellType::Int => put_u8(out, type_tag(TypeTag::Int)),
        CellType::Bool => put_u8(out, type_tag(TypeTag::Bool)),
        CellType::Enum(number) => {
            put_u8(out, type_tag(TypeTag::Enum))?;
            put_u8(out, number)
        }
    }
}

fn put_budget(out: &mut Vec<u8>, budget: Costs) -> Result<(), AllocError>
    ensures { OnOk result (out.new.items ≡ out.old.items ++ budget_bytes budget) }
{
    put_u64(out, budget.per_record)?;
    put_u64(out, budget.per_pane)?;
    put_u64(out, budget.held)
}
