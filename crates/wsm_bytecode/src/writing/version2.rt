//! What version 2 of the bytes has of its own: what lateness is counted from and the sources stand in front
//! of the shape.

ghost use Rattle.std.specs.Prelude.{◌≡◌, ◌++◌, OnOk, IsTrue};
ghost use Rattle.wsm_program.specs.Instructions.{truth};
ghost use Rattle.wsm_program.specs.Program.{is_header};
ghost use Rattle.wsm_program.specs.View.{header_of};
ghost use Rattle.wsm_bytecode.specs.Parts.{byte, settings_in};
ghost use Rattle.wsm_bytecode.specs.Version2.{shape as shape_bytes, settings as settings_bytes};

use crate::tags::{form_tag, mode_tag, shape_tag};
use crate::writing::numbers::{put_i64, put_two, put_u8};
use crate::writing::schema::put_sources;
use std::alloc::AllocError;
use wsm_program::Header;
use wsm_windows::Shape;

pub(crate) fn put_settings(out: &mut Vec<u8>, header: &Header) -> Result<(), AllocError>
    requires { IsTrue (is_header (header_of header.now)) }
    ensures { OnOk result (out.new.items ≡ out.old.items ++ settings_bytes (settings_in (header_of header.now))) }
{
    put_window_flag(out, header.clock.from_window)?;
    put_sources(out, header.schema.sources())?;
    put_shape(out, header.shape)?;
    put_u8(out, mode_tag(header.mode))?;
    put_two(out, header.early, header.late)?;
    put_u8(out, form_tag(header.form))
}

fn put_window_flag(out: &mut Vec<u8>, from_window: bool) -> Result<(), AllocError>
    ensures { OnOk result (out.new.items ≡ out.old.items ++ byte (truth from_window)) }
{
    put_u8(out, if from_window { 1 } else { 0 })
}

fn put_shape(out: &mut Vec<u8>, shape: Shape) -> Result<(), AllocError>
    ensures { OnOk result (out.new.items ≡ out.old.items ++ shape_bytes shape) }
{
    put_u8(out, shape_tag(shape))?;
    match shape {
        Shape::Fixed(size) => put_i64(out, size),
        Shape::Sliding(size, period) => put_two(out, size, period),
        Shape::Session(gap) => put_i64(out, gap),
    }
}
