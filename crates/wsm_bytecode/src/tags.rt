//! The tags of shapes, modes, forms, kinds and types: the number that stands for each, and which one a
//! number stands for. Another number is refused.

ghost use Rattle.std.specs.Prelude.{◌≡◌, ◌≤◌};
ghost use Rattle.wsm_bytecode.specs.Tags as tags;

use wsm_record::{Form, Kind, Mode};
use wsm_windows::Shape;

/// How many shapes there are. Their tags are the numbers below it.
pub(crate) const SHAPE_COUNT: u8 = 3;

/// How many forms there are. Their tags are the numbers below it.
pub(crate) const FORM_COUNT: u8 = 4;

// Lists of what there is, in the order of the tags.
const MODES: [Mode; 3] = [Mode::Discarding, Mode::Accumulating, Mode::Retracting];

const FORMS: [Form; 4] = [Form::Panes, Form::Istream, Form::Dstream, Form::Rstream];

const KINDS: [Kind; 5] = [Kind::Sum, Kind::Min, Kind::Max, Kind::Any, Kind::All];

const TYPES: [TypeTag; 3] = [TypeTag::Int, TypeTag::Bool, TypeTag::Enum];

/// What a field or a column is, without its bounds or its names.
#[derive(Clone, Copy, Debug, PartialEq, Eq)]
pub(crate) enum TypeTag {
    /// Numbers.
    Int,
    /// Truths.
    Bool,
    /// Names of an ENUM.
    Enum,
}

pub(crate) fn shape_tag(shape: Shape) -> u8
    ensures { result ≡ tags.shape_tag shape }
{
    match shape {
        Shape::Fixed(_) => 0,
        Shape::Sliding(_, _) => 1,
        Shape::Session(_) => 2,
    }
}

/// The last tag of a shape. Lateness isn't counted from the end of a session, whose tag is the last.
pub(crate) fn last_shape_tag(from_window: bool) -> u8
    ensures last { result ≡ tags.last_shape_tag from_window }
    ensures most { result ≤ 2 }
{
    if from_window {
        SHAPE_COUNT - 2
    } else {
        SHAPE_COUNT - 1
    }
}

pub(crate) fn mode_tag(mode: Mode) -> u8
    ensures { result ≡ tags.mode_tag mode }
{
    match mode {
        Mode::Discarding => 0,
        Mode::Accumulating => 1,
        Mode::Retracting => 2,
    }
}

#[tactic(auto, unfolding(crate::specs::Tags::mode_by))]
pub(crate) fn mode_by(tag: u8) -> Option<Mode>
    ensures { result ≡ tags.mode_by tag }
{
    MODES.iter().copied().find(|mode| mode_tag(*mode) == tag)
}

pub(crate) fn form_tag(form: Form) -> u8
    ensures { result ≡ tags.form_tag form }
{
    match form {
        Form::Panes => 0,
        Form::Istream => 1,
        Form::Dstream => 2,
        Form::Rstream => 3,
    }
}

#[tactic(auto, unfolding(crate::specs::Tags::form_by))]
pub(crate) fn form_by(tag: u8) -> Option<Form>
    ensures { result ≡ tags.form_by tag }
{
    FORMS.iter().copied().find(|form| form_tag(*form) == tag)
}

pub(crate) fn kind_tag(kind: Kind) -> u8
    ensures { result ≡ tags.kind_tag kind }
{
    match kind {
        Kind::Sum => 0,
        Kind::Min => 1,
        Kind::Max => 2,
        Kind::Any => 3,
        Kind::All => 4,
    }
}

#[tactic(auto, unfolding(crate::specs::Tags::kind_by))]
pub(crate) fn kind_by(tag: u8) -> Option<Kind>
    ensures { result ≡ tags.kind_by tag }
{
    KINDS.iter().copied().find(|kind| kind_tag(*kind) == tag)
}

pub(crate) fn type_tag(ty: TypeTag) -> u8
    ensures { result ≡ tags.type_tag ty }
{
    match ty {
        TypeTag::Int => 0,
        TypeTag::Bool => 1,
        TypeTag::Enum => 2,
    }
}

#[tactic(auto, unfolding(crate::specs::Tags::type_by))]
pub(crate) fn type_by(tag: u8) -> Option<TypeTag>
    ensures { result ≡ tags.type_by tag }
{
    TYPES.iter().copied().find(|ty| type_tag(*ty) == tag)
}
