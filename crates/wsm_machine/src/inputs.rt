//! What a section is run on.

ghost use Rattle.std.specs.Prelude.{◌≡◌, ◌≤◌, map, length, IsTrue};
ghost use Rattle.wsm_record.specs.declared.limits.TheConstants.{MAX_ACCUMULATORS};
ghost use Rattle.wsm_record.specs.Fields.{field_seen, type_seen};
ghost use Rattle.wsm_fold.specs.Fold.{is_of_kind as is_of_kind_of, are_of_kinds as are_of_kinds_of};
ghost use Rattle.wsm_machine.specs.Inputs.{inputs_of, inputs_fit, is_of_field as is_of_field_of, are_of_fields as are_of_fields_of};
ghost use Rattle.wsm_machine.specs.InRange.{is_word, is_number_in as is_number_in_of, is_acc_in as is_acc_in_of, accs_in as accs_in_of, in_range as in_range_of};

use wsm_interval::Interval;
use wsm_program::{Program, SectionId};
use wsm_record::{CellType, DeclaredField, FieldType, Kind, Value};
use wsm_rules::Verified;

/// What a section may read. WHERE and UPDATE read the key and the values of a record; FIRE reads
/// the key of a pane, the number of records in its firing, and what its accumulators hold.
#[derive(Clone, Copy)]
pub struct Inputs<'a> {
    /// The number of the key.
    pub key: u16,
    /// The record's values, in the order of the fields.
    pub values: &'a [Value],
    /// The number of records in the firing.
    pub count: i64,
    /// What the accumulators hold, in their order.
    pub accs: &'a [Value],
}

impl Inputs<'_> {
    /// Whether these are inputs for a program: a declared key, a value of its type for each field,
    /// and a value of its type for each accumulator. Intervals aren't asked.
    pub fn fits(&self, program: &Program) -> bool
        ensures { result ≡ inputs_fit program.now.header (inputs_of self.now) }
    {
        let header = program.header();
        let keys = header.schema.key_count();
        let fields = header.schema.fields();
        (self.key as usize) < keys
            && are_of_fields(fields, self.values)
            && are_of_kinds(&header.kinds, self.accs)
    }

    /// Whether a section of a verified program may run on these: a declared key; in WHERE and
    /// UPDATE a value of its type for each field, its numbers in the declared interval; in FIRE from
    /// one record to as many as the program allows, and for each accumulator a value of its type,
    /// its numbers in the accumulator's range.
    pub fn in_range(&self, verified: &Verified, section: SectionId) -> bool
        ensures { result ≡ in_range_of verified.now section (inputs_of self.now) }
    {
        let header = verified.program().header();
        let is_declared = (self.key as usize) < header.schema.key_count();
        match section {
            SectionId::Where | SectionId::Update => {
                is_declared && header.schema.fits(self.values)
            }
            SectionId::Fire => {
                is_declared
                    && 1 <= self.count
                    && self.count <= header.clock.records
                    && accs_in(verified, &header.kinds, self.accs)
            }
        }
    }
}

// One value for each field, of its type.
fn are_of_fields(fields: &[DeclaredField], values: &[Value]) -> bool
    ensures { result ≡ are_of_fields_of (map field_seen fields.now) values.now }
{
    if fields.len() != values.len() {
        return false;
    }
    for (i, field) in fields.iter().enumerate() {
        if !is_of_field(&field.ty, values[i]) {
            return false;
        }
    }
    true
}

// Whether a value is of a type, its interval aside.
fn is_of_field(ty: &FieldType, value: Value) -> bool
    ensures { result ≡ is_of_field_of (type_seen ty.now) value }
{
    match (ty, value) {
        (FieldType::Int { .. }, Value::Int(_)) => true,
        (FieldType::Bool, Value::Bool(_)) => true,
        (FieldType::Enum(names), Value::Enum(i)) => (i as usize) < names.len(),
        _ => false,
    }
}

// One value for each accumulator, of its type.
fn are_of_kinds(kinds: &[Kind], values: &[Value]) -> bool
    ensures { result ≡ are_of_kinds_of kinds.now values.now }
{
    if kinds.len() != values.len() {
        return false;
    }
    for (i, kind) in kinds.iter().enumerate() {
        if !is_of_kind(*kind, values[i]) {
            return false;
        }
    }
    true
}

// One value for each accumulator, of its type and in its range.
fn accs_in(verified: &Verified, kinds: &[Kind], accs: &[Value]) -> bool
    requires { length kinds.now ≤ MAX_ACCUMULATORS }
    ensures { result ≡ accs_in_of verified.now 0 kinds.now accs.now }
{
    if kinds.len() != accs.len() {
        return false;
    }
    for (a, kind) in kinds.iter().enumerate() {
        if !is_acc_in(verified.range(a as u8), *kind, accs[a]) {
            return false;
        }
    }
    true
}

// Whether an accumulator may hold a value, where its numbers have this range.
fn is_acc_in(range: Option<Interval>, kind: Kind, value: Value) -> bool
    ensures { result ≡ is_acc_in_of range kind value }
{
    is_of_kind(kind, value) && is_number_in(range, value)
}

// Whether a value is in a range, if it is a number.
fn is_number_in(range: Option<Interval>, value: Value) -> bool
    ensures in_range { result ≡ is_number_in_of range value }
    ensures word { IsTrue (is_word value) }
{
    match value {
        Value::Int(n) => range.is_some_and(|range| range.holds(n)),
        _ => true,
    }
}

// Whether an accumulator folds a value.
fn is_of_kind(kind: Kind, value: Value) -> bool
    ensures { result ≡ is_of_kind_of kind value }
{
    if kind.ty() == CellType::Int {
        matches!(value, Value::Int(_))
    } else {
        matches!(value, Value::Bool(_))
    }
}
