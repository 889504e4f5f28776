//! Names of what refuses a schema, as they are printed.

use std::test::Fail;
use wsm_record::SchemaRefusal;

const NAMES: [(SchemaRefusal, &str); 5] = [
    (SchemaRefusal::DuplicateName, "S1 DuplicateName"),
    (SchemaRefusal::EmptyRange, "S2 EmptyRange"),
    (SchemaRefusal::TooMany, "S3 TooMany"),
    (SchemaRefusal::NoKeys, "S4 NoKeys"),
    (SchemaRefusal::Memory, "out of memory"),
];

#[test]
fn schemas_are_refused_by_name(rt: HostRuntime) -> Result<(), Fail> {
    for &(refusal, name) in &NAMES {
        let text = format!(in rt.alloc(); "{refusal}")?;
        assert_eq!(rt; text.as_str(), name);
    }
    Ok(())
}
