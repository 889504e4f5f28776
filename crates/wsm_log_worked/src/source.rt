//! Sources bound to a query, as they are told of.

use std::test::Fail;
use wsm_record::{Field, Name, Schema, Ty};
use wsm_source::{SourceRefusal, bind, describe};
use wsm_values::Zone;

// A query with a key and a number.
fn query(rt: &HostRuntime) -> Result<Schema, Fail> {
    let key = Name::new(b"api").ok_or("a key")?;
    let name = Name::new(b"amount").ok_or("a field")?;
    let ty = Ty::Int { lo: 0, hi: 100 };
    Ok(Schema::new(rt.alloc(), &[key], &[Field { name, ty }], &[])?)
}

#[test]
fn bound(rt: HostRuntime) -> Result<(), Fail> {
    let text = "format = \"json\"\nkey.at = \"k\"\ntime = { at = \"t\", form = \"rfc3339\" }\n";
    let schema = query(&rt)?;
    let description = describe(rt.alloc(), text)?;
    let Ok(source) = bind(rt.alloc(), &description, &schema, Zone::Utc, b"") else {
        assert!(rt; false, "a source");
        return Ok(());
    };
    assert_eq!(rt; source.longest, 1_048_576);
    assert_eq!(rt; source.fields.items().len(), 1);
    Ok(())
}

#[test]
fn refused(rt: HostRuntime) -> Result<(), Fail> {
    let text =
        "format = \"json\"\nkey.at = \"k\"\ntime = { at = \"t\", form = \"rfc3339\" }\n[fields.amount]\ndefault = 101\n";
    let schema = query(&rt)?;
    let description = describe(rt.alloc(), text)?;
    match bind(rt.alloc(), &description, &schema, Zone::Utc, b"") {
        Ok(_) => assert!(rt; false, "a default above its field's interval"),
        Err(refusal) => {
            let told = format!(in rt.alloc(); "{}", SourceRefusal::of(refusal, text))?;
            assert_eq!(rt;
                told.as_str(),
                "L5 BadRange in fields.amount.default at 5:1"
            );
        }
    }
    Ok(())
}
