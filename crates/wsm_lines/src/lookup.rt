//! Where the text of a key is looked up.

use wsm_record::Schema;

/// Where the text of a key is looked up that its source itself has no number for.
#[derive(Clone, Copy)]
pub(crate) enum Lookup<'a> {
    /// Among the keys of a schema.
    In(&'a Schema),
    /// Nowhere: it is kept, and the event has no key.
    Later,
}
