//! A field of a record.
ghost use Rattle.std.specs.Prelude.{◌≡◌};

use super::field_name::FieldName;

/// A field of a record.
#[derive(Clone, Copy)]
pub(crate) struct FieldPlace {
    /// How many fields of the record come before this field.
    pub(crate) place: usize,
    /// The name of the field.
    pub(crate) name: FieldName,
}

impl FieldPlace {
    /// The field that has the given name, after n other fields of its record.
    pub(crate) fn at(place: usize, name: FieldName) -> Self
        ensures { result ≡ record { place = place; name = name } }
    {
        FieldPlace { place, name }
    }
}
