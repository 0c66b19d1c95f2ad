// Records of a given number of fields.
ghost use Rattle.std.specs.Prelude.{◌≡◌, ◌≢◌, ◌<◌, [], ◌∷◌, length, Some, IfSome, IfNone};
ghost use Rattle.std.specs.Cmp.Lexicographic.{pointwise};
ghost use Rattle.std.specs.Str.{bytes_eq};
ghost use Rattle.csv.specs.Records.{field_at, fields_of};
ghost use Rattle.jobs_csv.specs.Columns.{header_of};
ghost use Rattle.jobs_csv.specs.Inner.Parse.{ReturnsParse};

use crate::fault::FaultKind;
use csv::ByteRecord;

/// The fields of a record that has three.
#[derive(Drop)]
pub(crate) struct ThreeFields<'a> {
    pub first: &'a [u8],
    pub second: &'a [u8],
    pub third: &'a [u8],
}

/// Returns the field at an index.
pub(crate) fn field(row: &ByteRecord, index: usize) -> &[u8]
    requires { index < length (fields_of row.now) }
    ensures { field_at (fields_of row.now) index ≡ Some result.now }
{
    row.get(index).unwrap()
}

/// Returns the fields of a record, if there are three.
pub(crate) fn three_fields(row: &ByteRecord) -> Option<ThreeFields<'_>>
    ensures some { IfSome result (λ three.
        fields_of row.now ≡ three.first.now ∷ three.second.now ∷ three.third.now ∷ []) }
    ensures none { IfNone result (length (fields_of row.now) ≢ 3) }
{
    if row.len() != 3 {
        return None;
    }
    Some(ThreeFields {
        first: field(row, 0),
        second: field(row, 1),
        third: field(row, 2),
    })
}

// Returns whether the fields have these texts.
fn are_texts(fields: &ThreeFields<'_>, first: &[u8], second: &[u8], third: &[u8]) -> bool
    ensures { result ≡ pointwise bytes_eq
        (fields.now.first.now ∷ fields.now.second.now ∷ fields.now.third.now ∷ [])
        (first.now ∷ second.now ∷ third.now ∷ []) }
{
    fields.first == first && fields.second == second && fields.third == third
}

/// Checks a header of three fields: their number, and then their texts.
pub(crate) fn three_header(
    row: &ByteRecord,
    first: &[u8],
    second: &[u8],
    third: &[u8],
) -> Result<(), FaultKind>
    ensures { ReturnsParse (λ good. good)
        (header_of (first.now ∷ second.now ∷ third.now ∷ []) (fields_of row.now)) result }
{
    let fields = match three_fields(row) {
        Some(fields) => fields,
        None => return Err(FaultKind::Fields),
    };
    if are_texts(&fields, first, second, third) {
        Ok(())
    } else {
        Err(FaultKind::Word)
    }
}
