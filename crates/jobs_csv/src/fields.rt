// Parsers of single fields.
ghost use Rattle.std.specs.Prelude.{◌≡◌, ◌≤◌, ◌&&◌, ◌^◌, IfOk, nat_lt, Some, None, if◌then◌else◌};
ghost use Rattle.std.specs.List.{list_all};
ghost use Rattle.std.specs.Char.{is_ascii_digit};
ghost use Rattle.jobs_csv.specs.Fields.{any_number, dash_of, number_of, number_within, value_of};
ghost use Rattle.jobs_csv.specs.Inner.Parse.{ReturnsParse};

use crate::fault::FaultKind;

// Returns the number that these bytes write, if they are digits and it is below `2^64`.
fn digits(field: &[u8]) -> Option<u64>
    ensures { result ≡ (if list_all is_ascii_digit field.now && nat_lt (value_of field.now) (2 ^ 64)
        then Some (value_of field.now) else None) }
{
    let mut value: u64 = 0;
    for byte in field {
        if !byte.is_ascii_digit() {
            return None;
        }
        let digit = u64::from(*byte - b'0');
        let Some(tens) = value.checked_mul(10) else {
            return None;
        };
        let Some(next) = tens.checked_add(digit) else {
            return None;
        };
        value = next;
    }
    Some(value)
}

/// Returns the number of a field, if it is one: `0`, or digits of which the first is not `0`, below
/// `2^64`.
#[tactic(auto, unfolding(crate::specs::Fields::number_of))]
pub(crate) fn number(field: &[u8]) -> Option<u64>
    ensures { result ≡ number_of field.now }
{
    if field.is_empty() || (field.len() > 1 && field[0] == b'0') {
        return None;
    }
    digits(field)
}

/// Reads a field that is a number.
#[tactic(auto, unfolding(crate::specs::Fields::any_number))]
pub(crate) fn any_number(field: &[u8]) -> Result<u64, FaultKind>
    ensures { ReturnsParse (λ number. number) (any_number field.now) result }
{
    number(field).ok_or(FaultKind::Number)
}

/// Reads a field that is a number from `low` to `high`.
#[tactic(auto, unfolding(crate::specs::Fields::number_within))]
pub(crate) fn number_within(field: &[u8], low: u64, high: u64) -> Result<u64, FaultKind>
    ensures parse { ReturnsParse (λ number. number) (number_within low high field.now) result }
    ensures low { IfOk result (λ number. low ≤ number) }
    ensures high { IfOk result (λ number. number ≤ high) }
{
    match number(field) {
        Some(number) if low <= number && number <= high => Ok(number),
        _ => Err(FaultKind::Number),
    }
}

/// Checks that a field is a dash, which means that there is nothing.
#[tactic(auto, unfolding(crate::specs::Fields::dash_of))]
pub(crate) fn dash(field: &[u8]) -> Result<(), FaultKind>
    ensures { ReturnsParse (λ good. good) (dash_of field.now) result }
{
    if field == b"-".as_slice() {
        Ok(())
    } else {
        Err(FaultKind::Word)
    }
}
