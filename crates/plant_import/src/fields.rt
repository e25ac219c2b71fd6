//! Reads two fields of a row of an import file: the event's number and its kind.

ghost use Rattle.std.specs.{List.{list_all}, Prelude.{◌≡◌, ◌≢◌, ◌<◌, ◌≤◌, length, slice_index, IsTrue}};
ghost use Rattle.plant_types.specs.{Moment.{decimal_value}, Text.{is_digit}};
ghost use Rattle.plant_import.specs.Fields as fields;

use plant_alarm::{EventKind, Number};

/// The number in a field: one to twelve digits, the first not 0.
pub fn number_of(field: &[u8]) -> Option<Number>
    ensures { result ≡ fields.event_number_of field.now }
{
    if field.is_empty() || field.len() > 12 || field[0] == b'0' || !all_digits(field) {
        return None;
    }
    Number::new(value_of(field))
}

fn all_digits(field: &[u8]) -> bool
    ensures { result ≡ list_all is_digit field.now }
{
    field.iter().all(|byte| byte.is_ascii_digit())
}

#[tactic(auto, using(crate::proofs::Digits::room_below))]
fn value_of(digits: &[u8]) -> u64
    requires few { length digits.now ≤ 12 }
    requires digits { IsTrue (list_all is_digit digits.now) }
    requires first { slice_index digits.now 0 ≢ 48 }
    ensures value { result ≡ decimal_value digits.now }
    ensures bound { result < 1000000000000 }
    ensures positive { 0 < length digits.now → 0 < result }
{
    let mut value = 0;
    for digit in digits {
        value = 10 * value + u64::from(digit.saturating_sub(48));
    }
    value
}

/// The kind of event that a field names.
pub fn kind_of(field: &[u8]) -> Option<EventKind>
    ensures { result ≡ fields.event_kind_of field.now }
{
    match field {
        b"ACT" => Some(EventKind::Act),
        b"RTN" => Some(EventKind::Rtn),
        b"ACK" => Some(EventKind::Ack),
        b"RESET" => Some(EventKind::Reset),
        b"SUP" => Some(EventKind::Sup),
        b"UNSUP" => Some(EventKind::Unsup),
        _ => None,
    }
}
