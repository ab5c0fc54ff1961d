//! The values of a payload's fields, and their bytes.
ghost use Rattle.std.specs.Prelude.{◌≡◌, ◌+◌, ◌≤◌, ◌∷◌, ◌++◌, length, sum_by, vec_len, vec_capacity, OnOk, OnErr};
ghost use Rattle.std.specs.List.{flat_map, AllByRecursion};
ghost use Rattle.itch_layouts.specs.Layouts.{head_fields};
ghost use Rattle.itch_layouts.specs.Means.{head_values};
ghost use Rattle.byte_strings.specs.Bytes.{AreBytes};
ghost use Rattle.byte_strings.specs.Extending.{Extends};
ghost use Rattle.itch_layouts.specs.Encoding.{Fit, encoding};
ghost use Rattle.itch_layouts.specs.FieldValues.{InRange, field_value_bytes, width_of};

use crate::message::Head;
use crate::nanos::Nanos;
use std::alloc::{AllocError, Allocator};

/// The value of one field, with its width.
#[derive(Clone, Copy)]
pub(crate) enum FieldValue {
    U16(u16),
    U32(u32),
    U64(u64),
    Time(Nanos),
    Alpha1(u8),
    Alpha2([u8; 2]),
    Alpha4([u8; 4]),
    Alpha8([u8; 8]),
}

// Appends bytes for which there is room.
fn put_bytes<A: Allocator>(out: &mut Vec<u8, A>, bytes: &[u8])
    requires { vec_len out.old + length bytes.now ≤ vec_capacity out.old }
    ensures bytes { AreBytes bytes.now }
    ensures items { out.new.items ≡ out.old.items ++ bytes.now }
    ensures len { vec_len out.new ≡ vec_len out.old + length bytes.now }
    ensures capacity { vec_capacity out.old ≤ vec_capacity out.new }
{
    out.extend_from_slice(bytes).unwrap();
}

// Appends the bytes of a value, for which there is room.
#[tactic(auto, using(crate::proofs::Words::words))]
fn put_value<A: Allocator>(out: &mut Vec<u8, A>, value: FieldValue)
    requires { vec_len out.old + width_of value ≤ vec_capacity out.old }
    ensures range { InRange value }
    ensures items { out.new.items ≡ out.old.items ++ field_value_bytes value }
    ensures len { vec_len out.new ≡ vec_len out.old + width_of value }
    ensures capacity { vec_capacity out.old ≤ vec_capacity out.new }
{
    match value {
        FieldValue::U16(number) => put_bytes(out, &number.to_be_bytes()),
        FieldValue::U32(number) => put_bytes(out, &number.to_be_bytes()),
        FieldValue::U64(number) => put_bytes(out, &number.to_be_bytes()),
        FieldValue::Time(time) => put_bytes(out, &time.get().to_be_bytes()[2..]),
        FieldValue::Alpha1(byte) => put_bytes(out, &[byte]),
        FieldValue::Alpha2(bytes) => put_bytes(out, &bytes),
        FieldValue::Alpha4(bytes) => put_bytes(out, &bytes),
        FieldValue::Alpha8(bytes) => put_bytes(out, &bytes),
    }
}

// Appends the bytes of values, for which there is room.
#[tactic(auto, using(crate::proofs::Words::each_of))]
fn put_values<A: Allocator>(out: &mut Vec<u8, A>, values: &[FieldValue])
    requires { vec_len out.old + sum_by width_of values.now ≤ vec_capacity out.old }
    ensures ranges { AllByRecursion InRange values.now }
    ensures items { out.new.items ≡ out.old.items ++ flat_map field_value_bytes values.now }
    ensures len { vec_len out.new ≡ vec_len out.old + sum_by width_of values.now }
    ensures capacity { vec_capacity out.old ≤ vec_capacity out.new }
{
    for value in values {
        put_value(out, *value);
    }
}

// Appends the type and the bytes of the head, for which there is room.
fn put_head<A: Allocator>(out: &mut Vec<u8, A>, kind: u8, head: &Head)
    requires { vec_len out.old + 11 ≤ vec_capacity out.old }
    ensures fit { Fit head_fields (head_values head.now) }
    ensures items { out.new.items ≡ out.old.items ++ kind ∷ encoding head_fields (head_values head.now) }
    ensures len { vec_len out.new ≡ vec_len out.old + 11 }
    ensures capacity { vec_capacity out.old ≤ vec_capacity out.new }
{
    let values = [
        FieldValue::Alpha1(kind),
        FieldValue::U16(head.locate),
        FieldValue::U16(head.tracking),
        FieldValue::Time(head.time),
    ];
    put_values(out, &values);
}

// The size in bytes of the largest payload, which is that of a net order imbalance indicator.
const LARGEST_PAYLOAD: usize = 50;

/// Appends a payload of a type, with this head and these values of the other fields.
///
/// It reserves room for the largest payload first, so an error leaves the bytes of `out` as they were.
pub(crate) fn put_payload<A: Allocator>(
    out: &mut Vec<u8, A>,
    kind: u8,
    head: &Head,
    body: &[FieldValue],
) -> Result<(), AllocError>
    requires { 11 + sum_by width_of body.now ≤ LARGEST_PAYLOAD }
    ensures fit { OnOk result (Fit head_fields (head_values head.now)) }
    ensures ranges { OnOk result (AllByRecursion InRange body.now) }
    ensures items { Extends out.old out.new
        (kind ∷ encoding head_fields (head_values head.now) ++ flat_map field_value_bytes body.now) result }
    ensures err { OnErr result (out.new.items ≡ out.old.items) }
{
    out.reserve(LARGEST_PAYLOAD)?;
    put_head(out, kind, head);
    put_values(out, body);
    Ok(())
}
