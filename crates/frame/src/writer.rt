ghost use Rattle.std.specs.Prelude.{◌≡◌, ◌+◌, ◌^◌, ◌<◌, ◌≤◌, true, ◌++◌, length, take, drop, sum_by};
ghost use Rattle.std.specs.List.{flat_map, list_all};
ghost use Rattle.refusal.specs.Said.{said};
ghost use Rattle.frame.specs.Faults.{refusal_of};
ghost use Rattle.frame.specs.Format.{written, sound, write_answers, write_leaves, name_answers};
ghost use Rattle.frame.specs.Views.{parts_of};
ghost use Rattle.frame.specs.Written.{field_bytes, field_fits};

use crate::fault::FrameFault;
use crate::field::Field;
use crate::fields::Fields;
use crate::tag::LONGEST_NAME;

// The fields of a frame by their tags, None where it has no such field.
#[tactic(auto, unfolding(crate::specs::Format::written))]
fn by_tag<'f>(fields: &'f Fields<'f>) -> [Option<Field<'f>>; 7]
    ensures written { flat_map field_bytes result ≡ written (parts_of fields.now) }
    ensures fit { list_all field_fits result ≡ sound (parts_of fields.now) }
{
    let has_name = !fields.name.is_empty();
    [
        Some(Field::When(&fields.when)),
        Some(Field::Kind(&fields.kind)),
        Some(Field::Item(&fields.item)),
        Some(Field::Tier(&fields.tier)),
        Some(Field::Readings(fields.readings)),
        fields.share.as_ref().map(Field::Share),
        has_name.then_some(Field::Name(fields.name)),
    ]
}

fn fits(field: Option<Field<'_>>) -> bool
    ensures { result ≡ field_fits field.entry }
{
    field.is_none_or(|field| field.tag().allows(field.bytes().len()))
}

fn all_fit(fields: &[Option<Field<'_>>]) -> bool
    ensures { result ≡ list_all field_fits fields.now }
{
    fields.iter().copied().all(fits)
}

// How many bytes of a frame the field takes.
fn size(field: Option<Field<'_>>) -> usize
    ensures { result ≡ length (field_bytes field.entry) }
{
    field.map_or(0, |field| 3 + field.bytes().len())
}

// Puts a field into the buffer at a place, and answers where it ends; buffer and place go together here alone.
fn put(out: &mut [u8], at: usize, field: Option<Field<'_>>) -> usize
    requires fits { field_fits field ≡ true }
    requires room { at + length (field_bytes field) ≤ length out.old }
    ensures end { result ≡ at + length (field_bytes field.entry) }
    ensures wrote { out.new ≡ take at out.old ++ (field_bytes field.entry ++ drop (at + length (field_bytes field.entry)) out.old) }
{
    // No fault: a field that is missing takes no bytes.
    let Some(field) = field else {
        return at;
    };
    let bytes = field.bytes();
    let [high, low] = (bytes.len() as u16).to_be_bytes();
    let from = at + 3;
    let to = from + bytes.len();
    out[at..from].copy_from_slice(&[field.tag().into(), high, low]);
    out[from..to].copy_from_slice(bytes);
    to
}

fn put_all(out: &mut [u8], fields: &[Option<Field<'_>>])
    requires fit { list_all field_fits fields.now ≡ true }
    requires room { length (flat_map field_bytes fields.now) ≤ length out.old }
    ensures { out.new ≡ flat_map field_bytes fields.now ++ drop (length (flat_map field_bytes fields.now)) out.old }
{
    let mut at = 0;
    for field in fields {
        at = put(out, at, *field);
    }
}

// How long the frame of these fields is.
fn frame_size(fields: &[Option<Field<'_>>]) -> usize
    requires { sum_by (λ f. length (field_bytes f)) fields.now < 2 ^ 64 }
    ensures { result ≡ sum_by (λ f. length (field_bytes f)) fields.now }
{
    fields.iter().copied().map(size).sum()
}

// A name that a frame can hold, or the refusal of a long one.
pub fn check_name(name: &[u8]) -> Result<(), FrameFault>
    ensures { said (λ _. tt) refusal_of result ≡ name_answers name.now }
{
    if name.len() > LONGEST_NAME {
        return Err(FrameFault::LengthWrong { offset: 0 });
    }
    Ok(())
}

// Writes the frame of these fields at the front of the buffer, and answers its length.
pub fn write(fields: Fields<'_>, out: &mut [u8]) -> Result<usize, FrameFault>
    ensures answers { said (λ n. n) refusal_of result ≡ write_answers (parts_of fields.entry) (length out.old) }
    ensures leaves { out.new ≡ write_leaves (parts_of fields.entry) out.old }
{
    let fields = by_tag(&fields);
    if !all_fit(&fields) {
        return Err(FrameFault::LengthWrong { offset: 0 });
    }
    let needed = frame_size(&fields);
    if out.len() < needed {
        return Err(FrameFault::BufferShort { needed });
    }
    put_all(out, &fields);
    Ok(needed)
}
