ghost use Rattle.std.specs.Prelude.{◌≡◌};
ghost use Rattle.refusal.specs.Said.{said};
ghost use Rattle.frame.specs.Faults.{refusal_of};
ghost use Rattle.frame.specs.Tags.{number_of};
ghost use Rattle.frame.specs.declared.fault.FrameFault.TheVariants.{FieldMissing};
ghost use Rattle.frame.specs.Reading as reading;
ghost use Rattle.frame.specs.Reading.{put, frame_of, name_of};
ghost use Rattle.frame.specs.Views.{tag_of, bytes_of, parts_of, bytes_at};

use crate::fault::FrameFault;
use crate::field::{Field, Run};
use crate::fields::Fields;
use crate::tag::Tag;

// The fields told so far, by their tags: those of `Fields`, each still to come.
#[derive(Clone, Copy, Default)]
pub struct Seen<'f> {
    when: Option<&'f [u8; 4]>,
    kind: Option<&'f u8>,
    item: Option<&'f u8>,
    tier: Option<&'f u8>,
    readings: Option<&'f [u8]>,
    share: Option<&'f [u8; 2]>,
    name: Option<&'f [u8]>,
}

// The fault that a frame has no field of this tag; it takes a `Tag`, though a host may put any number there.
fn missing(tag: Tag) -> FrameFault
    ensures { result ≡ FieldMissing (number_of tag) }
{
    FrameFault::FieldMissing { tag: tag.into() }
}

impl<'f> Seen<'f> {
    ghost use Rattle.frame.specs.Views.{told_of};

    fn put(&mut self, field: Field<'f>)
        ensures { told_of self.new ≡ put (tag_of field.entry) (bytes_of field.entry) (told_of self.old) }
    {
        match field {
            Field::When(bytes) => self.when = Some(bytes),
            Field::Kind(byte) => self.kind = Some(byte),
            Field::Item(byte) => self.item = Some(byte),
            Field::Tier(byte) => self.tier = Some(byte),
            Field::Readings(bytes) => self.readings = Some(bytes),
            Field::Share(bytes) => self.share = Some(bytes),
            Field::Name(bytes) => self.name = Some(bytes),
        }
    }

    // All that must be there, or the first field that is missing.
    fn whole(self) -> Result<Fields<'f>, FrameFault>
        ensures { said parts_of refusal_of result ≡ reading.whole (told_of self.entry) }
    {
        let Seen {
            when,
            kind,
            item,
            tier,
            readings,
            share,
            name,
        } = self;
        Ok(Fields {
            when: *when.ok_or(missing(Tag::When))?,
            kind: *kind.ok_or(missing(Tag::Kind))?,
            item: *item.ok_or(missing(Tag::Item))?,
            tier: *tier.ok_or(missing(Tag::Tier))?,
            readings: readings.ok_or(missing(Tag::Readings))?,
            share: share.copied(),
            name: name.unwrap_or(&[]),
        })
    }
}

// What a frame holds, or the first fault from its front, or the first field that is missing.
pub fn read(frame: &[u8]) -> Result<Fields<'_>, FrameFault>
    ensures { said parts_of refusal_of result ≡ frame_of frame.now }
{
    let mut seen = Seen::default();
    for field in Run::new(frame) {
        seen.put(field?);
    }
    seen.whole()
}

// The meter's name as a part of the frame, empty where the frame has none; it checks the frame layer and no more.
pub fn name(frame: &[u8]) -> Result<&[u8], FrameFault>
    ensures { said bytes_at refusal_of result ≡ name_of frame.now }
{
    Ok(read(frame)?.name)
}
