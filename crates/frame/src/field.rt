ghost use Rattle.std.specs.Prelude.{◌≡◌, ◌≤◌, true, length};
ghost use Rattle.frame.specs.Format.{length_fits};
ghost use Rattle.frame.specs.Tags.{number_of};
ghost use Rattle.frame.specs.Views.{tag_of, bytes_of};

use crate::fault::FrameFault;
use crate::tag::Tag;
use std::slice;

// A field of a frame: its tag and the part of the frame that holds its bytes; that they fit the tag, no ghost field can say of an enum.
#[derive(Clone, Copy)]
pub enum Field<'f> {
    When(&'f [u8; 4]),
    Kind(&'f u8),
    Item(&'f u8),
    Tier(&'f u8),
    Readings(&'f [u8]),
    Share(&'f [u8; 2]),
    Name(&'f [u8]),
}

impl<'f> Field<'f> {
    // The field of a tag that allows so many bytes.
    fn new(tag: Tag, bytes: &'f [u8]) -> Field<'f>
        requires { length_fits (number_of tag) (length bytes.now) ≡ true }
        ensures tag { tag_of result ≡ number_of tag }
        ensures bytes { bytes_of result ≡ bytes.now }
    {
        match tag {
            Tag::When => Field::When(bytes.as_array().unwrap()),
            Tag::Kind => Field::Kind(&bytes[0]),
            Tag::Item => Field::Item(&bytes[0]),
            Tag::Tier => Field::Tier(&bytes[0]),
            Tag::Readings => Field::Readings(bytes),
            Tag::Share => Field::Share(bytes.as_array().unwrap()),
            Tag::Name => Field::Name(bytes),
        }
    }

    pub fn tag(self) -> Tag
        ensures { number_of result ≡ tag_of self.entry }
    {
        match self {
            Field::When(_) => Tag::When,
            Field::Kind(_) => Tag::Kind,
            Field::Item(_) => Tag::Item,
            Field::Tier(_) => Tag::Tier,
            Field::Readings(_) => Tag::Readings,
            Field::Share(_) => Tag::Share,
            Field::Name(_) => Tag::Name,
        }
    }

    pub fn bytes(self) -> &'f [u8]
        ensures { result.now ≡ bytes_of self.entry }
    {
        match self {
            Field::When(bytes) => bytes,
            Field::Kind(byte) | Field::Item(byte) | Field::Tier(byte) => slice::from_ref(byte),
            Field::Readings(bytes) | Field::Name(bytes) => bytes,
            Field::Share(bytes) => bytes,
        }
    }
}

// The fields of a frame from an offset on, up to its end or the first fault.
#[derive(Drop)]
pub struct Run<'f> {
    frame: &'f [u8],
    offset: usize,

    // The tag of the field before the offset.
    above: Option<Tag>,
    ghost within: { offset ≤ length frame.now },
}

impl<'f> Run<'f> {
    ghost use Rattle.frame.specs.Runs.{left, Tells};

    // The fields of a whole frame.
    pub fn new(frame: &'f [u8]) -> Run<'f>
        ensures frame { result.frame.now ≡ frame.now }
        ensures offset { result.offset ≡ 0 }
        ensures above { result.above ≡ None }
    {
        Run {
            frame,
            offset: 0,
            above: None,
        }
    }

    // What is left of the frame, from the offset on.
    fn left(&self) -> &'f [u8]
        ensures { result.now ≡ left self.now }
    {
        &self.frame[self.offset..]
    }

    // The field at the offset; the run goes on after it.
    fn next_field(&mut self) -> Result<Field<'f>, FrameFault>
        ensures { Tells self.old result self.new }
    {
        let offset = self.offset;
        let [tag, high, low, rest @ ..] = self.left() else {
            return Err(FrameFault::EndsInside { offset });
        };
        let tag = Tag::try_from(*tag).map_err(|_| FrameFault::TagUnknown { offset })?;
        // None, before the first field, is below every tag.
        if Some(tag) <= self.above {
            return Err(FrameFault::TagNotRising { offset });
        }
        let length = usize::from(u16::from_be_bytes([*high, *low]));
        if !tag.allows(length) {
            return Err(FrameFault::LengthWrong { offset });
        }
        let bytes = rest.get(..length).ok_or(FrameFault::EndsInside { offset })?;
        self.offset += 3 + length;
        self.above = Some(tag);
        Ok(Field::new(tag, bytes))
    }
}

impl<'f> Iterator for Run<'f> {
    type Item = Result<Field<'f>, FrameFault>;

    ghost use Rattle.std.specs.Iterator.{at_most};
    ghost use Rattle.frame.specs.Runs.{left, Gives};

    ghost next_gives = { Gives };

    ghost remaining = { λ run. at_most (length (left run)) };

    fn next(&mut self) -> Option<Result<Field<'f>, FrameFault>> {
        if self.left().is_empty() {
            return None;
        }
        let told = self.next_field();
        if told.is_err() {
            // A fault ends the run.
            self.offset = self.frame.len();
        }
        Some(told)
    }
}
