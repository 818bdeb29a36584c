ghost use Rattle.std.specs.Prelude.{◌≡◌};
ghost use Rattle.std.specs.Option.{option_map};
ghost use Rattle.std.specs.Result.{result_ok};
ghost use Rattle.frame.specs.Format.{length_fits};
ghost use Rattle.frame.specs.Tags.{number_of, tag_in};

// The longest name that a frame can hold, in bytes.
pub(crate) const LONGEST_NAME: usize = 16;

// What a field of a frame holds, told by its first byte.
#[derive(Clone, Copy, PartialEq, Eq, PartialOrd, Ord, Debug)]
pub enum Tag {
    When = 1,
    Kind = 2,
    Item = 3,
    Tier = 4,
    Readings = 5,
    Share = 6,
    Name = 7,
}

// No tag has the number.
#[derive(Clone, Copy, PartialEq, Eq, Debug)]
pub struct NoSuchTag;

impl TryFrom<u8> for Tag {
    type Error = NoSuchTag;

    ghost try_from_gives = { λ n r. option_map number_of (result_ok r) ≡ tag_in n };

    fn try_from(number: u8) -> Result<Tag, NoSuchTag> {
        match number {
            1 => Ok(Tag::When),
            2 => Ok(Tag::Kind),
            3 => Ok(Tag::Item),
            4 => Ok(Tag::Tier),
            5 => Ok(Tag::Readings),
            6 => Ok(Tag::Share),
            7 => Ok(Tag::Name),
            _ => Err(NoSuchTag),
        }
    }
}

impl From<Tag> for u8 {
    ghost from_gives = { λ tag n. n ≡ number_of tag };

    fn from(tag: Tag) -> u8 {
        tag as u8
    }
}

impl Tag {
    // Whether a field of this tag may hold so many bytes.
    pub(crate) fn allows(self, length: usize) -> bool
        ensures { result ≡ length_fits (number_of self) length }
    {
        match self {
            Tag::When => length == 4,
            Tag::Kind | Tag::Item | Tag::Tier => length == 1,
            Tag::Readings => matches!(length, 4 | 8 | 12 | 16 | 20),
            Tag::Share => length == 2,
            Tag::Name => (1..=LONGEST_NAME).contains(&length),
        }
    }
}
