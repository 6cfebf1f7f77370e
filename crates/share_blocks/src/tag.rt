//! Tags of covered ranges.
ghost use Rattle.std.specs.Prelude.{◌≡◌, IsTrue};
ghost use Rattle.share_blocks.specs.Tags.{is_tag, tag_of};

use desk_words::limits::MOST_APPOINTMENTS;
use std::marker::Model;

/// How many tags there are: as many as a member may give appointments.
pub const MOST_TAGS: usize = MOST_APPOINTMENTS;

/// What a range is covered with: a number from 1 to `MOST_TAGS`, as that of a member's appointment.
#[derive(Clone, Copy, PartialEq, Eq)]
pub struct Tag {
    number: u16,
}

impl Model for Tag {
    ghost use Rattle.std.specs.Prelude.{ℕ, IsTrue};
    ghost use Rattle.share_blocks.specs.Tags.{is_tag};

    ghost Value = { ℕ };

    ghost view = { λ t. t.number };

    ghost invariant = { λ t. IsTrue (is_tag t.number) };

    ghost inverse = { λ n. record { number = n } };
}

impl Tag {
    /// The tag of a number, or none exactly where it is not from 1 to
    /// `MOST_TAGS`.
    pub fn new(number: u64) -> Option<Tag>
        ensures { result ≡ tag_of number }
    {
        if 1 <= number && number <= MOST_TAGS as u64 {
            Some(Tag {
                number: number as u16,
            })
        } else {
            None
        }
    }

    /// Its number, from 1 to `MOST_TAGS`.
    pub fn number(self) -> u64
        ensures value { result ≡ self }
        ensures valid { IsTrue (is_tag self) }
    {
        u64::from(self.number)
    }
}
