//! Sets of tags.
ghost use Rattle.std.specs.Prelude.{◌≡◌, ◌+◌, ◌<◌, ℕ, true, IsTrue};
ghost use Rattle.std.specs.FinSet as set;
ghost use Rattle.share_blocks.specs.Tags.{is_tag};

use crate::tag::{MOST_TAGS, Tag};
use std::marker::Model;

/// A set of tags, in an array of fixed size. Contracts see it as the set of their numbers.
#[derive(Drop)]
pub struct Admitted {
    marks: [bool; MOST_TAGS],
}

impl Model for Admitted {
    ghost use Rattle.std.specs.Coded.{coded_ℕ};
    ghost use Rattle.std.specs.FinSet as set;
    ghost use Rattle.std.specs.Ordering.{nat_cmp};
    ghost use Rattle.share_blocks.specs.Tags.{marked_from};

    ghost Value = { set.FinSet nat_cmp };

    ghost coded = { set.code coded_ℕ };

    ghost view = { λ a. set.from_list (marked_from 1 a.marks) };
}

impl Admitted {
    /// The set that holds no tag. It takes no memory.
    pub fn none() -> Self
        ensures { result ≡ set.empty }
    {
        Self {
            marks: [false; MOST_TAGS],
        }
    }

    /// The set that holds every tag. It takes no memory.
    pub fn all() -> Self
        ensures { (tag : ℕ) → IsTrue (is_tag tag) → set.contains result tag ≡ true }
    {
        Self {
            marks: [true; MOST_TAGS],
        }
    }

    /// Admits a tag, beside those that are admitted already. It takes no memory.
    pub fn admit(&mut self, tag: Tag)
        ensures { self.new ≡ set.insert self.old tag }
    {
        self.marks[place_of(tag)] = true;
    }

    /// Whether a tag is admitted. It takes no memory.
    pub fn has(&self, tag: Tag) -> bool
        ensures { result ≡ set.contains self.now tag }
    {
        let place = place_of(tag);
        self.marks[place]
    }
}

/// Where the mark of a tag stands.
fn place_of(tag: Tag) -> usize
    ensures place { result + 1 ≡ tag }
    ensures bound { result < MOST_TAGS }
{
    tag.number() as usize - 1
}
