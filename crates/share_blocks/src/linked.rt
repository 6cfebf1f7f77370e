//! Covered ranges as pieces that are linked to the tags that they have.
ghost use Rattle.std.specs.Prelude.{◌≡◌, ◌+◌, ◌≤◌, ◌<◌, length, map, filter, vec_len, nat_lt, IsTrue, IfOk, OnOk, OnErr, find};
ghost use Rattle.std.specs.Vec.{vec_capacity};
ghost use Rattle.std.specs.Map.{keys_of};
ghost use Rattle.std.specs.FinSet as set;
ghost use Rattle.share_blocks.specs.Cuts.{rise_from};
ghost use Rattle.share_blocks.specs.LinkedPieces.{AreLinked, LinksGoBack, begun_between, is_among_first, linked_pieces, marks_of, newest_at, split_before, split_after, tagged_at, tagged_each, tags_by, tags_of_nodes};
ghost use Rattle.share_blocks.specs.Pieces.{covered, is_place, ranges_of, tags_at};

use crate::admitted::Admitted;
use crate::blocks::Blocks;
use crate::cuts::parted_at;
use crate::tag::Tag;
use desk_words::{MOST_PLACES, Range};
use std::alloc::{AllocError, Global};
use std::collections::BTreeMap;
use std::marker::Model;
use std::ops::Bound;

/// A tag, and where the node stands that it came over, if there was one.
#[derive(Clone, Copy, PartialEq, Eq)]
struct Node {
    tag: Tag,
    older: Option<usize>,
}

/// Where pieces begin, each with its newest node, and the nodes. Places before the first of them
/// have no node. The parts of a piece that is parted share its nodes. Contracts see the pieces.
///
/// To cover a range takes one node for each piece within it, and for each about as many steps as
/// the number of pieces has binary digits. `pieces` goes over them once. `first_where` finds the
/// piece of the place in about as many steps, and then goes down its tags to the first that is
/// admitted.
#[derive(Drop)]
pub struct LinkedBlocks {
    newest: BTreeMap<u64, Option<usize>>,
    nodes: Vec<Node>,
}

impl Model for LinkedBlocks {
    ghost use Rattle.std.specs.Prelude.{List};
    ghost use Rattle.share_blocks.specs.LinkedPieces.{AreLinked, linked_pieces};
    ghost use Rattle.share_blocks.specs.Pieces.{Piece};

    ghost Value = { List Piece };

    ghost view = { λ b. linked_pieces b.newest.entries b.nodes.items };

    ghost invariant = { λ b. AreLinked b.newest.entries b.nodes.items };
}

impl Blocks for LinkedBlocks {
    ghost pieces = { λ b. b };

    fn new(alloc: Global) -> Self {
        Self {
            newest: BTreeMap::new(alloc),
            nodes: Vec::new(alloc),
        }
    }

    fn cover(&mut self, range: Range, tag: Tag) -> Result<(), AllocError> {
        cover_pieces(&mut self.newest, &mut self.nodes, range, tag)
    }

    fn pieces(&self) -> Result<Vec<Range>, AllocError> {
        let alloc = *self.nodes.allocator();
        let cuts = begins_past(alloc, &self.newest, 1, MOST_PLACES)?;
        parted_at(alloc, cuts.as_slice())
    }

    fn first_where(&self, place: u64, admitted: &Admitted) -> Option<Tag> {
        if place <= MOST_PLACES {
            let newest = newest_at(&self.newest, place);
            first_admitted(self.nodes.as_slice(), newest, admitted)
        } else {
            None
        }
    }
}

/// The newest node of a place, if it has one.
fn newest_at(newest: &BTreeMap<u64, Option<usize>>, place: u64) -> Option<usize>
    ensures { result ≡ newest_at newest.now.entries place }
{
    match newest.range(..=place).next_back() {
        Some((_, node)) => *node,
        None => None,
    }
}

/// The first admitted tag of a node and of those below it.
fn first_admitted(nodes: &[Node], newest: Option<usize>, admitted: &Admitted) -> Option<Tag>
    requires node { IsTrue (is_among_first (length nodes.now) newest) }
    requires back { LinksGoBack nodes.now }
    ensures { result
        ≡ find (set.contains admitted.now) (tags_by (tags_of_nodes nodes.now) newest) }
{
    let mut next = newest;
    while let Some(index) = next {
        let node = nodes[index];
        if admitted.has(node.tag) {
            return Some(node.tag);
        }
        next = node.older;
    }
    None
}

/// Where pieces begin past a place and up to another.
fn begins_past(
    alloc: Global,
    newest: &BTreeMap<u64, Option<usize>>,
    place: u64,
    last: u64,
) -> Result<Vec<u64>, AllocError>
    requires { place ≤ last }
    ensures { IfOk result
        (λ places. places.items ≡ keys_of (begun_between place last newest.now.entries)) }
{
    newest
        .range((Bound::Excluded(place), Bound::Included(last)))
        .map(|(begin, _)| *begin)
        .collect(alloc)
}

/// Parts the piece of a place before the place; both parts keep its newest node. With
/// `AllocError`, all stays as it was.
fn part(newest: &mut BTreeMap<u64, Option<usize>>, place: u64) -> Result<(), AllocError>
    ensures ok { OnOk result (newest.new.entries ≡ split_before place newest.old.entries) }
    ensures err { OnErr result (newest.new.entries ≡ newest.old.entries) }
{
    let node = newest_at(newest, place);
    newest.insert(place, node)?;
    Ok(())
}

/// Parts the piece of a place behind the place, if there is a place behind it. With `AllocError`,
/// all stays as it was.
fn part_behind(newest: &mut BTreeMap<u64, Option<usize>>, place: u64) -> Result<(), AllocError>
    requires { place ≤ MOST_PLACES }
    ensures ok { OnOk result (newest.new.entries ≡ split_after place newest.old.entries) }
    ensures err { OnErr result (newest.new.entries ≡ newest.old.entries) }
{
    if place < MOST_PLACES {
        part(newest, place + 1)?;
    }
    Ok(())
}

/// Parts the pieces where a range begins and behind its end. With `AllocError`, all stays as it
/// was.
fn part_off(newest: &mut BTreeMap<u64, Option<usize>>, range: Range) -> Result<(), AllocError>
    requires { IsTrue (rise_from 0 (keys_of newest.old.entries)) }
    ensures ok { OnOk result
        (newest.new.entries ≡ split_after range.to (split_before range.from newest.old.entries)) }
    ensures err { OnErr result (newest.new.entries ≡ newest.old.entries) }
{
    let begins = newest.contains_key(&range.from());
    part(newest, range.from())?;
    if let Err(error) = part_behind(newest, range.to()) {
        if !begins {
            let _ = newest.remove(&range.from());
        }
        return Err(error);
    }
    Ok(())
}

/// Puts a tag in front of those of the piece that begins at a place.
fn tag_piece(newest: &mut BTreeMap<u64, Option<usize>>, nodes: &mut Vec<Node>, place: u64, tag: Tag)
    requires linked { AreLinked newest.old.entries nodes.old.items }
    requires room { vec_len nodes.old < vec_capacity nodes.old }
    ensures linked { AreLinked newest.new.entries nodes.new.items }
    ensures marks { marks_of newest.new.entries nodes.new.items
        ≡ map (tagged_at place tag) (marks_of newest.old.entries nodes.old.items) }
    ensures keys { keys_of newest.new.entries ≡ keys_of newest.old.entries }
    ensures one_more { vec_len nodes.new ≤ vec_len nodes.old + 1 }
    ensures room { vec_capacity nodes.old ≤ vec_capacity nodes.new }
{
    if let Some(node) = newest.get_mut(&place) {
        let index = nodes.len();
        let _ = nodes.push(Node { tag, older: *node });
        *node = Some(index);
    }
}

/// Puts a tag in front of those of the pieces that begin at the places.
fn tag_pieces(
    newest: &mut BTreeMap<u64, Option<usize>>,
    nodes: &mut Vec<Node>,
    places: &[u64],
    tag: Tag,
)
    requires linked { AreLinked newest.old.entries nodes.old.items }
    requires room { vec_len nodes.old + length places.now ≤ vec_capacity nodes.old }
    ensures linked { AreLinked newest.new.entries nodes.new.items }
    ensures marks { marks_of newest.new.entries nodes.new.items
        ≡ tagged_each tag (marks_of newest.old.entries nodes.old.items) places.now }
{
    for place in places {
        tag_piece(newest, nodes, *place, tag);
    }
}

/// Covers a range: parts it off, and puts the tag in front of those of the pieces within it. With
/// `AllocError`, all stays as it was.
fn cover_pieces(
    newest: &mut BTreeMap<u64, Option<usize>>,
    nodes: &mut Vec<Node>,
    range: Range,
    tag: Tag,
) -> Result<(), AllocError>
    requires { AreLinked newest.old.entries nodes.old.items }
    ensures linked { AreLinked newest.new.entries nodes.new.items }
    ensures ok { OnOk result
        (linked_pieces newest.new.entries nodes.new.items
        ≡ covered range tag (linked_pieces newest.old.entries nodes.old.items)) }
    ensures bound { OnOk result
        (length (linked_pieces newest.new.entries nodes.new.items)
        ≤ length (linked_pieces newest.old.entries nodes.old.items) + 2) }
    ensures err { OnErr result
        (linked_pieces newest.new.entries nodes.new.items
        ≡ linked_pieces newest.old.entries nodes.old.items) }
{
    let later = begins_past(*nodes.allocator(), newest, range.from(), range.to())?;
    nodes.reserve(later.len() + 1)?;
    part_off(newest, range)?;
    tag_piece(newest, nodes, range.from(), tag);
    tag_pieces(newest, nodes, later.as_slice(), tag);
    Ok(())
}
