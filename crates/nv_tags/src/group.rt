//! Tags of a lane, without memory.

ghost use Rattle.std.specs.Prelude.{◌≡◌, ◌<◌, ◌==◌, ◌||◌, ◌&&◌, ℕ, [], ◌∷◌, not, IfSome, MatchOption};
ghost use Rattle.std.specs.List.{filter, list_any};
ghost use Rattle.nv_world_model.specs.Area.{tag_count};
ghost use Rattle.nv_tags.specs.Kept.{IsWith, IsWithout, tags_in};

use nv_model::limits::TAGS;
use std::marker::Model;

/// Some tags of a lane, or other numbers below 64, lowest first. A contract sees the list of them.
#[derive(Drop)]
pub struct Group {
    mask: u64,
}

impl Model for Group {
    ghost use Rattle.std.specs.Prelude.{List, ℕ};
    ghost use Rattle.nv_tags.specs.Kept.{tags_in};

    ghost Value = { List ℕ };

    ghost view = { λ g. tags_in g.mask };
}

impl Group {
    /// The numbers whose bits are set.
    pub fn of(mask: u64) -> Self
        ensures { result ≡ tags_in mask }
    {
        Group { mask }
    }

    /// No tag.
    pub fn none() -> Self
        ensures { result ≡ [] }
    {
        Group { mask: 0 }
    }

    /// One tag.
    pub fn one(tag: u8) -> Self
        requires { tag < tag_count }
        ensures { (t : ℕ) → list_any (λ u. u == t) result ≡ t == tag }
    {
        Group { mask: with(0, tag) }
    }

    /// The number whose bits are set where a tag is one of them, so that [`Group::of`] gives them again.
    pub fn mask(&self) -> u64
        ensures { tags_in result ≡ self.now }
    {
        self.mask
    }

    /// Whether a tag is one of them.
    pub fn has(&self, tag: u8) -> bool
        ensures { result ≡ list_any (λ t. t == tag) self.now }
    {
        tag < TAGS && (self.mask >> tag) & 1 != 0
    }

    /// Takes the lowest tag; `None` where none is left.
    pub fn pop(&mut self) -> Option<u8>
        ensures lowest { MatchOption result (self.old ≡ []) (λ tag. self.old ≡ tag ∷ self.new) }
        ensures there { IfSome result (λ tag. tag < tag_count) }
    {
        if self.mask == 0 {
            return None;
        }
        let tag = self.mask.trailing_zeros() as u8;
        self.mask = without(self.mask, tag);
        Some(tag)
    }

    /// Drops the tags that another group has, too.
    pub fn drop_all(&mut self, others: Group)
        ensures { self.new ≡ filter (λ tag. not (list_any (λ t. t == tag) others)) self.old }
    {
        self.mask &= !others.mask;
    }

    /// Adds the tags that another group has.
    pub fn add_all(&mut self, others: Group)
        ensures { (tag : ℕ) → list_any (λ t. t == tag) self.new ≡ (list_any (λ t. t == tag) self.old || list_any (λ t. t == tag) others) }
    {
        self.mask |= others.mask;
    }

    /// Drops the tags that another group does not have.
    pub fn keep(&mut self, others: Group)
        ensures { (tag : ℕ) → list_any (λ t. t == tag) self.new ≡ (list_any (λ t. t == tag) self.old && list_any (λ t. t == tag) others) }
    {
        self.mask &= others.mask;
    }
}

/// A mask with the bit of a tag set, too.
pub(crate) fn with(mask: u64, tag: u8) -> u64
    requires { tag < tag_count }
    ensures { IsWith mask tag result }
{
    mask | (1 << tag)
}

/// A mask with the bit of a tag cleared.
pub(crate) fn without(mask: u64, tag: u8) -> u64
    requires { tag < tag_count }
    ensures { IsWithout mask tag result }
{
    mask & !(1 << tag)
}
