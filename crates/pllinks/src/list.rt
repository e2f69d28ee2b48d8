//! Numbers of goal lists.
ghost use Rattle.std.specs.Prelude.{◌≡◌, ◌+◌, ◌-◌, ◌<◌, ◌≤◌, ◌^◌, ◌↔◌, IsTrue, IfSome, IfNone};

use std::marker::Model;

/// The number of a list of links: 0 is the empty one, and the list that the link at a place begins has the number behind it.
#[derive(Clone, Copy, Debug, PartialEq, Eq, PartialOrd, Ord)]
pub struct ListId {
    value: u32,
}

impl Model for ListId {
    ghost use Rattle.std.specs.Prelude.{ℕ};

    ghost Value = { ℕ };

    ghost view = { λ l. l.value };

    ghost inverse = { λ n. record { value = n } };
}

impl ListId {
    /// The empty list.
    pub const EMPTY: ListId = ListId { value: 0 };

    /// The list that the link at a place begins; none where there is no number for it.
    #[inline(always)]
    pub fn begun_at(place: usize) -> Option<ListId>
        ensures some { IfSome result (λ l. l ≡ place + 1) }
        ensures none { IfNone result (2 ^ 32 ≤ place + 1) }
    {
        if place >= u32::MAX as usize {
            return None;
        }
        Some(ListId {
            value: place as u32 + 1,
        })
    }

    /// Whether it is the empty list.
    #[inline(always)]
    pub fn is_empty(self) -> bool
        ensures { IsTrue result ↔ (self ≡ 0) }
    {
        self.value == 0
    }

    /// How many links there are up to its first one, and with it.
    #[inline(always)]
    pub fn extent(self) -> usize
        ensures { result ≡ self }
    {
        self.value as usize
    }

    /// The place of its first link; none for the empty list.
    #[inline(always)]
    pub fn place(self) -> Option<usize>
        ensures some { IfSome result (λ i. (0 < self) × (i ≡ self - 1)) }
        ensures none { IfNone result (self ≡ 0) }
    {
        if self.is_empty() {
            return None;
        }
        Some(self.value as usize - 1)
    }

    /// The list that the link before its first one begins.
    #[inline(always)]
    pub fn previous(self) -> ListId
        requires { 0 < self }
        ensures { result ≡ self - 1 }
    {
        ListId {
            value: self.value - 1,
        }
    }
}
