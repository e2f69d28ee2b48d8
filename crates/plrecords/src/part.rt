//! What of a side a walk has still to pass.
ghost use Rattle.std.specs.Prelude.{◌≡◌};
ghost use Rattle.plrecords.specs.Parts.{comes, first_head, is_part, moved, reaches, whole};

/// The records of one side behind one of them, or all of them.
#[derive(Clone, Copy)]
pub struct Part {
    /// Whether they were put before all others.
    pub front: bool,
    pub behind: Option<usize>,
}

impl Part {
    /// A whole side.
    pub fn whole(front: bool) -> Part
        ensures { result ≡ whole front }
    {
        Part {
            front,
            behind: None,
        }
    }

    /// Whether a record of the side belongs to it.
    pub fn has(self, number: usize) -> bool
        ensures { result ≡ is_part self number }
    {
        match self.behind {
            None => true,
            Some(at) => comes(self.front, at, number),
        }
    }

    /// Whether a record of the side, if there is one, belongs to it.
    pub fn reaches(self, number: Option<usize>) -> bool
        ensures { result ≡ reaches self number }
    {
        match number {
            None => false,
            Some(number) => self.has(number),
        }
    }
}

/// Whether a walk comes to one record of a side before it comes to another: downward in front, upward behind.
fn comes(front: bool, one: usize, other: usize) -> bool
    ensures { result ≡ comes front one other }
{
    if front { other < one } else { one < other }
}

/// Where a walk stands in the two chains that it merges.
#[derive(Clone, Copy)]
pub struct Heads {
    pub own: Option<usize>,
    pub any: Option<usize>,
}

impl Heads {
    /// The one of them that comes first.
    pub fn first(self, front: bool) -> Option<usize>
        ensures { result ≡ first_head front self.own self.any }
    {
        match (self.own, self.any) {
            (None, any) => any,
            (own, None) => own,
            (Some(own), Some(any)) => {
                if comes(front, any, own) {
                    Some(any)
                } else {
                    Some(own)
                }
            }
        }
    }

    /// Behind a record, to which a link leads.
    pub fn behind(self, number: usize, link: Option<usize>) -> Heads
        ensures own { result.own ≡ moved number link self.own }
        ensures any { result.any ≡ moved number link self.any }
    {
        Heads {
            own: moved(number, link, self.own),
            any: moved(number, link, self.any),
        }
    }
}

fn moved(number: usize, link: Option<usize>, head: Option<usize>) -> Option<usize>
    ensures { result ≡ moved number link head }
{
    match head {
        None => None,
        Some(at) => { if at == number { link } else { head } }
    }
}
