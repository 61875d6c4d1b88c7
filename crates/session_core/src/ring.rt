ghost use Rattle.std.specs.Prelude.{◌≡◌, ◌≤◌, [], ◌∷◌, length, map, filter, slice_get, option_copied};
ghost use Rattle.session_core.specs.Rings.{is_rung_link};

use link_table::{LinkState, Links, OpenLink};
use smallvec::SmallVec;
use std::alloc::Global;
use std::marker::Model;

// Whether a link that was open was sent a message since, or is open no more.
fn is_rung(links: &Links, before: &OpenLink) -> bool
    ensures { result ≡ is_rung_link links.now before.now }
{
    !matches!(links.state(before.number), LinkState::Open)
        || before.waiting < links.waiting(before.number)
}

/// The numbers of links, by rising number. Up to four take no memory.
#[derive(Debug, Drop)]
pub struct Ring {
    links: SmallVec<u32, 4>,
}

impl Model for Ring {
    ghost use Rattle.std.specs.Prelude.{ℕ, List};

    ghost Value = { List ℕ };

    ghost view = { λ r. r.links.items };
}

impl Ring {
    /// How many links there are.
    pub fn len(&self) -> usize
        ensures { result ≡ length self.now }
    {
        self.links.len()
    }

    /// The link at a place, counted from 0.
    pub fn get(&self, at: usize) -> Option<&u32>
        ensures { option_copied result ≡ slice_get self.now at }
    {
        self.links.as_slice().get(at)
    }

    // One link. It takes no memory.
    pub(crate) fn one(alloc: Global, link: u32) -> Ring
        ensures { result ≡ link ∷ [] }
    {
        let mut links = SmallVec::new(alloc);
        links.push_reserved(link);
        Ring { links }
    }

    // Those of some links that were sent a message since, or are open no more. There is room for them, so it takes no memory.
    pub(crate) fn since(links: &Links, before: &[OpenLink], room: SmallVec<u32, 4>) -> Ring
        requires none { room.items ≡ [] }
        requires enough { length before.now ≤ room.capacity }
        ensures { result ≡ map (λ link. link.number) (filter (is_rung_link links.now) before.now) }
    {
        let mut rung = room;
        for link in before {
            if is_rung(links, link) {
                rung.push_reserved(link.number);
            }
        }
        Ring { links: rung }
    }

    // No links. It takes no memory.
    pub(crate) fn none(alloc: Global) -> Ring
        ensures { result ≡ [] }
    {
        Ring {
            links: SmallVec::new(alloc),
        }
    }
}
