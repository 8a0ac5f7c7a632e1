ghost use Rattle.std.specs.Prelude.{◌≡◌, ◌+◌, ◌^◌, ◌<◌, ◌≤◌, IfOk, IfNone, IfSome, SomeIff};
ghost use Rattle.byte_layout.specs.Joined.{aligned};
ghost use Rattle.link_places.specs.Places.{places_from, end_from};

use goasm_base::{List, Memory};
use std::alloc::Global;

/// Where things stand that lie one behind the other.
#[derive(Debug, Drop)]
pub struct Places {
    /// Where each of them begins, in their order.
    pub at: List<u64>,
    /// Where the last one ends, or 0 where there is none.
    pub end: u64,
}

/// Where things of these sizes begin, one behind the other from 0 on, each at the next multiple of 16.
///
/// `None` comes exactly where the last one ends behind `most`, and `Memory` only for want of memory.
pub fn places_of(alloc: Global, sizes: &[u64], most: u64) -> Result<Option<Places>, Memory>
    requires small { most ≤ 2 ^ 24 }
    ensures begin { IfOk result (λ found. IfSome found (λ places. places.at ≡ places_from 0 sizes.now)) }
    ensures end { IfOk result (λ found. IfSome found (λ places. places.end ≡ end_from 0 sizes.now)) }
    ensures within { IfOk result (λ found. IfSome found (λ places. places.end ≤ most)) }
    ensures none { IfOk result (λ found. IfNone found (most < end_from 0 sizes.now)) }
{
    let mut at = Vec::new(alloc);
    let mut end = 0;
    for size in sizes {
        let Some(place) = place_behind(end, *size, most) else {
            return Ok(None);
        };
        at.push(place)?;
        end = place + *size;
    }
    Ok(Some(Places {
        at: List::new(at),
        end,
    }))
}

// Where a thing of this size begins behind others that end there, where it doesn't end behind `most`.
#[tactic(auto, unfolding(byte_layout::specs::Joined::aligned))]
fn place_behind(end: u64, size: u64, most: u64) -> Option<u64>
    requires within { end ≤ most }
    requires small { most ≤ 2 ^ 24 }
    ensures { SomeIff result (aligned 16 end + size ≤ most) (aligned 16 end) }
{
    let place = end.next_multiple_of(16);
    if place <= most && size <= most - place {
        Some(place)
    } else {
        None
    }
}
