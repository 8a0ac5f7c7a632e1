use asm_target::SelectNo;
use branch_size::SizeNo;
use goasm_base::{Memory as MemoryError, Pos};
use obj_rewrite::RewriteNo;
use thiserror::Error;

/// Why units have no listing: the first function that has none, and why. Of one function what rewriting refuses is told.
#[derive(Clone, Copy, Debug, PartialEq, Eq, Error)]
pub enum ListingNo {
    /// The function's frame would have more than 1 MiB: the place of its `TEXT`, and the frame's bytes.
    #[error("RW1")]
    RW1(Pos, u64),
    /// The target has no instructions for a statement: its place, and why.
    #[error("{1}")]
    Select(Pos, SelectNo),
    /// A branch doesn't reach its goal in the function with its longest form: where it stands in the sources, and how
    /// many bytes its first instruction is from its goal.
    #[error("B1 {1}")]
    B1(Pos, u64),
    /// There was no memory for the text, or for what it shows.
    #[error("out of memory")]
    Memory,
}

impl From<MemoryError> for ListingNo {
    ghost use Rattle.std.specs.Prelude.{◌≡◌};
    ghost use Rattle.unit_listing.specs.declared.listing_no.ListingNo.TheVariants.{Memory};

    ghost from_gives = { λ _ no. no ≡ Memory };

    fn from(_: MemoryError) -> Self {
        ListingNo::Memory
    }
}

impl From<RewriteNo> for ListingNo {
    ghost use Rattle.std.specs.Prelude.{◌≡◌};
    ghost use Rattle.unit_listing.specs.Laid.{of_rewriting};

    ghost from_gives = { λ refused no. no ≡ of_rewriting refused };

    fn from(refused: RewriteNo) -> Self {
        match refused {
            RewriteNo::RW1(place, total) => ListingNo::RW1(place, total),
            RewriteNo::Select(place, why) => ListingNo::Select(place, why),
            RewriteNo::Memory => ListingNo::Memory,
        }
    }
}

impl From<SizeNo> for ListingNo {
    ghost use Rattle.std.specs.Prelude.{◌≡◌};
    ghost use Rattle.unit_listing.specs.Laid.{of_sizing};

    ghost from_gives = { λ refused no. no ≡ of_sizing refused };

    fn from(refused: SizeNo) -> Self {
        match refused {
            SizeNo::B1(place, distance) => ListingNo::B1(place, distance),
            SizeNo::Memory => ListingNo::Memory,
        }
    }
}
