use branch_size::SizeNo;
use flow_rules::FlowNo;
use goasm_base::{Memory as MemoryError, Name, Pos};
use link_names::{DataNo, NamesNo, SymbolNo};
use obj_rewrite::RewriteNo;
use thiserror::Error;
use unit_listing::ListingNo;

/// Why a build has no image. Of several causes the one that stands first here is told; `Rewrite` and `Size` are one stage, of which the
/// first function's is.
#[derive(Debug, Drop, Error)]
pub enum LinkNo {
    /// A symbol is defined twice, and not both times with DUPOK: its name.
    #[error("N1")]
    N1(Name),
    /// A `DATA` writes into no data that a `GLOBL` declares, or past its end: the name of its symbol.
    #[error("N6")]
    N6(Name),
    /// A function has no instructions.
    #[error("{0}")]
    Rewrite(RewriteNo),
    /// A branch of a function reaches its goal in no form.
    #[error("{0}")]
    Size(SizeNo),
    /// Something is referred to that stands for nothing, or the entry stands for no function: the name.
    #[error("N2")]
    N2(Name),
    /// There are more than 65,536 functions, the functions or the data take more than 2^24 bytes, or the image more than 2^26.
    #[error("N5")]
    N5,
    /// An instruction can't hold the address of what it refers to: the name of that symbol.
    #[error("N3")]
    N3(Name),
    /// An instruction jumps or calls to an address outside the text that no outside name has: the name of what it refers to.
    #[error("N7")]
    N7(Name),
    /// A function breaks a rule of its depth table: where the instruction stands in the sources, and the rule.
    #[error("a breach of the flow rules")]
    Flow(Pos, FlowNo),
    /// There was no memory for the image, or for what it's made of.
    #[error("out of memory")]
    Memory,
}

impl From<MemoryError> for LinkNo {
    ghost use Rattle.std.specs.Prelude.{◌≡◌};
    ghost use Rattle.link_build.specs.declared.link_no.LinkNo.TheVariants.{Memory};

    ghost from_gives = { λ _ no. no ≡ Memory };

    fn from(_: MemoryError) -> Self {
        LinkNo::Memory
    }
}

impl From<NamesNo> for LinkNo {
    ghost use Rattle.std.specs.Prelude.{◌≡◌};
    ghost use Rattle.link_build.specs.Refusals.{of_names};

    ghost from_gives = { λ refused no. no ≡ of_names refused };

    fn from(refused: NamesNo) -> Self {
        match refused {
            NamesNo::N1(name) => LinkNo::N1(name),
            NamesNo::Memory => LinkNo::Memory,
        }
    }
}

impl From<DataNo> for LinkNo {
    ghost use Rattle.std.specs.Prelude.{◌≡◌};
    ghost use Rattle.link_build.specs.Refusals.{of_data};

    ghost from_gives = { λ refused no. no ≡ of_data refused };

    fn from(refused: DataNo) -> Self {
        match refused {
            DataNo::N6(name) => LinkNo::N6(name),
            DataNo::Memory => LinkNo::Memory,
        }
    }
}

impl From<ListingNo> for LinkNo {
    ghost use Rattle.std.specs.Prelude.{◌≡◌};
    ghost use Rattle.link_build.specs.Refusals.{of_listing};

    ghost from_gives = { λ refused no. no ≡ of_listing refused };

    fn from(refused: ListingNo) -> Self {
        match refused {
            ListingNo::RW1(place, total) => LinkNo::Rewrite(RewriteNo::RW1(place, total)),
            ListingNo::Select(place, why) => LinkNo::Rewrite(RewriteNo::Select(place, why)),
            ListingNo::B1(place, distance) => LinkNo::Size(SizeNo::B1(place, distance)),
            ListingNo::Memory => LinkNo::Memory,
        }
    }
}

impl From<SymbolNo> for LinkNo {
    ghost use Rattle.std.specs.Prelude.{◌≡◌};
    ghost use Rattle.link_build.specs.Refusals.{of_symbol};

    ghost from_gives = { λ refused no. no ≡ of_symbol refused };

    fn from(refused: SymbolNo) -> Self {
        match refused {
            SymbolNo::N2(name) => LinkNo::N2(name),
            SymbolNo::Memory => LinkNo::Memory,
        }
    }
}
