ghost use Rattle.std.specs.Prelude.{◌≡◌, ◌≢◌, ℕ, Err, IfOk};
ghost use Rattle.goasm_base.specs.Statements.{IsValidFunction};
ghost use Rattle.unit_listing.specs.Kit.{kit_of};
ghost use Rattle.unit_listing.specs.Laid.{IsLaid};
ghost use Rattle.unit_listing.specs.Listing.{IsRefused};
ghost use Rattle.unit_listing.specs.declared.listing_no.ListingNo.TheVariants as numbers;

use crate::listing_no::ListingNo;
use asm_target::{Body, Target};
use branch_size::{Goals, Sizes, find_goals, size};
use goasm_base::Function;
use obj_rewrite::rewrite;
use std::alloc::Global;

/// A function's instructions, with their places.
#[derive(Drop)]
pub struct Laid<I> {
    /// The flags of its `TEXT`.
    pub flags: u32,
    pub body: Body<I>,
    pub sizes: Sizes,
    /// The lines that their references lead to.
    pub goals: Goals,
}

/// The instructions of a function, with their places.
pub fn lay<T: Target>(alloc: Global, func: &Function) -> Result<Laid<T::Instr>, ListingNo>
    requires { (symbols : ℕ) × IsValidFunction symbols func.now }
    ensures laid { let kit = kit_of T.instructions T.fits T.MACHINE T.QUANTUM T.SHAPE T.selection T.aiming T.entry T.check T.begins in
        IfOk result (λ laid. IsLaid kit func.now laid) }
    ensures refused { let kit = kit_of T.instructions T.fits T.MACHINE T.QUANTUM T.SHAPE T.selection T.aiming T.entry T.check T.begins in
        (no : ListingNo) → result ≡ Err no → no ≢ numbers.Memory → IsRefused kit func.now no }
{
    let body = rewrite::<T>(alloc, func)?;
    let sizes = size::<T>(alloc, &body)?;
    let goals = find_goals::<T>(alloc, &body)?;
    Ok(Laid {
        flags: func.flags,
        body,
        sizes,
        goals,
    })
}
