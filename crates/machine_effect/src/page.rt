ghost use Rattle.std.specs.Prelude.{◌≡◌, ℕ, ◌+◌, ◌-◌, ◌<◌, ◌≤◌, length, slice_get, IfOk, IfSome, Option, Some, None, if◌then◌else◌};
ghost use Rattle.machine_effect.specs.Memory.{is_within};
ghost use Rattle.machine_effect.specs.Page.{page_size, at_place, IsFirstPlace};

use std::alloc::{AllocError, Global};

/// How many bytes a page has room for.
pub const PAGE: u64 = 4096;

/// 4,096 places for bytes, each of which has one or not.
#[derive(Drop)]
pub struct Page {
    places: Vec<Option<u8>>,
    ghost whole: { length places.items ≡ page_size },
}

impl Page {
    /// A page with no byte.
    pub fn new(alloc: Global) -> Result<Page, AllocError>
        ensures { IfOk result (λ page. (k : ℕ) → at_place page.places.items k ≡ None) }
    {
        let places = vec![in alloc; None; PAGE as usize]?;
        Ok(Page { places })
    }

    /// The byte at a place.
    pub fn byte(&self, place: usize) -> Option<u8>
        requires { place < page_size }
        ensures { result ≡ at_place self.now.places.items place }
    {
        self.places[place]
    }

    /// Sets these bytes from a place on.
    pub fn write(&mut self, place: usize, bytes: &[u8])
        requires { place + length bytes.now ≤ page_size }
        ensures { (k : ℕ) → at_place self.new.places.items k
            ≡ (if is_within place (length bytes.now) k then slice_get bytes.now (k - place) else at_place self.old.places.items k) }
    {
        write_places(&mut self.places, place, bytes);
    }

    /// The first place from this one on that has a byte.
    pub fn first_from(&self, place: usize) -> Option<usize>
        ensures some { IfSome result (λ k. IsFirstPlace self.now.places.items place k) }
        ensures none { result ≡ None → (k : ℕ) → place ≤ k → at_place self.now.places.items k ≡ None }
    {
        for k in place..self.places.len() {
            if self.places[k].is_some() {
                return Some(k);
            }
        }
        None
    }
}

fn write_places(places: &mut [Option<u8>], start: usize, bytes: &[u8])
    requires { start + length bytes.now ≤ length places.old }
    ensures { (k : ℕ) → at_place places.new k
        ≡ (if is_within start (length bytes.now) k then slice_get bytes.now (k - start) else at_place places.old k) }
{
    for (i, byte) in bytes.iter().enumerate() {
        places[start + i] = Some(*byte);
    }
}
