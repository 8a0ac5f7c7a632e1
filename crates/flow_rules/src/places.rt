ghost use Rattle.std.specs.Prelude.{◌≡◌, ℕ, ◌<◌, IfSome, None};
ghost use Rattle.asm_target.specs.FlowRules as rules;

use crate::listing::Listing;

/// Which instruction stands at the address, found by halves.
pub fn number_at<L: Listing>(list: &L, address: u64) -> Option<usize>
    ensures inside { IfSome result (λ number. number < (L.function list.now).count) }
    ensures there { IfSome result (λ number. (L.function list.now).at number ≡ address) }
    ensures none { result ≡ None → (number : ℕ) → number < (L.function list.now).count
        → ¬ ((L.function list.now).at number ≡ address) }
{
    let mut low = 0;
    let mut high = list.count();
    while low < high {
        let middle = low + (high - low) / 2;
        let at = list.address(middle);
        if at == address {
            return Some(middle);
        }
        if at < address {
            low = middle + 1;
        } else {
            high = middle;
        }
    }
    None
}

/// Whether an instruction stands at the address.
pub fn is_start<L: Listing>(list: &L, address: u64) -> bool
    ensures { result ≡ rules.is_start (L.function list.now) address }
{
    number_at(list, address).is_some()
}
