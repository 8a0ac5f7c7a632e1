ghost use Rattle.std.specs.Prelude.{◌≡◌, ◌≤◌, ◌+◌, if◌then◌else◌, map, min};
ghost use Rattle.std.specs.List.{AllByRecursion};
ghost use Rattle.go_types.specs.Sizes.{most_size};
ghost use Rattle.go_types.specs.Signatures.{parameter_of, IsSoundParameter};
ghost use Rattle.abi0_layout.specs.Layouts as spec;
ghost use Rattle.abi0_layout.specs.Layouts.{end_of_list, components_in_list};

use go_types::{MOST_SIZE, Param, end_behind, measure_of};

/// How much a list of parameters takes, both up to `MOST_SIZE`.
#[derive(Clone, Copy)]
pub struct Room {
    /// Where it ends, in bytes.
    pub end: u64,
    /// How many components it has that aren't broken down further.
    pub components: u64,
}

/// How much parameters take that stand behind what ends there.
pub fn room_of(start: u64, list: &[Param]) -> Room
    requires start { start ≤ most_size }
    requires sound { AllByRecursion IsSoundParameter (map parameter_of list.now) }
    ensures end { result.end ≡ min (end_of_list start (map parameter_of list.now)) most_size }
    ensures components { result.components ≡ min (components_in_list (map parameter_of list.now)) most_size }
{
    let mut end = start;
    let mut components = 0;
    for param in list {
        let inner = measure_of(&param.kind);
        end = end_behind(end, inner);
        components = with_listed(components, param, inner.components);
    }
    Room { end, components }
}

// What isn't listed doesn't count.
fn with_listed(before: u64, param: &Param, components: u64) -> u64
    requires before { before ≤ most_size }
    requires components { components ≤ most_size }
    ensures { result ≡ min (before + (if spec.is_blank param.now.name then 0 else components)) most_size }
{
    if is_blank(param) {
        before
    } else {
        (before + components).min(MOST_SIZE)
    }
}

/// Whether it's named `_`.
pub fn is_blank(param: &Param) -> bool
    ensures { result ≡ spec.is_blank param.now.name }
{
    match &param.name {
        Some(name) => name.as_slice() == b"_".as_slice(),
        None => false,
    }
}

/// Where results begin behind arguments that end there, up to `MOST_SIZE`.
pub fn results_start(end: u64, results: &[Param]) -> u64
    requires { end ≤ most_size }
    ensures { result ≡ min (spec.results_start end (map parameter_of results.now)) most_size }
{
    if results.is_empty() {
        end
    } else {
        u64::next_multiple_of(end, 8).min(MOST_SIZE)
    }
}
