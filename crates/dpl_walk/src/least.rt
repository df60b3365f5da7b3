//! Least offsets.

ghost use Rattle.std.specs.Prelude.{◌≡◌, Some, if◌then◌else◌};
ghost use Rattle.dpl_walk.specs.Least.{earlier as earlier_of};

/// The lesser of two offsets, where there are two.
pub fn earlier(a: Option<usize>, b: Option<usize>) -> Option<usize>
    ensures { result ≡ earlier_of a b }
{
    match (a, b) {
        (None, _) => b,
        (_, None) => a,
        (Some(a), Some(b)) => Some(a.min(b)),
    }
}

/// The least offset so far, and `at` where it was found.
pub fn note(first: Option<usize>, found: bool, at: usize) -> Option<usize>
    ensures { result ≡ (if found then earlier_of first (Some at) else first) }
{
    if found {
        earlier(first, Some(at))
    } else {
        first
    }
}
