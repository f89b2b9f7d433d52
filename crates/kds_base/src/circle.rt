//! Indices in circular lists, where the first item follows the last one.
ghost use Rattle.std.specs.Prelude.{◌≡◌};
ghost use Rattle.kds_base.specs.Circle.{next_of};

/// Returns the index after `index` in a circular list of `count` items: `index + 1`, or 0 if no item has that index.
pub fn next_of(count: usize, index: usize) -> usize
    ensures { result ≡ next_of count index }
{
    match index.checked_add(1) {
        Some(next) if next < count => next,
        _ => 0,
    }
}
