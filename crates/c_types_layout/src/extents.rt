//! How many elements arrays have that are directly inside one another (6.5.3.4).

ghost use Rattle.std.specs.Prelude.{◌≡◌, min};
ghost use Rattle.c_types_spec.specs.Types as tree;
ghost use Rattle.c_types_layout.specs.Extents.{array_extent, capped};

use c_types_spec::SIZE_LIMIT;

/// What arrays that are directly inside one another have.
#[derive(Clone, Copy)]
pub struct Extent {
    /// How many elements the innermost of them have in all, or [`SIZE_LIMIT`] where there are more;
    /// none where one of them has no length.
    pub count: Option<u64>,
    /// These elements are pointers.
    pub of_pointers: bool,
}

/// A size, or the limit where it is above that.
pub(crate) fn limited(size: u64) -> u64
    ensures { result ≡ min size SIZE_LIMIT }
{
    size.min(SIZE_LIMIT)
}

/// So many elements, or the limit where there are more.
pub(crate) fn times(count: Option<u64>, length: Option<u64>) -> Option<u64>
    ensures { result ≡ capped (tree.times count length) }
{
    match (count, length) {
        (Some(m), Some(n)) => Some(limited(m.saturating_mul(n))),
        _ => None,
    }
}

impl Extent {
    /// That of an array of so many of what has this one.
    pub(crate) fn of_array(self, length: Option<u64>) -> Extent
        ensures { result ≡ array_extent length self }
    {
        Extent {
            count: times(length, self.count),
            of_pointers: self.of_pointers,
        }
    }
}
