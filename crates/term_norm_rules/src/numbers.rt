// Words of a width as numbers.

ghost use Rattle.std.specs.Prelude.{◌≡◌, ◌+◌};
ghost use Rattle.term_core_spec.specs.Sort as spec;
ghost use Rattle.term_core_spec.specs.Sort.{bits};
ghost use Rattle.term_core_spec.specs.Value.{low_bits};
ghost use Rattle.term_norm_spec.specs.Normal.{negative};

use term_core::{bit_count, low_bits};
use term_core_spec::Width;

/// Whether two widths are the same.
pub fn same_width(first: Width, second: Width) -> bool
    ensures { result ≡ spec.same_width first second }
{
    bit_count(first) == bit_count(second)
}

/// The sum of two words.
pub fn sum(width: Width, a: u64, b: u64) -> u64
    ensures { result ≡ low_bits (bits width) (a + b) }
{
    low_bits(width, a.wrapping_add(b))
}

/// The word that gives 0 when it is added to this one.
pub fn negative(width: Width, number: u64) -> u64
    ensures { result ≡ negative width number }
{
    low_bits(width, low_bits(width, number).wrapping_neg())
}
