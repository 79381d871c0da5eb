//! What a certificate that is a proof of listed functions gives.

ghost use Rattle.elf_read_spec.specs.File.{IsElf};
ghost use Rattle.cert_run.specs.Sides.{CheckedPairsAreValid, IsRead};

use elf_read::Image;
use validity_laws::certificates::proofs_give_validity;

/// The image that was read of a file is that of a file of bytes.
pub fn image_is_read(file: &[u8], image: &Image<'_>)
    ensures { IsElf file.now image.now → IsRead image.now }
{}

/// Each function of pairs of whose two sides a certificate is a proof is valid.
pub fn checked_pairs_are_valid()
    ensures { CheckedPairsAreValid }
{
    // a law, of which nothing runs
    proofs_give_validity();
}
