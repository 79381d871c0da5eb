ghost use Rattle.std.specs.Prelude.{◌≡◌, length, min, take, option_copied};
ghost use Rattle.tv_base.specs.Given.{bytes_of};

/// A file that a desk in memory has.
#[derive(Clone, Copy)]
pub struct GivenFile<'a> {
    /// The name under which it is begun.
    pub name: &'a str,
    /// All its bytes.
    pub bytes: &'a [u8],
}

/// The bytes of the first file of this name.
pub(crate) fn find<'a>(files: &'a [GivenFile<'a>], name: &str) -> Option<&'a [u8]>
    ensures { option_copied result ≡ bytes_of files.now name.now }
{
    files
        .iter()
        .find(|file| file.name == name)
        .map(|file| file.bytes)
}

/// Copies the first bytes of `left` to the start of `buf`, as many as it has room for and at most
/// `most`, and answers how many.
pub(crate) fn copy_front(left: &[u8], buf: &mut [u8], most: usize) -> usize
    ensures count { result ≡ min (min (length left.now) (length buf.old)) most }
    ensures copied { take result buf.new ≡ take result left.now }
{
    let count = left.len().min(buf.len()).min(most);
    buf[..count].copy_from_slice(&left[..count]);
    count
}
