//! Two runs of bytes, one behind the other.

ghost use Rattle.std.specs.Prelude.{◌≡◌, ◌+◌, ◌-◌, ◌++◌, length, min, take, drop};

/// So many of the first bytes of two runs at most, as two runs.
pub fn front<'a>(first: &'a [u8], second: &'a [u8], count: usize) -> (&'a [u8], &'a [u8])
    ensures bytes { result.0.now ++ result.1.now ≡ take count (first.now ++ second.now) }
    ensures len { length result.0.now + length result.1.now ≡ min count (length first.now + length second.now) }
{
    if count <= first.len() {
        (&first[..count], &second[..0])
    } else {
        let rest = (count - first.len()).min(second.len());
        (first, &second[..rest])
    }
}

/// The bytes of two runs without so many of the first, as two runs.
pub(crate) fn behind<'a>(first: &'a [u8], second: &'a [u8], count: usize) -> (&'a [u8], &'a [u8])
    ensures bytes { result.0.now ++ result.1.now ≡ drop count (first.now ++ second.now) }
    ensures len { length result.0.now + length result.1.now ≡ length first.now + length second.now - count }
{
    if count <= first.len() {
        (&first[count..], second)
    } else {
        let skipped = (count - first.len()).min(second.len());
        (&first[..0], &second[skipped..])
    }
}
