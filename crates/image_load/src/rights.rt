//! The rights of an image's pages.

ghost use Rattle.std.specs.Prelude.{◌≡◌, ◌||◌};
ghost use Rattle.mm_areas.specs.Rights.{has};
ghost use Rattle.image_load.specs.PageRights.{joined, page_rights};

use mm_areas::Rights;

/// The rights with which a page is mapped that an image wants with these: the one place where rights of the one kind
/// become rights of the other.
///
/// ELF-64 Object File Format, `p_flags`; mmap(2).
pub fn page_rights(rights: elf_image::SegmentRights) -> Rights
    ensures rights { result ≡ page_rights rights }
    ensures read { has result (record { 0 = 1 }) ≡ rights.read }
    ensures write { has result (record { 0 = 2 }) ≡ rights.write }
    ensures execute { has result (record { 0 = 4 }) ≡ rights.execute }
{
    Rights::of(rights.read, rights.write, rights.execute)
}

/// What two segments that meet a page want of it.
///
/// ELF-64 Object File Format, Program Loading.
pub fn joined(
    first: elf_image::SegmentRights,
    second: elf_image::SegmentRights,
) -> elf_image::SegmentRights
    ensures rights { result ≡ joined first second }
    ensures read { result.read ≡ (first.read || second.read) }
    ensures write { result.write ≡ (first.write || second.write) }
    ensures execute { result.execute ≡ (first.execute || second.execute) }
{
    elf_image::SegmentRights {
        read: first.read || second.read,
        write: first.write || second.write,
        execute: first.execute || second.execute,
    }
}
