//! New pages: zeros of their own, or the pages of a shared area.

ghost use Rattle.std.specs.Prelude.{◌≡◌, false, length, map, IfOk};
ghost use Rattle.mm_areas.specs.Pages.{mapped_by, new_pages, mapped_new};
ghost use Rattle.mm_areas.specs.Own.{is_own_content};
ghost use Rattle.mm_areas.specs.Shares.{AreShared};
ghost use Rattle.mm_areas.specs.DecodedWords.{has_row_content, AreUndecoded};

use crate::{Backing, Content, Page, Rights, SharedPage};
use mm_frames::Frame;
use sn_base::Memory;
use std::alloc::Global;

/// The page of that number among new ones.
fn new_page(backing: Backing, rights: Rights, number: u64) -> Page
    ensures mapped { mapped_by result ≡ mapped_new backing rights number }
    ensures shared { is_own_content result.content ≡ false }
    ensures undecoded { has_row_content result.content ≡ false }
{
    let content = match backing {
        Backing::Zeros => Content::Private(Frame::zero()),
        Backing::Of(area) => Content::Shared(SharedPage { area, number }),
    };
    Page { rights, content }
}

/// So many new pages.
#[tactic(auto, using(crate::proofs::NewPageLaws::length_of_new))]
pub(crate) fn new_pages(
    alloc: Global,
    backing: Backing,
    rights: Rights,
    count: u64,
) -> Result<Vec<Page>, Memory>
    ensures pages { IfOk result (λ pages. map mapped_by pages.items ≡ new_pages backing rights count) }
    ensures count { IfOk result (λ pages. length pages.items ≡ count) }
    ensures shared { IfOk result (λ pages. AreShared pages.items) }
    ensures undecoded { IfOk result (λ pages. AreUndecoded pages.items) }
{
    let mut pages = Vec::with_capacity(alloc, count as usize)?;
    for number in 0..count {
        pages.push(new_page(backing, rights, number))?;
    }
    Ok(pages)
}
