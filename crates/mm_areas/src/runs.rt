//! Runs of bytes put into pages whose bytes are their own.

ghost use Rattle.std.specs.Prelude.{◌≡◌, ℕ, ◌+◌, ◌-◌, ◌≤◌, ◌↔◌, true, false, length, IsTrue};
ghost use Rattle.std.specs.Bool.{OnTrue, OnFalse};
ghost use Rattle.mm_frames.specs.Numbers.{with_run};
ghost use Rattle.mm_areas.specs.Pages.{mapped_by};
ghost use Rattle.mm_areas.specs.Contents.{with_bytes_changed};
ghost use Rattle.mm_areas.specs.Own.{is_own_content};
ghost use Rattle.mm_areas.specs.DecodedWords.{has_row_content};

use crate::regions::find;
use crate::{Areas, Content, Page};

impl Page {
    /// Puts a run of bytes into a page whose bytes are its own, and answers whether it has.
    fn put_bytes(&mut self, offset: usize, run: &[u8]) -> bool
        ensures fits { IsTrue result ↔
            ((is_own_content self.old.content ≡ true) × (offset + length run.now ≤ 4096)) }
        ensures bytes { OnTrue result (mapped_by self.new ≡
            with_bytes_changed (λ bytes. with_run bytes offset run.now) (mapped_by self.old)) }
        ensures own { is_own_content self.new.content ≡ is_own_content self.old.content }
        ensures unchanged { OnFalse result (self.new ≡ self.old) }
        ensures row { OnTrue result (has_row_content self.new.content ≡ false) }
    {
        match &mut self.content {
            Content::Private(frame) => frame.put_bytes(offset, run),
            Content::Shared(_) => false,
        }
    }
}

impl Areas {
    ghost use Rattle.mm_areas.specs.Contents.{with_change};
    ghost use Rattle.mm_areas.specs.Mappings.{mapping, with_pages};
    ghost use Rattle.mm_areas.specs.Own.{owns};
    ghost use Rattle.mm_areas.specs.DecodedWords.{has_row_at};

    /// Puts a run of bytes into a page from an offset on, where the page's bytes are its own and it reaches so far, and
    /// answers whether it has. It takes no memory, and gives up the page's decoded words.
    #[tactic(auto, using(crate::proofs::RegionLaws::order_from_test))]
    pub fn put_bytes(&mut self, page: u64, offset: usize, run: &[u8]) -> bool
        ensures fits { IsTrue result ↔ ((owns self.old page ≡ true) × (offset + length run.now ≤ 4096)) }
        ensures bytes { OnTrue result (mapping self.new ≡
            with_pages (mapping self.old)
            (with_change (mapping self.old).pages page (λ bytes. with_run bytes offset run.now))) }
        ensures unchanged { OnFalse result (mapping self.new ≡ mapping self.old) }
        ensures owned { (other : ℕ) → owns self.new other ≡ owns self.old other }
        ensures row { OnTrue result (has_row_at self.new page ≡ false) }
        ensures row_kept { OnFalse result (has_row_at self.new page ≡ has_row_at self.old page) }
        ensures rows { (other : ℕ) → (other ≡ page → ⊥) →
            has_row_at self.new other ≡ has_row_at self.old other }
    {
        match find(self.regions.as_slice(), page) {
            Some(index) => {
                let region = &mut self.regions[index];
                let at = (page - region.first) as usize;
                region.pages[at].put_bytes(offset, run)
            }
            None => false,
        }
    }
}
