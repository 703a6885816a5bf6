//! Decoded words of pages that may be executed, of which so many are kept.

ghost use Rattle.std.specs.Prelude.{◌≡◌, true, false, is_some, Some, IfSome};
ghost use Rattle.std.specs.Bool.{OnTrue};
ghost use Rattle.mm_frames.specs.Rows.{words_of};
ghost use Rattle.mm_areas.specs.DecodedWords.{has_row_at, row_at};
ghost use Rattle.mm_areas.specs.Hints.{allows_at};
ghost use Rattle.mm_space.specs.Accesses.{executable};
ghost use Rattle.mm_space.specs.Spaces.{space_of};

use crate::Space;
use mm_areas::Rights;
use mm_frames::Row;
use rv_table::Instr;
use std::alloc::Global;

/// Of how many pages the decoded words are kept.
const KEPT: usize = 64;

/// The pages whose words are kept decoded: of those of one number modulo 64 one at most, so 64 of all.
#[derive(Drop)]
pub(crate) struct Decoded {
    pages: [Option<u64>; KEPT],
}

impl Decoded {
    /// None.
    pub(crate) fn none() -> Decoded {
        Decoded {
            pages: [None; KEPT],
        }
    }

    /// Keeps a page, and answers another that has to go for it.
    pub(crate) fn keep(&mut self, page: u64) -> Option<u64> {
        let slot = (page % 64) as usize;
        let before = self.pages[slot];
        self.pages[slot] = Some(page);
        before
    }
}

impl Space {
    /// Decodes the words of a private page that may be executed, where that hasn't been done, and answers whether they
    /// are there. They aren't where memory was wanting: then each instruction is fetched and decoded by itself. At most
    /// 64 pages have their words there: others, of one number modulo 64 with this one, give theirs up. Nothing that an
    /// access sees changes.
    pub fn decode(&mut self, alloc: Global, page: u64) -> bool
        ensures there { OnTrue result (is_some (row_at (space_of self.old).mapping.pages page) ≡ true) }
        ensures allowed { OnTrue result (allows_at (space_of self.old).mapping.pages page executable ≡ true) }
        ensures row { OnTrue result (has_row_at self.new.areas page ≡ true) }
        ensures same { space_of self.new ≡ space_of self.old }
    {
        if !self.caches.make_room(alloc) {
            return false;
        }
        let hint = self.areas.hint_from(self.caches.hint(page), page);
        self.caches.keep_hint(page, hint);
        if !self.areas.decode(alloc, hint, page, Rights::EXECUTE) {
            return false;
        }
        self.make_room(page);
        true
    }

    /// Keeps a page among those whose words are there, and gives up those of another that has to go for it.
    fn make_room(&mut self, page: u64)
        ensures row { has_row_at self.new.areas page ≡ has_row_at self.old.areas page }
        ensures same { space_of self.new ≡ space_of self.old }
    {
        if let Some(other) = self.caches.keep_decoded(page) {
            if other != page {
                self.areas.drop_row(other);
            }
        }
    }

    /// The decoded words of a page, where they are there: 1,024 instructions, `Illegal` for a word that is none.
    pub fn words(&self, page: u64) -> Option<&[Instr]>
        ensures there { is_some result ≡ has_row_at self.now.areas page }
        ensures words { IfSome result (λ words. row_at (space_of self.now).mapping.pages page ≡ Some words.now) }
    {
        self.areas.row(page)
    }

    /// Takes the decoded words of a page out, where they are there, so that they can be read while the address space is
    /// written to. Until they are put back the page has none.
    pub fn take_words(&mut self, page: u64) -> Option<Row>
        ensures there { is_some result ≡ has_row_at self.old.areas page }
        ensures words { IfSome result (λ row. row_at (space_of self.old).mapping.pages page ≡ Some (words_of row)) }
        ensures same { space_of self.new ≡ space_of self.old }
    {
        let hint = self.caches.hint(page);
        self.areas.take_row(hint, page)
    }

    /// Puts back the decoded words of a page, which are those of its bytes.
    pub fn put_words(&mut self, page: u64, row: Row)
        requires { row_at (space_of self.old).mapping.pages page ≡ Some (words_of row) }
        ensures row { has_row_at self.new.areas page ≡ true }
        ensures same { space_of self.new ≡ space_of self.old }
    {
        self.make_room(page);
        let hint = self.caches.hint(page);
        self.areas.put_row(hint, page, row);
    }
}
