//! The shared areas in hand, those that were put aside, and the hints of accesses.

use crate::answers::Answer;
use crate::pages::look_at_area;
use crate::words::Words;
use mm_space::{Handed, HandedArea, Hints, SharedArea};
use read_cases::Bad;
use std::alloc::Global;
use std::mem;

/// The areas in hand and those aside, and the hints.
pub struct Hands {
    pub handed: Handed,
    pub aside: Handed,
    pub hints: Hints,
}

impl Drop for Hands {
    fn drop(self) {
        let Hands {
            handed: _,
            aside: _,
            hints: _,
        } = self;
    }
}

impl Hands {
    /// No area is in hand, and none aside.
    pub fn none(alloc: Global) -> Hands {
        Hands {
            handed: Handed::none(alloc),
            aside: Handed::none(alloc),
            hints: Hints::new(),
        }
    }

    /// Hands an area in, and leaves one without pages in its place.
    fn hand(
        &mut self,
        alloc: Global,
        area: &mut SharedArea,
        words: &mut Words<'_>,
    ) -> Result<Option<Answer>, Bad> {
        let Some(name) = words.area() else {
            return Ok(None);
        };
        let none = SharedArea::zeros(alloc, 0)?;
        let area = mem::replace(area, none);
        self.handed.push(HandedArea { name, area })?;
        Ok(Some(Answer::Silent))
    }

    /// Lends an area.
    fn lend(
        &mut self,
        alloc: Global,
        area: &mut SharedArea,
        words: &mut Words<'_>,
    ) -> Result<Option<Answer>, Bad> {
        let Some(name) = words.area() else {
            return Ok(None);
        };
        self.handed.lend(alloc, name, area)?;
        Ok(Some(Answer::Silent))
    }

    /// Takes the last area back, and tells its name.
    fn take_back(&mut self, area: &mut SharedArea) -> Option<Answer> {
        match self.handed.take_back() {
            Some(last) => {
                let name = last.name;
                *area = last.area;
                Some(Answer::Area(name))
            }
            None => Some(Answer::Word("none")),
        }
    }

    /// A look at the area in hand by a name.
    fn look(&self, words: &mut Words<'_>) -> Option<Answer> {
        let name = words.area()?;
        let verb = words.word()?;
        match self.handed.get(name) {
            Some(area) => look_at_area(area, verb, words),
            None => Some(Answer::Word("none")),
        }
    }

    /// Puts the areas in hand aside, and takes those up that were there.
    fn swap(&mut self) -> Option<Answer> {
        mem::swap(&mut self.handed, &mut self.aside);
        Some(Answer::Silent)
    }

    /// Does a verb of the areas in hand.
    pub fn do_hand(
        &mut self,
        alloc: Global,
        area: &mut SharedArea,
        verb: &str,
        words: &mut Words<'_>,
    ) -> Result<Option<Answer>, Bad> {
        match verb {
            "hand" => self.hand(alloc, area, words),
            "lend" => self.lend(alloc, area, words),
            "take_back" => Ok(self.take_back(area)),
            "in_hand" => Ok(self.look(words)),
            "swap_hands" => Ok(self.swap()),
            _ => Ok(None),
        }
    }
}
