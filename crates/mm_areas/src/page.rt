//! A mapped page.

use crate::Rights;
use mm_frames::Frame;
use rv_table::Area;

/// A page of a shared area: the area, and which of its pages it is, counted from 0.
#[derive(Clone, Copy, Debug, PartialEq, Eq)]
pub struct SharedPage {
    pub area: Area,
    pub number: u64,
}

/// What a page has: a frame of its own, or a page of a shared area.
#[derive(Drop)]
pub enum Content {
    Private(Frame),
    Shared(SharedPage),
}

/// A mapped page: what may be done with its bytes, and where they are.
#[derive(Drop)]
pub struct Page {
    pub rights: Rights,
    pub content: Content,
}

/// What new pages are made of: zeros of their own, or the pages of a shared area from its first on.
#[derive(Clone, Copy, Debug, PartialEq, Eq)]
pub enum Backing {
    Zeros,
    Of(Area),
}
