//! What a program begins with: its memory, by its image and its strings, and its registers.
//!
//! A caller hands in an image, and a program's strings and random bytes (`ProgramInput`), and gets an address space and
//! registers (`Loaded`). Contracts see the address space as mm_space does: its pages by their numbers, and its break.
//! `specs/Pages.antt` says the pages: each page that a segment meets, with the rights of every segment that meets it
//! (`rights_at`) and the file's bytes where a segment has them, else zeros (`image_byte`); and 64 pages of stack below
//! 2^38, which ends with `stack_bytes`. `specs/Loading.antt` says the address space and the registers.
//!
//! Proved of `load`: it gives exactly `opening_space` (`space`) and `opening_registers` (`registers`), of as many pages
//! as `pages_mapped` counts (`pages`). `TooBig` comes exactly where the strings are too many or too long (`faulty`),
//! and else `Limit` exactly where there are more than 16,384 pages (`limited`), whatever the memory; else an error is
//! want of memory (`fault`). `has_too_many_pages` is that test of the pages alone. `opening_stack` gives exactly
//! `stack_pointer` and `stack_bytes` (`sp`, `bytes`), which end at 2^38 (`top`). The stack pointer is a multiple of 16
//! (`aligned`) that leaves room for the words below the strings (`room`), and the greatest such (`greatest`). A program
//! that reads there finds argc, the pointers, their ends and the auxiliary vector, and follows each pointer to its
//! string and a NUL (`read`). `page_rights` has each right
//! exactly where the image has it, and `joined` each that one of both has (`read`, `write`, `execute`).
//!
//! Not said: that memory suffices, and how much is taken. That a page of no byte of the file takes none for its bytes,
//! and that a page that two segments meet is made once, is in the code alone.
//!
//! Standard: ELF-64 Object File Format, Program Loading and `p_flags`; mmap(2); brk(2); System V ABI and RISC-V ELF
//! psABI, Process Initialization; getauxval(3); execve(2), E2BIG and ENOMEM. The limits, the order of the errors, and
//! that the strings end 16 bytes below the stack's end, are choices of this project. No locks.
#![tactic(auto)]

mod counts;
mod loading;
mod pages;
mod places;
mod rights;
mod stack;
mod strings;
mod words;

pub use counts::has_too_many_pages;
pub use loading::{Loaded, load};
pub use rights::{joined, page_rights};
pub use stack::{Auxiliary, LoadErr, OpeningStack, ProgramInput, opening_stack};
pub use strings::{MOST_STRING_BYTES, MOST_STRINGS, is_too_big};
