//! The parts of a path, one after another.

ghost use Rattle.std.specs.Prelude.{◌≡◌, ◌^◌, ◌<◌, length, nat_eq, not, position, [], ◌∷◌, MatchOption};
ghost use Rattle.std.specs.Iterator.{YieldsFirstBy, item_count};
ghost use Rattle.sn_text.specs.Paths.{parts_of};

use std::marker::Model;

/// The parts of a path that are left, in order. Contracts see it as the list of those parts.
#[derive(Debug, Drop)]
pub struct PartsOfPath<'a> {
    path: &'a [u8],
}

impl<'a> Model for PartsOfPath<'a> {
    ghost use Rattle.std.specs.Prelude.{ℕ, List};

    ghost Value = { List (List ℕ) };

    ghost use Rattle.sn_text.specs.Paths.{parts_of};

    ghost view = { λ a. parts_of a.path.now };
}

impl<'a> PartsOfPath<'a> {
    #[tactic(auto, using(crate::proofs::PathParts::parts_within))]
    pub(crate) fn new(path: &'a [u8]) -> Self
        ensures parts { result ≡ parts_of path.now }
        ensures fits { length result < 2 ^ 64 }
    {
        PartsOfPath { path }
    }
}

// Where the first part begins.
fn part_start(path: &[u8]) -> Option<usize>
    ensures { result ≡ position (λ byte. not (nat_eq byte 47)) path.now }
{
    path.iter().position(|byte| *byte != b'/')
}

// Where the first slash stands.
fn first_slash(path: &[u8]) -> Option<usize>
    ensures { result ≡ position (λ byte. nat_eq byte 47) path.now }
{
    path.iter().position(|byte| *byte == b'/')
}

// The first part of a path, and what stands behind it.
#[tactic(auto, using(crate::proofs::PathParts::no_parts, crate::proofs::PathParts::first_part))]
fn split_part(path: &[u8]) -> Option<(&[u8], &[u8])>
    ensures { MatchOption result (parts_of path.now ≡ []) (λ split.
        parts_of path.now ≡ split.0.now ∷ parts_of split.1.now) }
{
    let start = part_start(path)?;
    let (_, begun) = path.split_at(start);
    let end = first_slash(begun).unwrap_or(begun.len());
    Some(begun.split_at(end))
}

impl<'a> Iterator for PartsOfPath<'a> {
    type Item = &'a [u8];

    ghost next_gives = { YieldsFirstBy (λ part. part.now) (λ rest. rest) };

    ghost remaining = { item_count (λ rest. rest) };

    fn next(&mut self) -> Option<&'a [u8]> {
        let (part, rest) = split_part(self.path)?;
        self.path = rest;
        Some(part)
    }
}
