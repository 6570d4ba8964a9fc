//! The lines of a script, in which names are looked up.

ghost use Rattle.std.specs.Prelude.{◌≡◌, ◌<◌, ◌≤◌, ◌^◌, ℕ, List, true, length, option_map, IfOk, OnOk, if◌then◌else◌};
ghost use Rattle.text_lines.specs.Lines.{views, words_of};
ghost use Rattle.script_asm.specs.Script as spec;
ghost use Rattle.script_asm.specs.Noting.{place_in, noted};

use crate::named::Named;
use crate::word::{begins_at, names_place};
use indexmap::IndexMap;
use std::alloc::{AllocError, Global};
use std::marker::Model;
use text_lines::Words;

/// The first word of a line.
pub fn first_word(line: &[u8]) -> Option<&[u8]>
    ensures { option_map (λ w. w.now) result ≡ spec.head_of (words_of line.now) }
{
    Words::new(line).next()
}

/// Whether a line with this first word is an instruction line.
fn starts_instruction(first: Option<&[u8]>) -> bool
    ensures { result ≡ spec.starts_instruction (option_map (λ w. w.now) first.entry) }
{
    match first {
        Some(word) => !begins_at(word),
        None => false,
    }
}

/// The number of instruction lines, of one line with this first word.
fn instruction_count(first: Option<&[u8]>) -> u64
    ensures few { result ≤ 1 }
    ensures count { result ≡ (if spec.starts_instruction (option_map (λ w. w.now) first.entry) then 1 else 0) }
{
    if starts_instruction(first) {
        return 1;
    }
    0
}

/// Notes where the line's name stands, unless an earlier line has the name.
fn note<'a>(
    places: &mut IndexMap<&'a [u8], Named>,
    first: Option<&'a [u8]>,
    named: Named,
) -> Result<(), AllocError>
    ensures { OnOk result ((w : List ℕ) → spec.names_place w ≡ true → place_in places.new w ≡ noted (place_in places.old w) (spec.is_word w (option_map (λ v. v.now) first.entry)) named) }
{
    let Some(word) = first else {
        return Ok(());
    };
    if !names_place(word) {
        return Ok(());
    }
    if places.get(word).is_none() {
        places.insert(word, named)?;
    }
    Ok(())
}

/// A script's lines, where each name stands first, and the number of instruction lines. Contracts see the words of the
/// lines.
#[derive(Drop)]
pub struct Names<'a, 'b> {
    lines: &'b [&'a [u8]],
    places: IndexMap<&'a [u8], Named>,
    count: u64,
}

impl<'a, 'b> Model for Names<'a, 'b> {
    ghost use Rattle.std.specs.Prelude.{List, ℕ, ◌≡◌, true};
    ghost use Rattle.text_lines.specs.Lines.{views};
    ghost use Rattle.script_asm.specs.Script as spec;
    ghost use Rattle.script_asm.specs.Noting.{place_in};

    ghost Value = { List (List (List ℕ)) };

    ghost view = { λ s. spec.words_in (views s.lines.now) };

    ghost invariant = { λ s. (s.count ≡ spec.instructions (spec.words_in (views s.lines.now)))
        × ((w : List ℕ) → spec.names_place w ≡ true → place_in s.places w ≡ spec.first_named (spec.words_in (views s.lines.now)) w 0 0) };
}

impl<'a, 'b> Names<'a, 'b> {
    /// The names of these lines.
    #[tactic(auto, using(crate::proofs::Counts::counts))]
    pub fn new(alloc: Global, lines: &'b [&'a [u8]]) -> Result<Names<'a, 'b>, AllocError>
        requires { length lines.now < 2 ^ 32 }
        ensures { IfOk result (λ names. names ≡ spec.words_in (views lines.now)) }
    {
        let mut places = IndexMap::new(alloc);
        let mut count = 0u64;
        let mut number = 0u64;
        for line in lines {
            let first = first_word(line);
            let named = Named {
                line: number,
                place: count,
            };
            note(&mut places, first, named)?;
            count += instruction_count(first);
            number += 1;
        }
        Ok(Names {
            lines,
            places,
            count,
        })
    }

    /// The number of instruction lines.
    pub fn count(&self) -> u64
        ensures { result ≡ spec.instructions self.now }
    {
        self.count
    }

    /// The first line that has the name, `@` and all.
    #[tactic(auto, unfolding(crate::specs::Script::named))]
    pub fn named(&self, name: &[u8]) -> Option<Named>
        ensures { result ≡ spec.named self.now name.now }
    {
        if !names_place(name) {
            return None;
        }
        self.places.get(name).copied()
    }
}
