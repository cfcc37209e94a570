// What terms say of a day, as a table.
ghost use Rattle.std.specs.Prelude.{◌≡◌, ℕ, ◌<◌, map, cond, Some, None, slice_index_or};
ghost use Rattle.day_table.specs.Table.{class_in, day_in};
ghost use Rattle.std.specs.List.{range_with_len};
ghost use Rattle.terms.specs.Laws.{names};
ghost use Rattle.terms.specs.Meaning.{successor};

use crate::reading::successor_at;
use terms::ClassTerms;

/// What terms say of one day. A table is by class number; past the last class it says none, 0 and no.
#[derive(Clone, Copy)]
pub struct DayTable {
    pub day: u32,
    /// How many classes the terms have.
    pub classes: u32,
    /// The class in which months are finally settled.
    pub settling: u32,
    pub table: [Option<ClassTerms>; 12],
    pub tradable: [bool; 12],
    /// The quantity of one lot in a class.
    pub quantity: [u32; 12],
    /// Whether a class has parts.
    pub whole: [bool; 12],
    /// Whether any class has parts.
    pub some_parts: bool,
    /// Whether every class succeeds itself.
    pub all_stay: bool,
    /// Whether another class succeeds to the settling class.
    pub taken_over: bool,
    /// The next open day.
    pub next: Option<u32>,
}

// Notes that a class hands over to its successor.
fn note_source(sources: &mut [Option<u32>; 12], successor: Option<u32>, class: u32)
    ensures { (t : ℕ) → t < 12 → slice_index_or sources.new t None ≡ cond (names successor t) (Some class) (slice_index_or sources.old t None) }
{
    if let Some(successor) = successor {
        if successor < 12 {
            sources[successor as usize] = Some(class);
        }
    }
}

impl DayTable {
    /// Whether a class is tradable.
    pub fn is_tradable(&self, class: u32) -> bool
        ensures { result ≡ (day_in self.now).tradable class }
    {
        self.tradable.get(class as usize).copied().unwrap_or(false)
    }

    /// Whether a class is a part of another.
    pub fn is_part(&self, class: usize, part: usize) -> bool
        ensures { result ≡ (day_in self.now).part class part }
    {
        match self.table.get(class) {
            Some(Some(class)) => class.parts.get(part).copied().unwrap_or(false),
            _ => false,
        }
    }

    /// Whether a class has parts.
    pub fn has_parts(&self, class: usize) -> bool
        ensures { result ≡ (day_in self.now).whole class }
    {
        self.whole.get(class).copied().unwrap_or(false)
    }

    /// The quantity of one lot in a class.
    pub fn quantity_of(&self, class: u32) -> u32
        ensures { result ≡ (day_in self.now).quantity class }
    {
        self.quantity.get(class as usize).copied().unwrap_or(0)
    }

    /// The class that each class succeeds.
    pub fn sources(&self) -> [Option<u32>; 12]
        ensures { result ≡ map (day_in self.now).source (range_with_len 0 12) }
    {
        let mut sources = [None; 12];
        for class in 0..self.classes.min(12) {
            note_source(&mut sources, successor_at(&self.table, class), class);
        }
        sources
    }
}
