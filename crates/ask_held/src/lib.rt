// The two sheets that are held.
#![tactic(auto)]

ghost use Rattle.std.specs.Prelude.{◌≡◌};

mod held_sheet;

pub use held_sheet::{Sheet, Written};
use std::mem;

// Each is its owner's, and lent: to exchange them moves no byte.
#[derive(Drop)]
pub struct Held<'a> {
    pub sheet: &'a mut Sheet,
    pub other: &'a mut Sheet,
}

impl<'a> Held<'a> {
    // The sheet becomes the other one, and the other the sheet.
    pub fn exchange(&mut self)
        ensures sheet { self.new.sheet ≡ self.old.other }
        ensures other { self.new.other ≡ self.old.sheet }
    {
        mem::swap(&mut self.sheet, &mut self.other);
    }
}
