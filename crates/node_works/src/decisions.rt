//! What a node decides of each arc.

ghost use Rattle.std.specs.Prelude.{◌≡◌, ◌<◌, length, replicate, slice_get, slice_set, Some, IfOk};
ghost use Rattle.cable_definitions.specs.declared.row.Mark.TheVariants.{Free};

use cable_definitions::row::Mark;
use std::alloc::{AllocError, Global};
use std::marker::Model;

/// What a node decides of each arc, seen as a list of marks, one per arc.
#[derive(Drop)]
pub struct Decisions {
    marks: Vec<Mark>,
}

impl Model for Decisions {
    ghost use Rattle.std.specs.Prelude.{List};
    ghost use Rattle.cable_definitions.specs.declared.row.Mark.{Mark};

    ghost Value = { List Mark };

    ghost view = { λ d. d.marks.items };
}

impl Decisions {
    /// The decisions of this many arcs, all free.
    ///
    /// # Errors
    ///
    /// `AllocError` where there is no memory for them.
    pub fn new(alloc: Global, arcs: u32) -> Result<Decisions, AllocError>
        ensures { IfOk result (λ d. d ≡ replicate arcs Free) }
    {
        let marks = vec![in alloc; Mark::Free; arcs as usize]?;
        Ok(Decisions { marks })
    }

    /// The marks in order of arc.
    pub fn as_slice(&self) -> &[Mark]
        ensures { result.now ≡ self.now }
    {
        self.marks.as_slice()
    }

    /// The mark of an arc.
    pub fn mark(&self, arc: u32) -> Mark
        requires { arc < length self.now }
        ensures { slice_get self.now arc ≡ Some result }
    {
        self.marks[arc as usize]
    }

    /// Gives an arc this mark. It takes no memory.
    pub fn set(&mut self, arc: u32, mark: Mark)
        requires { arc < length self.old }
        ensures { self.new ≡ slice_set self.old arc mark }
    {
        self.marks[arc as usize] = mark;
    }
}
