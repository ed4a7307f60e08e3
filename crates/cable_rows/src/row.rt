//! A row by itself, well formed or not.

ghost use Rattle.std.specs.Prelude.{◌≡◌, IfOk};

use cable_definitions::row::RowKind;
use std::alloc::{AllocError, Global};
use std::marker::Model;

/// The members of a row, seen as a list: points by their numbers, or for `One` arcs.
#[derive(Drop)]
pub struct Members {
    members: Vec<u32>,
}

impl Model for Members {
    ghost use Rattle.std.specs.Prelude.{List, ℕ};

    ghost Value = { List ℕ };

    ghost view = { λ m. m.members.items };
}

impl Members {
    /// The members in their order.
    pub fn as_slice(&self) -> &[u32]
        ensures { result.now ≡ self.now }
    {
        self.members.as_slice()
    }
}

/// A row of any kind with any members, well formed or not.
#[derive(Drop)]
pub struct Row {
    pub kind: RowKind,
    pub members: Members,
}

impl Row {
    /// The row of this kind with these members.
    ///
    /// # Errors
    ///
    /// `AllocError` where there is no memory for the members.
    pub fn new(alloc: Global, kind: RowKind, members: &[u32]) -> Result<Row, AllocError>
        ensures kind { IfOk result (λ row. row.kind ≡ kind) }
        ensures members { IfOk result (λ row. row.members ≡ members.now) }
    {
        let members = members.to_vec(alloc)?;
        Ok(Row {
            kind,
            members: Members { members },
        })
    }
}
