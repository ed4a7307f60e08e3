//! The names of the points in the order of their numbers, of which one is looked up by its bytes.

ghost use Rattle.std.specs.Prelude.{◌≡◌, ◌++◌, [], ◌∷◌, Any, MatchOption, OnOk, OnErr, slice_get, Some};
ghost use Rattle.site_model.specs.Numbered.{names_in};

use indexmap::IndexSet;
use std::alloc::{AllocError, Global};

/// The number of a name among the names.
pub(crate) fn number_in(names: &IndexSet<Vec<u8>>, name: &[u8]) -> Option<usize>
    ensures { MatchOption result
        (¬ Any (λ known. known ≡ name.now) (names_in names.now.keys))
        (λ number. slice_get (names_in names.now.keys) number ≡ Some name.now) }
{
    names.get_index_of(name)
}

/// Adds a new name after the others. Without memory they stay as they are.
pub(crate) fn add_name(
    alloc: Global,
    names: &mut IndexSet<Vec<u8>>,
    name: &[u8],
) -> Result<(), AllocError>
    requires { ¬ Any (λ known. known ≡ name.now) (names_in names.old.keys) }
    ensures added { OnOk result (names_in names.new.keys ≡ names_in names.old.keys ++ name.now ∷ []) }
    ensures unchanged { OnErr result (names.new.keys ≡ names.old.keys) }
{
    let own_name = Vec::from_slice(alloc, name)?;
    let Ok(_) = names.insert(own_name) else {
        return Err(AllocError);
    };
    Ok(())
}
