//! What a listing says.

ghost use Rattle.std.specs.Prelude.{◌≡◌};
ghost use Rattle.replica.specs.Objects.{blocks_of};

use wasm_types::{Block, Profile, block_of};

/// What a listing says beside the items of the log and its counts. The default says nothing more.
#[derive(Clone, Copy, Debug, Default, PartialEq, Eq)]
pub struct ListingForm {
    /// Behind each entry, which bytes of the memory each object is that it touches.
    pub objects: bool,
    /// Behind the counts, a line for each contradiction of the log.
    pub contradictions: bool,
}

/// The block by which objects are told, where the form tells of them.
pub(crate) fn blocks_of(form: ListingForm, profile: Profile) -> Option<Block>
    ensures { result ≡ blocks_of form profile }
{
    if form.objects {
        Some(block_of(&profile))
    } else {
        None
    }
}
