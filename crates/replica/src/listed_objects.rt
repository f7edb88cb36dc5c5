//! The lines of the objects that are listed.

ghost use Rattle.std.specs.Prelude.{◌≡◌, ◌≤◌, ◌++◌, ◌==◌, List, length, IfOk, OnOk};
ghost use Rattle.std.specs.List.{prefix_len};
ghost use Rattle.std.specs.String.{string_bytes};
ghost use Rattle.log_pieces.specs.Piece.{PieceValue};
ghost use Rattle.replica.specs.Judged.{IsFound};
ghost use Rattle.replica.specs.Objects.{object_text};
ghost use Rattle.replica.specs.Touched.{object_of, version_of};
ghost use Rattle.replica.specs.Order.{Rises, IsOrdered};
ghost use Rattle.replica.specs.Chosen.{asked_of, object_lines, lines, object_listing, IsObjectListing};

use crate::choice::{Choice, ChosenObjects};
use crate::collecting::all_touches;
use crate::header::put_header;
use crate::sorting::sort_touches;
use crate::touch::ObjectTouch;
use crate::versions::put_versions;
use crate::{Log, NO_PIECES, Replica};
use std::alloc::{AllocError, Global};
use wasm_types::{Block, NoMemory, block_of};

/// How many of the touches in front are of an object.
fn object_len(touches: &[ObjectTouch], object: u32) -> usize
    ensures len { result ≡ prefix_len (λ t. object_of t == object) touches.now }
    ensures within { result ≤ length touches.now }
{
    touches
        .iter()
        .take_while(|touch| touch.object == object)
        .count()
}

/// Puts the lines of an object behind a text, if it is chosen.
fn put_object(
    text: &mut String,
    chosen: &ChosenObjects<'_>,
    block: Block,
    object: u32,
    touches: &[ObjectTouch],
) -> Result<(), AllocError>
    requires { Rises version_of touches.now }
    ensures { OnOk result (string_bytes text.new ≡ string_bytes text.old ++ object_lines chosen.now (object_text block) object touches.now) }
{
    if chosen.is_chosen(object, touches) {
        put_header(text, block, object)?;
        put_versions(text, object, touches)?;
    }
    Ok(())
}

/// Puts the lines of the objects that are chosen behind a text.
fn put_lines(
    text: &mut String,
    chosen: &ChosenObjects<'_>,
    block: Block,
    touches: &[ObjectTouch],
) -> Result<(), AllocError>
    requires { IsOrdered touches.now }
    ensures { OnOk result (string_bytes text.new ≡ string_bytes text.old ++ lines chosen.now (object_text block) touches.now) }
{
    let mut rest = touches;
    while let Some(first) = rest.first() {
        let object = first.object;
        let (group, others) = rest.split_at(object_len(rest, object));
        put_object(text, chosen, block, object, group)?;
        rest = others;
    }
    Ok(())
}

/// The lines of the objects of these touches that are chosen.
fn lines(
    alloc: Global,
    choice: Choice<'_>,
    block: Block,
    mut touches: Vec<ObjectTouch>,
) -> Result<String, AllocError>
    ensures { IfOk result (λ text. string_bytes text ≡ lines (asked_of choice.entry) (object_text block) touches.items) }
{
    sort_touches(&mut touches)?;
    let chosen = ChosenObjects::of(alloc, choice)?;
    let mut text = String::new(alloc);
    let sorted = touches.as_slice();
    put_lines(&mut text, &chosen, block, sorted)?;
    Ok(text)
}

/// The listing of the objects of a log that are chosen, by rising object: which bytes each is, and by rising version who
/// made it and who read it, as far as known entries say. A write of which its thread neither read nor made the version
/// before is followed by `unread`.
pub fn object_listing(alloc: Global, log: &Log, choice: Choice<'_>) -> Result<String, NoMemory>
    ensures { IfOk result (λ text. string_bytes text ≡ object_listing (asked_of choice.entry) log.now) }
{
    let touches = all_touches(alloc, log)?;
    let block = block_of(&log.key().profile);
    let text = lines(alloc, choice, block, touches)?;
    Ok(text)
}

/// The listing of the objects of what was collected: that of a replica's log, or the listing of no piece.
pub fn listing_of(
    alloc: Global,
    replica: &Option<Replica>,
    choice: Choice<'_>,
) -> Result<String, NoMemory>
    ensures { IfOk result (λ text. (pieces : List PieceValue) → IsFound pieces replica.now → IsObjectListing (asked_of choice.entry) pieces (string_bytes text)) }
{
    match replica {
        Some(replica) => {
            let log = replica.log();
            // A fact for the prover: the items of each thread stand by rising place.
            log.is_ordered();
            object_listing(alloc, log, choice)
        }
        None => Ok(String::from_str(alloc, NO_PIECES)?),
    }
}
