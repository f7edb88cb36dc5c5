//! Sections and subsections.

ghost use Rattle.std.specs.Prelude.{◌≡◌, IfErr, drop, option_map};
ghost use Rattle.binary_decoder.specs.Moves.{MovesBy, IsRefusal};
ghost use Rattle.binary_decoder.specs.Names.{part_at, parts_of, behind_title, content_of, first_content};
ghost use Rattle.binary_decoder.specs.Reading.{name_at};

use crate::cursor::Cursor;
use crate::fault::DecodeFault;

/// The bytes of a module before its first section.
const PREAMBLE: usize = 8;

/// The title of a name section.
const TITLE: &[u8] = b"name";

/// A part, which is a section of a module or a subsection of its name section: its id, and its content.
#[derive(Clone, Copy)]
pub(crate) struct Part<'a> {
    pub id: u8,
    pub content: Cursor<'a>,
}

/// Which part is looked for.
#[derive(Clone, Copy)]
pub(crate) enum Wanted {
    /// The name section of a module.
    NameSection,
    /// The subsection with the names of functions.
    FunctionNames,
}

/// What stands behind the preamble of a module.
pub(crate) fn sections(bytes: &[u8]) -> Cursor<'_>
    ensures { result.rest.now ≡ drop 8 bytes.now }
{
    let start = bytes.len().min(PREAMBLE);
    Cursor::new(&bytes[start..], start)
}

/// The next part.
#[tactic(auto, unfolding(crate::specs::Names::part_at))]
pub(crate) fn next_part<'a>(cursor: &mut Cursor<'a>) -> Result<Part<'a>, DecodeFault>
    ensures value { MovesBy (λ p. (p.id, p.content.rest.now)) result cursor.new.rest.now (part_at cursor.old.rest.now) }
    ensures refusal { IfErr result IsRefusal }
{
    let id = cursor.byte()?;
    let content = cursor.sized()?;
    Ok(Part { id, content })
}

/// What stands behind the title of a custom section that is a name section.
fn behind_title<'a>(content: &Cursor<'a>) -> Option<Cursor<'a>>
    ensures { option_map (λ c. c.rest.now) result ≡ behind_title (name_at content.now.rest.now) }
{
    let mut behind = *content;
    let Ok(title) = behind.name() else {
        return None;
    };
    if title == TITLE { Some(behind) } else { None }
}

/// What is looked for in a part, where that is the wanted one.
fn content_of<'a>(wanted: Wanted, part: &Part<'a>) -> Option<Cursor<'a>>
    ensures { option_map (λ c. c.rest.now) result ≡ content_of wanted (part.now.id, part.now.content.rest.now) }
{
    match wanted {
        Wanted::NameSection if part.id == 0 => behind_title(&part.content),
        Wanted::FunctionNames if part.id == 1 => Some(part.content),
        _ => None,
    }
}

/// What is looked for in the first wanted part before the first damage.
pub(crate) fn first_content<'a>(wanted: Wanted, parts: &Cursor<'a>) -> Option<Cursor<'a>>
    ensures { option_map (λ c. c.rest.now) result ≡ first_content wanted (parts_of parts.now.rest.now) }
{
    let mut left = *parts;
    for _ in 0..parts.rest().len() {
        let Ok(part) = next_part(&mut left) else {
            return None;
        };
        if let Some(content) = content_of(wanted, &part) {
            return Some(content);
        }
    }
    None
}
