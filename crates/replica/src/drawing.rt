//! The picture of lines, as an SVG.

ghost use Rattle.std.specs.Prelude.{◌≡◌, ◌≤◌, ◌^◌, ◌++◌, true, IfOk, OnOk};
ghost use Rattle.std.specs.String.{string_bytes};
ghost use Rattle.std.specs.List.{flat_map, list_any};
ghost use Rattle.replica.specs.Drawing.{numbered, attribute, column_of, height_of, thread_line, thread_head, column_text, columns_text, columns_of, point_text, arrow_text, arrow_to, arrows_text, dot_of, has_unread, has_write, dot_text, touch_word, unread_word, mark_text, separator, marks_text, access_text, words_text, line_text, none_text, more_words, more_text, svg_head, drawn_text, drawing};

use crate::EventAt;
use crate::chart_lines::Line;
use crate::object_texts::{put_event, put_number};
use crate::versions_met::{LineAt, Mark};
use std::alloc::{AllocError, Global};

/// What begins each picture, up to its width.
const BEGIN: &str =
    "<svg xmlns=\"http://www.w3.org/2000/svg\" font-family=\"monospace\" font-size=\"12\" width=\"";

/// What stands behind the height of a picture.
const DEFINITIONS: &str =
    ">\n<defs><marker id=\"head\" markerWidth=\"9\" markerHeight=\"8\" refX=\"14\" refY=\"4\" orient=\"auto\"><path d=\"M0,0 L9,4 L0,8 Z\" fill=\"steelblue\"/></marker></defs>\n<style>text{stroke:white;stroke-width:3px;paint-order:stroke}</style>\n<rect width=\"100%\" height=\"100%\" fill=\"white\"/>\n";

/// Puts a number between quotes behind a text, and in front of it what it is.
fn put_attribute(text: &mut String, name: &str, number: u128) -> Result<(), AllocError>
    ensures { OnOk result (string_bytes text.new ≡ string_bytes text.old ++ attribute name.now number) }
{
    text.push_str(name)?;
    put_number(text, number)?;
    text.push_str("\"")?;
    Ok(())
}

/// Where the column of a thread is.
fn column_of(thread: u32) -> u128
    ensures value { result ≡ column_of thread }
    ensures few { result ≤ 2 ^ 80 }
{
    20 + 200 * u128::from(thread)
}

/// Where a line is.
fn height_of(line: usize) -> u128
    ensures value { result ≡ height_of line }
    ensures few { result ≤ 2 ^ 80 }
{
    50 + 20 * line as u128
}

/// Puts the line of a thread's column behind a text.
fn put_thread_line(text: &mut String, height: u128, thread: u32) -> Result<(), AllocError>
    ensures { OnOk result (string_bytes text.new ≡ string_bytes text.old ++ thread_line height thread) }
{
    put_attribute(text, "<line x1=\"", column_of(thread))?;
    put_attribute(text, " y1=\"30\" x2=\"", column_of(thread))?;
    put_attribute(text, " y2=\"", height)?;
    text.push_str(" stroke=\"lightgray\"/>\n")?;
    Ok(())
}

/// Puts the head of a thread's column behind a text.
fn put_thread_head(text: &mut String, thread: u32) -> Result<(), AllocError>
    ensures { OnOk result (string_bytes text.new ≡ string_bytes text.old ++ thread_head thread) }
{
    put_attribute(text, "<text x=\"", column_of(thread))?;
    text.push_str(" y=\"20\">thread ")?;
    put_number(text, thread)?;
    text.push_str("</text>\n")?;
    Ok(())
}

/// Puts the columns of the first threads behind a text.
fn put_columns(text: &mut String, columns: u32, height: u128) -> Result<(), AllocError>
    ensures { OnOk result (string_bytes text.new ≡ string_bytes text.old ++ columns_text columns height) }
{
    for thread in 0..columns {
        put_thread_line(text, height, thread)?;
        put_thread_head(text, thread)?;
    }
    Ok(())
}

/// How many columns there are: up to the greatest thread that has a line.
fn columns_of(lines: &[Line]) -> u32
    ensures { result ≡ columns_of lines.now }
{
    let mut columns = 0;
    for line in lines {
        columns = columns.max(line.thread() + 1);
    }
    columns
}

/// Puts where a line is behind a text, behind the names of both numbers.
fn put_point(text: &mut String, x: &str, y: &str, at: LineAt) -> Result<(), AllocError>
    ensures { OnOk result (string_bytes text.new ≡ string_bytes text.old ++ point_text x.now y.now at) }
{
    put_attribute(text, x, column_of(at.thread))?;
    put_attribute(text, y, height_of(at.line))?;
    Ok(())
}

/// Puts an arrow behind a text.
fn put_arrow(text: &mut String, from: LineAt, to: LineAt) -> Result<(), AllocError>
    ensures { OnOk result (string_bytes text.new ≡ string_bytes text.old ++ arrow_text from to) }
{
    put_point(text, "<line x1=\"", " y1=\"", from)?;
    put_point(text, " x2=\"", " y2=\"", to)?;
    text.push_str(" stroke=\"steelblue\" marker-end=\"url(#head)\"/>\n")?;
    Ok(())
}

/// Puts an arrow behind a text, if it comes from some line.
fn put_arrow_to(text: &mut String, to: LineAt, from: Option<LineAt>) -> Result<(), AllocError>
    ensures { OnOk result (string_bytes text.new ≡ string_bytes text.old ++ arrow_to to from) }
{
    match from {
        Some(from) => put_arrow(text, from, to),
        None => Ok(()),
    }
}

/// Puts the arrows to a line behind a text.
fn put_arrows_to(text: &mut String, to: LineAt, marks: &[Mark]) -> Result<(), AllocError>
    ensures { OnOk result (string_bytes text.new ≡ string_bytes text.old ++ flat_map (λ m. arrow_to to m.from) marks.now) }
{
    for mark in marks {
        put_arrow_to(text, to, mark.from)?;
    }
    Ok(())
}

/// Puts the arrows to a line behind a text.
fn put_arrows(text: &mut String, number: usize, line: &Line) -> Result<(), AllocError>
    ensures { OnOk result (string_bytes text.new ≡ string_bytes text.old ++ arrows_text number line.now) }
{
    let to = LineAt {
        thread: line.thread(),
        line: number,
    };
    put_arrows_to(text, to, line.marks())?;
    Ok(())
}

/// Puts the arrows to all lines behind a text.
fn put_all_arrows(text: &mut String, lines: &[Line]) -> Result<(), AllocError>
    ensures { OnOk result (string_bytes text.new ≡ string_bytes text.old ++ numbered arrows_text 0 lines.now) }
{
    let mut number = 0;
    for line in lines {
        put_arrows(text, number, line)?;
        number += 1;
    }
    Ok(())
}

/// Whether one of the touches is an unread write.
fn has_unread(marks: &[Mark]) -> bool
    ensures { result ≡ has_unread marks.now }
{
    marks.iter().any(|mark| mark.is_unread)
}

/// Whether one of the touches is a write.
fn has_write(marks: &[Mark]) -> bool
    ensures { result ≡ has_write marks.now }
{
    marks.iter().any(|mark| mark.is_write)
}

/// How the dot of an access is filled.
fn dot_of(is_unread: bool, is_write: bool) -> &'static str
    ensures { result.now ≡ dot_of is_unread is_write }
{
    if is_unread {
        " r=\"4\" fill=\"red\" stroke=\"red\"/>\n"
    } else if is_write {
        " r=\"4\" fill=\"black\" stroke=\"black\"/>\n"
    } else {
        " r=\"4\" fill=\"white\" stroke=\"black\"/>\n"
    }
}

/// Puts the dot of an access behind a text.
fn put_dot(text: &mut String, at: LineAt, marks: &[Mark]) -> Result<(), AllocError>
    ensures { OnOk result (string_bytes text.new ≡ string_bytes text.old ++ dot_text at marks.now) }
{
    put_point(text, "<circle cx=\"", " cy=\"", at)?;
    text.push_str(dot_of(has_unread(marks), has_write(marks)))?;
    Ok(())
}

/// What a touch did.
fn touch_word(is_write: bool) -> &'static str
    ensures { result.now ≡ touch_word is_write }
{
    if is_write { "write " } else { "read " }
}

/// What is told of a write over a version that its thread did not know.
fn unread_word(is_unread: bool) -> &'static str
    ensures { result.now ≡ unread_word is_unread }
{
    if is_unread {
        " <tspan fill=\"red\">unread</tspan>"
    } else {
        ""
    }
}

/// What stands in front of a touch.
fn separator(is_first: bool) -> &'static str
    ensures { result.now ≡ separator is_first }
{
    if is_first { " " } else { ", " }
}

/// Puts a touch behind a text.
fn put_mark(text: &mut String, mark: &Mark) -> Result<(), AllocError>
    ensures { OnOk result (string_bytes text.new ≡ string_bytes text.old ++ mark_text mark.now) }
{
    text.push_str(touch_word(mark.is_write))?;
    put_number(text, mark.object)?;
    text.push_str("@")?;
    put_number(text, mark.version)?;
    text.push_str(unread_word(mark.is_unread))?;
    Ok(())
}

/// Puts the touches of an access behind a text.
fn put_marks(text: &mut String, marks: &[Mark]) -> Result<(), AllocError>
    ensures { OnOk result (string_bytes text.new ≡ string_bytes text.old ++ marks_text true marks.now) }
{
    let mut is_first = true;
    for mark in marks {
        text.push_str(separator(is_first))?;
        put_mark(text, mark)?;
        is_first = false;
    }
    Ok(())
}

/// Puts where an event stands and what it touched behind a text.
fn put_access(text: &mut String, line: &Line) -> Result<(), AllocError>
    ensures { OnOk result (string_bytes text.new ≡ string_bytes text.old ++ access_text line.now) }
{
    let at = EventAt {
        thread: line.thread(),
        place: line.place(),
    };
    put_event(text, at)?;
    put_marks(text, line.marks())?;
    Ok(())
}

/// Puts the words of an access behind a text.
fn put_words(text: &mut String, number: usize, line: &Line) -> Result<(), AllocError>
    ensures { OnOk result (string_bytes text.new ≡ string_bytes text.old ++ words_text number line.now) }
{
    put_attribute(text, "<text x=\"", column_of(line.thread()) + 18)?;
    put_attribute(text, " y=\"", height_of(number) + 4)?;
    text.push_str(">")?;
    put_access(text, line)?;
    text.push_str("</text>\n")?;
    Ok(())
}

/// Puts a line behind a text.
fn put_line(text: &mut String, number: usize, line: &Line) -> Result<(), AllocError>
    ensures { OnOk result (string_bytes text.new ≡ string_bytes text.old ++ line_text number line.now) }
{
    let at = LineAt {
        thread: line.thread(),
        line: number,
    };
    put_dot(text, at, line.marks())?;
    put_words(text, number, line)?;
    Ok(())
}

/// Puts all lines behind a text.
fn put_lines(text: &mut String, lines: &[Line]) -> Result<(), AllocError>
    ensures { OnOk result (string_bytes text.new ≡ string_bytes text.old ++ numbered line_text 0 lines.now) }
{
    let mut number = 0;
    for line in lines {
        put_line(text, number, line)?;
        number += 1;
    }
    Ok(())
}

/// Puts behind a text that no access is drawn, where none is.
fn put_none(text: &mut String, lines: usize) -> Result<(), AllocError>
    ensures { OnOk result (string_bytes text.new ≡ string_bytes text.old ++ none_text lines) }
{
    if lines == 0 {
        text.push_str("<text x=\"20\" y=\"54\">no accesses</text>\n")?;
    }
    Ok(())
}

/// Puts how many known accesses have no row behind a text.
fn put_more_words(text: &mut String, lines: usize, more: usize) -> Result<(), AllocError>
    ensures { OnOk result (string_bytes text.new ≡ string_bytes text.old ++ more_words lines more) }
{
    put_attribute(text, "<text x=\"10\" y=\"", height_of(lines) + 24)?;
    text.push_str(" fill=\"gray\">")?;
    put_number(text, more)?;
    text.push_str(" more accesses: what they met is not known</text>\n")?;
    Ok(())
}

/// Puts how many known accesses have no row behind a text, if there are some.
fn put_more(text: &mut String, lines: usize, more: usize) -> Result<(), AllocError>
    ensures { OnOk result (string_bytes text.new ≡ string_bytes text.old ++ more_text lines more) }
{
    if more == 0 {
        return Ok(());
    }
    put_more_words(text, lines, more)
}

/// Puts what begins a picture behind a text.
fn put_head(text: &mut String, columns: u32, lines: usize) -> Result<(), AllocError>
    ensures { OnOk result (string_bytes text.new ≡ string_bytes text.old ++ svg_head columns lines) }
{
    put_attribute(text, BEGIN, 200 * u128::from(columns) + 240)?;
    put_attribute(text, " height=\"", height_of(lines) + 40)?;
    text.push_str(DEFINITIONS)?;
    Ok(())
}

/// Puts columns, arrows, dots and words behind a text.
fn put_drawn(text: &mut String, lines: &[Line]) -> Result<(), AllocError>
    ensures { OnOk result (string_bytes text.new ≡ string_bytes text.old ++ drawn_text lines.now) }
{
    let columns = columns_of(lines);
    put_head(text, columns, lines.len())?;
    put_columns(text, columns, height_of(lines.len()))?;
    put_all_arrows(text, lines)?;
    put_lines(text, lines)?;
    Ok(())
}

/// The picture of lines, behind which so many known accesses have no row.
pub(crate) fn drawing(alloc: Global, lines: &[Line], more: usize) -> Result<String, AllocError>
    ensures { IfOk result (λ text. string_bytes text ≡ drawing lines.now more) }
{
    let mut text = String::new(alloc);
    put_drawn(&mut text, lines)?;
    put_none(&mut text, lines.len())?;
    put_more(&mut text, lines.len(), more)?;
    text.push_str("</svg>\n")?;
    Ok(text)
}
