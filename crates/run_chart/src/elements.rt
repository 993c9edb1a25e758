//! The elements of the picture.
ghost use Rattle.std.specs.Prelude.{◌≡◌, ◌≤◌, ◌++◌, OnOk};
ghost use Rattle.run_chart.specs.Elements.{attribute, circle, class_begin, element, element_end, head_from_left, head_from_right, level, line_to, path_begin, path_end, rectangle, upright, words_begin, words_end, x_of, y_of};

use dn_base::Memory;
use text_pieces::Piece::{Bytes, Long};
use text_pieces::{push, push_pieces};

/// Where the columns begin.
pub(crate) const TOP: u64 = 104;

/// The middle of the column at a place.
pub(crate) fn x_of(place: u64) -> u64
    requires { place ≤ 32 }
    ensures value { result ≡ x_of place }
    ensures least { 300 ≤ result }
    ensures most { result ≤ 4524 }
{
    300 + 132 * place
}

/// The middle of a line.
pub(crate) fn y_of(line: u32) -> u64
    ensures value { result ≡ y_of line }
    ensures least { 130 ≤ result }
    ensures most { result ≤ 77309411440 }
{
    130 + 18 * line as u64
}

/// A point of the picture, from its upper left corner.
#[derive(Clone, Copy)]
pub(crate) struct Point {
    pub(crate) x: u64,
    pub(crate) y: u64,
}

/// Adds an attribute.
#[tactic(auto, unfolding(crate::specs::Elements::attribute))]
pub(crate) fn push_attribute(out: &mut Vec<u8>, name: &[u8], number: u64) -> Result<(), Memory>
    ensures { OnOk result (out.new.items ≡ out.old.items ++ attribute name.now number) }
{
    push_pieces(
        out,
        &[
            Bytes(b" "),
            Bytes(name),
            Bytes(b"='"),
            Long(number),
            Bytes(b"'"),
        ],
    )
}

/// Begins the name of a class.
#[tactic(auto, unfolding(crate::specs::Elements::class_begin))]
fn push_class_begin(out: &mut Vec<u8>) -> Result<(), Memory>
    ensures { OnOk result (out.new.items ≡ out.old.items ++ class_begin) }
{
    push(out, b" class='denovo-")
}

/// Begins an element of a class.
#[tactic(auto, unfolding(crate::specs::Elements::element))]
fn push_element(out: &mut Vec<u8>, name: &[u8], class: &[u8]) -> Result<(), Memory>
    ensures { OnOk result (out.new.items ≡ out.old.items ++ element name.now class.now) }
{
    push(out, b"<")?;
    push(out, name)?;
    push_class_begin(out)?;
    push(out, class)?;
    push(out, b"'")
}

#[tactic(auto, unfolding(crate::specs::Elements::element_end))]
fn push_element_end(out: &mut Vec<u8>) -> Result<(), Memory>
    ensures { OnOk result (out.new.items ≡ out.old.items ++ element_end) }
{
    push(out, b"/>\n")
}

/// Adds a circle about a point.
#[tactic(auto, unfolding(crate::specs::Elements::circle))]
pub(crate) fn push_circle(
    out: &mut Vec<u8>,
    class: &[u8],
    at: Point,
    radius: u64,
) -> Result<(), Memory>
    ensures { OnOk result (out.new.items ≡ out.old.items ++ circle class.now at.x at.y radius) }
{
    push_element(out, b"circle", class)?;
    push_attribute(out, b"cx", at.x)?;
    push_attribute(out, b"cy", at.y)?;
    push_attribute(out, b"r", radius)?;
    push_element_end(out)
}

/// Adds a rectangle at the left edge, from its upper left corner.
#[tactic(auto, unfolding(crate::specs::Elements::rectangle))]
pub(crate) fn push_rectangle(
    out: &mut Vec<u8>,
    class: &[u8],
    y: u64,
    width: u64,
    height: u64,
) -> Result<(), Memory>
    ensures { OnOk result (out.new.items ≡ out.old.items ++ rectangle class.now y width height) }
{
    push_element(out, b"rect", class)?;
    push_attribute(out, b"x", 0)?;
    push_attribute(out, b"y", y)?;
    push_attribute(out, b"width", width)?;
    push_attribute(out, b"height", height)?;
    push_element_end(out)
}

/// Begins a path of a class at a point.
#[tactic(auto, unfolding(crate::specs::Elements::path_begin))]
fn push_path_begin(out: &mut Vec<u8>, class: &[u8], from: Point) -> Result<(), Memory>
    ensures { OnOk result (out.new.items ≡ out.old.items ++ path_begin class.now from.x from.y) }
{
    push_element(out, b"path", class)?;
    push_pieces(
        out,
        &[Bytes(b" d='M"), Long(from.x), Bytes(b" "), Long(from.y)],
    )
}

/// Adds a line straight down to a height.
#[tactic(auto, unfolding(crate::specs::Elements::path_end, crate::specs::Elements::upright))]
pub(crate) fn push_upright(
    out: &mut Vec<u8>,
    class: &[u8],
    from: Point,
    bottom: u64,
) -> Result<(), Memory>
    ensures { OnOk result (out.new.items ≡ out.old.items ++ upright class.now from.x from.y bottom) }
{
    push_path_begin(out, class, from)?;
    push_pieces(out, &[Bytes(b"V"), Long(bottom), Bytes(b"'/>\n")])
}

/// Adds a line across, from the left edge on.
#[tactic(auto, unfolding(crate::specs::Elements::level, crate::specs::Elements::path_end))]
pub(crate) fn push_level(out: &mut Vec<u8>, class: &[u8], y: u64, right: u64) -> Result<(), Memory>
    ensures { OnOk result (out.new.items ≡ out.old.items ++ level class.now y right) }
{
    push_path_begin(out, class, Point { x: 0, y })?;
    push_pieces(out, &[Bytes(b"H"), Long(right), Bytes(b"'/>\n")])
}

/// Adds a line from one point to another.
#[tactic(auto, unfolding(crate::specs::Elements::line_to, crate::specs::Elements::path_end))]
pub(crate) fn push_line(
    out: &mut Vec<u8>,
    class: &[u8],
    from: Point,
    to: Point,
) -> Result<(), Memory>
    ensures { OnOk result (out.new.items ≡ out.old.items ++ line_to class.now from.x from.y to.x to.y) }
{
    push_path_begin(out, class, from)?;
    push_pieces(
        out,
        &[
            Bytes(b"L"),
            Long(to.x),
            Bytes(b" "),
            Long(to.y),
            Bytes(b"'/>\n"),
        ],
    )
}

#[tactic(auto, unfolding(crate::specs::Elements::path_end))]
fn push_path_end(out: &mut Vec<u8>) -> Result<(), Memory>
    ensures { OnOk result (out.new.items ≡ out.old.items ++ path_end) }
{
    push(out, b"'/>\n")
}

/// Adds the head of an arrow that comes from the left and ends at a point.
#[tactic(auto, unfolding(crate::specs::Elements::head_from_left))]
pub(crate) fn push_head_from_left(out: &mut Vec<u8>, at: Point) -> Result<(), Memory>
    ensures { OnOk result (out.new.items ≡ out.old.items ++ head_from_left at.x at.y) }
{
    push_path_begin(out, b"head", at)?;
    push(out, b"l-8 -4v8z")?;
    push_path_end(out)
}

/// The same of one that comes from the right.
#[tactic(auto, unfolding(crate::specs::Elements::head_from_right))]
pub(crate) fn push_head_from_right(out: &mut Vec<u8>, at: Point) -> Result<(), Memory>
    ensures { OnOk result (out.new.items ≡ out.old.items ++ head_from_right at.x at.y) }
{
    push_path_begin(out, b"head", at)?;
    push(out, b"l8 -4v8z")?;
    push_path_end(out)
}

/// Begins words of a class at a point.
#[tactic(auto, unfolding(crate::specs::Elements::attribute, crate::specs::Elements::words_begin))]
pub(crate) fn push_words_begin(out: &mut Vec<u8>, class: &[u8], at: Point) -> Result<(), Memory>
    ensures { OnOk result (out.new.items ≡ out.old.items ++ words_begin class.now at.x at.y) }
{
    push_pieces(
        out,
        &[
            Bytes(b"<text class='denovo-text denovo-"),
            Bytes(class),
            Bytes(b"' x='"),
            Long(at.x),
            Bytes(b"' y='"),
            Long(at.y),
            Bytes(b"'>"),
        ],
    )
}

/// Ends them.
#[tactic(auto, unfolding(crate::specs::Elements::words_end))]
pub(crate) fn push_words_end(out: &mut Vec<u8>) -> Result<(), Memory>
    ensures { OnOk result (out.new.items ≡ out.old.items ++ words_end) }
{
    push(out, b"</text>\n")
}
