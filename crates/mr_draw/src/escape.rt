//! Texts that were given, as they may stand in an SVG.
ghost use Rattle.std.specs.Prelude.{◌≡◌, ◌++◌, OnOk, string_bytes};
ghost use Rattle.mr_draw.specs.Escape.{entity, escaped};

use crate::Grown;

/// Adds the text, with an entity in place of each character that an SVG would take for its own.
pub(crate) fn push_escaped(svg: &mut String, text: &str) -> Grown<()>
    ensures { OnOk result (string_bytes svg.new ≡ string_bytes svg.old ++ escaped text.now) }
{
    for character in text.chars() {
        push_entity(svg, character)?;
    }
    Ok(())
}

/// Adds the character, or its entity; for a control character, which no SVG may have, a space.
fn push_entity(svg: &mut String, character: char) -> Grown<()>
    ensures { OnOk result (string_bytes svg.new ≡ string_bytes svg.old ++ entity character) }
{
    match character {
        '<' => svg.push_str("&lt;"),
        '>' => svg.push_str("&gt;"),
        '&' => svg.push_str("&amp;"),
        '"' => svg.push_str("&quot;"),
        '\'' => svg.push_str("&#39;"),
        other if other < ' ' => svg.push(' '),
        other => svg.push(other),
    }
}
