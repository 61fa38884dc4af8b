//! The settings of a folder, which stand in `.mailfold/config`.
//!
//! Each line is `layout = dots` or `layout = plain`, begins with `#`, or is empty.
ghost use Rattle.std.specs.Prelude.{◌≡◌, Err, Ok, string_bytes, IfOk};
ghost use Rattle.std.specs.List.{list_all, list_any};
ghost use Rattle.mr_mail.specs.Label.{text_eq};
ghost use Rattle.mr_maildir.specs.Layout.{cut_at};
ghost use Rattle.mr_fold.specs.inner.Settings.{layout_line, is_comment, layout_told};
ghost use Rattle.mr_fold.specs.inner.Settings as specs;

use crate::fold_fault::FoldFault;
use mr_maildir::Layout;
use std::alloc::{AllocError, Global};

/// The line that tells the layout.
fn layout_line(layout: Layout) -> &'static str
    ensures { result.now ≡ layout_line layout }
{
    match layout {
        Layout::Dots => "layout = dots",
        Layout::Plain => "layout = plain",
    }
}

/// The settings that tell this layout, as text.
pub(crate) fn settings_text(alloc: Global, layout: Layout) -> Result<String, AllocError>
    ensures { IfOk result (λ text. string_bytes text ≡ specs.settings_text layout) }
{
    let mut text = String::from_str(alloc, layout_line(layout))?;
    text.push_str("\n")?;
    Ok(text)
}

/// The layout that the settings tell, if they tell one. `BadSettings` where a line means nothing, and where they tell both.
pub(crate) fn layout_told(text: &str) -> Result<Option<Layout>, FoldFault>
    ensures { result ≡ layout_told text.now }
{
    if !are_settings(text) {
        return Err(FoldFault::BadSettings);
    }
    match (tells(text, Layout::Dots), tells(text, Layout::Plain)) {
        (true, true) => Err(FoldFault::BadSettings),
        (true, false) => Ok(Some(Layout::Dots)),
        (false, true) => Ok(Some(Layout::Plain)),
        (false, false) => Ok(None),
    }
}

/// Whether each line means something.
fn are_settings(text: &str) -> bool
    ensures { result ≡ list_all specs.is_setting (cut_at 10 text.now) }
{
    text.split('\n').all(|line| is_setting(line))
}

/// Whether a line means something.
fn is_setting(line: &str) -> bool
    ensures { result ≡ specs.is_setting line.now }
{
    line == layout_line(Layout::Dots) || line == layout_line(Layout::Plain) || is_comment(line)
}

/// Whether a line is empty, or begins with `#`.
fn is_comment(line: &str) -> bool
    ensures { result ≡ is_comment line.now }
{
    match line.as_bytes().first() {
        Some(first) => *first == b'#',
        None => true,
    }
}

/// Whether some line tells this layout.
fn tells(text: &str, layout: Layout) -> bool
    ensures { result ≡ list_any (λ line. text_eq line (layout_line layout)) (cut_at 10 text.now) }
{
    let told = layout_line(layout);
    text.split('\n').any(|line| line == told)
}
