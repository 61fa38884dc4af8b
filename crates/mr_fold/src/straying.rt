//! Mails that would be told as deleted, though their files lie in folders that are passed over.
ghost use Rattle.std.specs.Prelude.{◌≡◌, ◌++◌, IfOk, IfSome, OnOk, option_map, string_bytes};
ghost use Rattle.std.specs.List.{filter_map};
ghost use Rattle.std.specs.Option.{option_copied, option_to_list};
ghost use Rattle.mr_fold.specs.inner.Straying.{IsExplained, IsWhy, other_layout, path_instead, place_of, first_place, strays, stray_parts, lying_at};
ghost use Rattle.mr_fold.specs.Straying as specs;

use mr_compare::{Digest, MailAct};
use mr_folder::FolderPath;
use mr_maildir::{Act, Layout, folder_label};
use std::alloc::{AllocError, Global};
use std::collections::BTreeMap;
use std::fmt::{self, Display, Formatter, Write};

/// Mails that are missing from their folders, and lie in one that is passed over.
#[derive(Debug, Drop)]
pub struct StrayMails {
    /// How many they are.
    pub mails: usize,
    /// The path of the folder, below the Maildir.
    pub folder: String,
    /// Why it is passed over.
    pub why: WhyPassedOver,
}

/// Why a folder is passed over.
#[derive(Debug, Drop)]
pub enum WhyPassedOver {
    /// The layout has no folder at its path. It would have it at the path `instead`, if the other layout has one there.
    NoFolder {
        layout: Layout,
        instead: Option<String>,
    },
    /// A folder before it has its label.
    SameLabel,
}

/// It prints as `2 mails lie in work, which isn't a folder of the layout dots: move them into one, or rename work to .work`.
impl Display for StrayMails {
    fn fmt<W: Write>(&self, f: &mut Formatter<W>) -> fmt::Result {
        let mails = self.mails;
        let folder = self.folder.as_str();
        let lie = if mails == 1 { "mail lies" } else { "mails lie" };
        let them = if mails == 1 { "it" } else { "them" };
        write!(f, "{mails} {lie} in {folder}, which ")?;
        match &self.why {
            WhyPassedOver::SameLabel => write!(
                f,
                "has the label of another folder: move {them}, or rename {folder}"
            ),
            WhyPassedOver::NoFolder { layout, instead } => {
                let layout = layout_name(*layout);
                write!(
                    f,
                    "isn't a folder of the layout {layout}: move {them} into one"
                )?;
                write_instead(f, folder, instead.as_ref())
            }
        }
    }
}

/// Tells at which path the layout would have the folder, if it is a folder's of its own.
fn write_instead<W: Write>(
    f: &mut Formatter<W>,
    folder: &str,
    instead: Option<&String>,
) -> fmt::Result {
    match instead {
        Some(path) if !path.is_empty() => write!(f, ", or rename {folder} to {path}"),
        _ => Ok(()),
    }
}

/// The word for a layout: `dots` or `plain`.
pub fn layout_name(layout: Layout) -> &'static str
    ensures { result.now ≡ specs.layout_name layout }
{
    match layout {
        Layout::Dots => "dots",
        Layout::Plain => "plain",
    }
}

/// The mails that these acts would delete, though they lie in a folder that was passed over: those in the folder of the first of them. The
/// table tells of each mail that lies in such a folder the folder's place among these paths.
pub(crate) fn stray_mails(
    alloc: Global,
    layout: Layout,
    paths: &[FolderPath],
    acts: &[MailAct],
    table: &BTreeMap<Digest, usize>,
) -> Result<Option<StrayMails>, AllocError>
    ensures mails { IfOk result (λ stray. option_map stray_parts stray ≡ strays paths.now table.now.entries acts.now) }
    ensures why { IfOk result (λ stray. IfSome stray (IsExplained layout)) }
{
    let places = places_of(alloc, acts, table)?;
    match first_place(&places) {
        Some((place, mails)) => stray_in(alloc, layout, paths.get(place), mails),
        None => Ok(None),
    }
}

/// That so many mails lie in the folder, if there is one.
fn stray_in(
    alloc: Global,
    layout: Layout,
    folder: Option<&FolderPath>,
    mails: usize,
) -> Result<Option<StrayMails>, AllocError>
    ensures mails { IfOk result (λ stray. option_map stray_parts stray ≡ option_map (lying_at mails) (option_copied folder.entry)) }
    ensures why { IfOk result (λ stray. IfSome stray (IsExplained layout)) }
{
    let Some(folder) = folder else {
        return Ok(None);
    };
    let why = why_passed_over(alloc, layout, folder.as_str())?;
    let folder = String::from_str(alloc, folder.as_str())?;
    Ok(Some(StrayMails { mails, folder, why }))
}

/// Where the mails lie that these acts delete, as far as the table tells it, in the order of the acts.
fn places_of(
    alloc: Global,
    acts: &[MailAct],
    table: &BTreeMap<Digest, usize>,
) -> Result<Vec<usize>, AllocError>
    ensures { IfOk result (λ places. places.items ≡ filter_map (place_of table.now.entries) acts.now) }
{
    let mut places = Vec::new(alloc);
    for mail in acts {
        push_some(&mut places, place_of(mail, table))?;
    }
    Ok(places)
}

/// Puts the place behind the others, if there is one.
fn push_some(places: &mut Vec<usize>, place: Option<usize>) -> Result<(), AllocError>
    ensures { OnOk result (places.new.items ≡ places.old.items ++ option_to_list place) }
{
    if let Some(place) = place {
        places.push(place)?;
    }
    Ok(())
}

/// Where the mail lies, if the act deletes it and the table tells it.
fn place_of(mail: &MailAct, table: &BTreeMap<Digest, usize>) -> Option<usize>
    ensures { result ≡ place_of table.now.entries mail.now }
{
    match &mail.act {
        Act::Delete => table.get(&mail.digest).copied(),
        Act::Edit(_) | Act::Agree | Act::Create | Act::Follow | Act::Remove => None,
    }
}

/// The first of these places, and how often it stands among them.
fn first_place(places: &[usize]) -> Option<(usize, usize)>
    ensures { result ≡ first_place places.now }
{
    let first = places.first()?;
    let first = *first;
    let count = places.iter().filter(|place| **place == first).count();
    Some((first, count))
}

/// Why the folder at this path is passed over.
fn why_passed_over(alloc: Global, layout: Layout, path: &str) -> Result<WhyPassedOver, AllocError>
    ensures { IfOk result (IsWhy layout path.now) }
{
    match layout.folder_at(alloc, path)? {
        Some(_) => Ok(WhyPassedOver::SameLabel),
        None => {
            let instead = path_instead(alloc, layout, path)?;
            Ok(WhyPassedOver::NoFolder { layout, instead })
        }
    }
}

/// Where the layout has the folder that the other layout has at this path, if that has one there.
fn path_instead(alloc: Global, layout: Layout, path: &str) -> Result<Option<String>, AllocError>
    ensures { IfOk result (λ instead. option_map string_bytes instead ≡ path_instead layout path.now) }
{
    match other_layout(layout).folder_at(alloc, path)? {
        Some(name) => {
            let label = folder_label(alloc, name.as_str())?;
            Ok(Some(layout.folder_path(alloc, &label, Some(name.as_str()))?))
        }
        None => Ok(None),
    }
}

/// The layout that this one isn't.
fn other_layout(layout: Layout) -> Layout
    ensures { result ≡ other_layout layout }
{
    match layout {
        Layout::Dots => Layout::Plain,
        Layout::Plain => Layout::Dots,
    }
}
