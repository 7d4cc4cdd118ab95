//! What USE brings. What is brought again is not declared again.
ghost use Rattle.std.specs.Prelude.{◌≡◌, [], ◌++◌, map, reverse, IfOk, OnOk, option_map};
ghost use Rattle.std.specs.List.{filter, flat_map};
ghost use Rattle.names_types.specs.Scopes.{brought_by, brought_once, listed_in, offer_named, share_entry};
ghost use Rattle.names_types.specs.View.{use_of};
ghost use Rattle.scope_entries.specs.View.{entries_of, all_brought};

use crate::entry::{Entry, Form};
use a95_base::{Line, SharedBytes};
use indexmap::IndexSet;
use name_table::NameTable;
use names_types::{Offer, Share};
use sqlite_items::Items;
use std::alloc::{AllocError, Global};

/// A name that USE brings, on the line of USE.
#[derive(Clone, Copy)]
pub struct Brought<'a> {
    pub line: u32,
    pub share: &'a Share,
}

/// What the nearest module of this name above has for USE.
pub fn offer_named<'a>(above: &'a [Offer], name: &SharedBytes) -> Option<&'a Offer>
    ensures { option_map (λ o. o.now) result ≡ offer_named (reverse above.now) name.now }
{
    let mut left = above.len();
    while left > 0 {
        left -= 1;
        if *name == above[left].name {
            return Some(&above[left]);
        }
    }
    None
}

fn table_of(alloc: Global, listed: &[SharedBytes]) -> Result<NameTable, AllocError>
    ensures { IfOk result (λ names. names ≡ listed.now) }
{
    let mut names = NameTable::new(alloc);
    for name in listed {
        names.push(alloc, name.as_slice())?;
    }
    Ok(names)
}

/// The names of ONLY.
fn only_names(
    alloc: Global,
    only: &Option<Items<SharedBytes>>,
) -> Result<Option<NameTable>, AllocError>
    ensures { IfOk result (λ names. names ≡ only.now) }
{
    match only {
        None => Ok(None),
        Some(listed) => Ok(Some(table_of(alloc, listed.as_slice())?)),
    }
}

fn listed_in(only: &Option<NameTable>, share: &Share) -> bool
    ensures { result ≡ listed_in only.now share.now }
{
    match only {
        None => true,
        Some(only) => only.contains(share.name.as_slice()),
    }
}

/// What a module has of the names that are listed.
fn add_listed<'a>(
    line: u32,
    only: &Option<NameTable>,
    shares: &'a [Share],
    brought: &mut Vec<Brought<'a>>,
) -> Result<(), AllocError>
    ensures { OnOk result
        (all_brought brought.new.items ≡ all_brought brought.old.items
        ++ map (share_entry line) (filter (listed_in only.now) shares.now)) }
{
    for share in shares {
        if listed_in(only, share) {
            brought.push(Brought { line, share })?;
        }
    }
    Ok(())
}

/// What a USE statement brings.
fn add_used<'a>(
    alloc: Global,
    above: &'a [Offer],
    used: &'a (Line, SharedBytes, Option<Items<SharedBytes>>),
    brought: &mut Vec<Brought<'a>>,
) -> Result<(), AllocError>
    ensures { OnOk result
        (all_brought brought.new.items ≡ all_brought brought.old.items ++ brought_by (reverse above.now) (use_of used.now)) }
{
    let Some(offer) = offer_named(above, &used.1) else {
        return Ok(());
    };
    let only = only_names(alloc, &used.2)?;
    add_listed(used.0.0, &only, offer.shares.as_slice(), brought)
}

fn all_used<'a>(
    alloc: Global,
    above: &'a [Offer],
    uses: &'a [(Line, SharedBytes, Option<Items<SharedBytes>>)],
) -> Result<Vec<Brought<'a>>, AllocError>
    ensures { IfOk result (λ bs. all_brought bs.items ≡ flat_map (brought_by (reverse above.now)) (map use_of uses.now)) }
{
    let mut brought = Vec::new(alloc);
    for used in uses {
        add_used(alloc, above, used, &mut brought)?;
    }
    Ok(brought)
}

/// Each name of each module once.
fn once<'a>(alloc: Global, brought: &[Brought<'a>]) -> Result<Vec<Brought<'a>>, AllocError>
    ensures { IfOk result (λ bs. all_brought bs.items ≡ brought_once [] (all_brought brought.now)) }
{
    let mut seen = IndexSet::new(alloc);
    let mut kept = Vec::new(alloc);
    for one in brought {
        let name = Vec::from_slice(alloc, one.share.name.as_slice())?;
        let (_, is_new) = seen.insert_full((name, one.share.place))?;
        if is_new {
            kept.push(*one)?;
        }
    }
    Ok(kept)
}

fn add_all<'a>(brought: &[Brought<'a>], entries: &mut Vec<Entry<'a>>) -> Result<(), AllocError>
    ensures { OnOk result (entries_of entries.new.items ≡ entries_of entries.old.items ++ all_brought brought.now) }
{
    for one in brought {
        entries.push(Entry {
            line: one.line,
            name: &one.share.name,
            form: Form::Brings(one.share),
        })?;
    }
    Ok(())
}

/// What the USE statements of a scope bring, of the modules above it.
pub fn add_brought<'a>(
    alloc: Global,
    above: &'a [Offer],
    uses: &'a [(Line, SharedBytes, Option<Items<SharedBytes>>)],
    entries: &mut Vec<Entry<'a>>,
) -> Result<(), AllocError>
    ensures { OnOk result
        (entries_of entries.new.items ≡ entries_of entries.old.items
        ++ brought_once [] (flat_map (brought_by (reverse above.now)) (map use_of uses.now))) }
{
    let used = all_used(alloc, above, uses)?;
    let kept = once(alloc, used.as_slice())?;
    add_all(kept.as_slice(), entries)
}
