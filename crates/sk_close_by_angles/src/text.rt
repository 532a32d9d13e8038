// The text of derived clusters.
ghost use Rattle.std.specs.Prelude.{◌≡◌, ◌++◌, IfOk, OnOk};
ghost use Rattle.sk_close_by_angles.specs.DerivedText.{cluster_head, cluster_line, cluster_lines, clusters_head, derived_text};

use crate::lists::lists_in_order;
use sk_base::{Elem, List, NoMemory, Sketch, Text};
use sk_family::Family;
use sk_text::put_names;
use std::alloc::Global;

/// The number of clusters, then a line for each, in order of their elements. Lone elements aren't in
/// it.
pub fn derive_text(alloc: Global, s: &Sketch, family: &Family) -> Result<Text, NoMemory>
    ensures { IfOk result (λ text. text ≡ derived_text s.now family.now) }
{
    let lists = lists_in_order(alloc, family.clusters())?;
    let mut text = Text::new(alloc);
    put_head(alloc, &mut text, lists.len())?;
    put_clusters(alloc, &mut text, s, lists.as_slice())?;
    Ok(text)
}

/// Puts the line before those of the clusters.
fn put_head(alloc: Global, text: &mut Text, count: usize) -> Result<(), NoMemory>
    ensures { OnOk result (text.new ≡ text.old ++ clusters_head count) }
{
    let head = format!(in alloc; "clusters {count}\n")?;
    text.put(head.as_bytes())
}

/// Puts a line for each cluster, numbered from 1.
fn put_clusters(
    alloc: Global,
    text: &mut Text,
    s: &Sketch,
    lists: &[List<Elem>],
) -> Result<(), NoMemory>
    ensures { OnOk result (text.new ≡ text.old ++ cluster_lines s.now 1 lists.now) }
{
    for (i, list) in lists.iter().enumerate() {
        put_cluster(alloc, text, s, i + 1, list.as_slice())?;
    }
    Ok(())
}

fn put_cluster(
    alloc: Global,
    text: &mut Text,
    s: &Sketch,
    number: usize,
    elements: &[Elem],
) -> Result<(), NoMemory>
    ensures { OnOk result (text.new ≡ text.old ++ cluster_line s.now number elements.now) }
{
    put_cluster_head(alloc, text, number)?;
    put_names(text, s, elements)?;
    text.put(b"\n")
}

fn put_cluster_head(alloc: Global, text: &mut Text, number: usize) -> Result<(), NoMemory>
    ensures { OnOk result (text.new ≡ text.old ++ cluster_head number) }
{
    let head = format!(in alloc; "cluster {number} :")?;
    text.put(head.as_bytes())
}
