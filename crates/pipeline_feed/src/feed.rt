//! The feed of a pipeline.

ghost use Rattle.std.specs.Prelude.{◌≡◌, ◌++◌, [], List, IfOk, OnOk, OnErr};
ghost use Rattle.grid_base.specs.declared.entry.Entry as entries_of;
ghost use Rattle.pipeline_eval.specs.Pipes.{pipe_items};
ghost use Rattle.pipeline_feed.specs.Fed.{IsFed};

use crate::element_set::ElementSet;
use crate::stages::{feed_all, further_of};
use grid_base::{Entry, Item, Items, NoMemory};
use pipeline_eval::elements_of;
use pipeline_expr::{Op, Pipeline};
use std::alloc::Global;
use std::marker::Model;

/// What a pipeline has to remember of the entries that it was fed: for each of its `distinct`s, in
/// turn, the elements that came to it. Contracts see the list of these sets. The pipeline is handed
/// to each call, and is to be the same one.
#[derive(Drop)]
pub struct Feed {
    sets: Vec<ElementSet>,
}

impl Model for Feed {
    ghost use Rattle.std.specs.Prelude.{List};
    ghost use Rattle.std.specs.Coded.{coded_list};
    ghost use Rattle.std.specs.FinSet as set;
    ghost use Rattle.grid_base.specs.contracts.item.Item as element;
    ghost use Rattle.pipeline_feed.specs.Fed.{Elements};

    ghost Value = { List Elements };

    ghost coded = { coded_list (set.code element.the_row.coded) };

    ghost view = { λ a. a.sets.items };
}

impl Feed {
    /// The feed of a pipeline that was fed nothing. The only failure is that memory runs out.
    pub fn new(alloc: Global, pipeline: &Pipeline) -> Result<Feed, NoMemory>
        ensures { IfOk result (λ feed. IsFed feed pipeline.now.ops []) }
    {
        let mut sets = Vec::new(alloc);
        for op in pipeline.ops.as_slice() {
            if let Op::Distinct = op {
                sets.push(ElementSet::new(alloc))?;
            }
        }
        Ok(Feed { sets })
    }

    /// The further items that the pipeline comes to when it is fed these entries. It changes
    /// nothing, and the only failure is that memory runs out.
    pub fn further(
        &self,
        alloc: Global,
        pipeline: &Pipeline,
        entries: &[Entry],
    ) -> Result<Items, NoMemory>
        ensures { IfOk result (λ items. (fed : List entries_of.Entry) → IsFed self.now pipeline.now.ops fed → pipe_items pipeline.now (fed ++ entries.now) ≡ pipe_items pipeline.now fed ++ items.list) }
    {
        let elements = elements_of(alloc, entries)?;
        let made = further_of(&self.sets, alloc, pipeline.ops.as_slice(), elements)?;
        listed(alloc, made)
    }

    /// The pipeline is fed the entries. It fails only where memory runs out, and then the feed is
    /// as before.
    pub fn feed(
        &mut self,
        alloc: Global,
        pipeline: &Pipeline,
        entries: &[Entry],
    ) -> Result<(), NoMemory>
        ensures ok { OnOk result ((fed : List entries_of.Entry) → IsFed self.old pipeline.now.ops fed → IsFed self.new pipeline.now.ops (fed ++ entries.now)) }
        ensures err { OnErr result (self.new ≡ self.old) }
    {
        let elements = elements_of(alloc, entries)?;
        feed_all(&mut self.sets, alloc, pipeline.ops.as_slice(), elements)
    }
}

/// The items as a list that callers grow. The only failure is that memory runs out.
fn listed(alloc: Global, items: Vec<Item>) -> Result<Items, NoMemory>
    ensures { IfOk result (λ list. list.list ≡ items.items) }
{
    let mut list = Items::with_room(alloc, items.len())?;
    for item in items {
        list.push(item)?;
    }
    Ok(list)
}
