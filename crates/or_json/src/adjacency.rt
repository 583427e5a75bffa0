//! An adjacency, as an item of a link record.

use crate::items::RecordItem;
use crate::member::{write_flag, write_number, write_text};
use crate::object::{flag_member, interface_name_member, node_name_member, number_member};
use json::Writer;
use or_base::{Adjacency, MOST_METRIC, NoMemory};
use serde_json::Value;
use std::alloc::Global;

impl RecordItem for Adjacency {
    ghost use Rattle.or_json.specs.Writing.{adjacency_data};
    ghost use Rattle.or_json.specs.Reading.{adjacency_of, have_same_interface};

    ghost item_data = { adjacency_data };

    ghost item_of = { adjacency_of };

    ghost has_same_key = { have_same_interface };

    #[tactic(auto, unfolding(crate::specs::Writing::adjacency_data))]
    fn write(&self, _alloc: Global, out: &mut Writer) -> Result<(), NoMemory> {
        out.begin_object()?;
        write_text(out, "other", self.other.as_str())?;
        write_text(out, "if", self.own_if.as_str())?;
        write_text(out, "other_if", self.other_if.as_str())?;
        write_number(out, "metric", self.metric)?;
        write_flag(out, "overload", self.overload)?;
        out.end_object()?;
        Ok(())
    }

    #[tactic(auto, unfolding(crate::specs::Reading::adjacency_of))]
    fn item_of(alloc: Global, value: &Value) -> Result<Option<Adjacency>, NoMemory> {
        let Some(other) = node_name_member(alloc, value, "other")? else {
            return Ok(None);
        };
        let Some(own_if) = interface_name_member(alloc, value, "if")? else {
            return Ok(None);
        };
        let Some(other_if) = interface_name_member(alloc, value, "other_if")? else {
            return Ok(None);
        };
        let Some(metric) = number_member(1, MOST_METRIC, value, "metric") else {
            return Ok(None);
        };
        let Some(overload) = flag_member(value, "overload") else {
            return Ok(None);
        };
        Ok(Some(Adjacency {
            other,
            own_if,
            other_if,
            metric,
            overload,
        }))
    }

    /// They are over the same interface of the node.
    fn has_same_key(&self, other: &Adjacency) -> bool {
        self.own_if.as_str() == other.own_if.as_str()
    }
}
