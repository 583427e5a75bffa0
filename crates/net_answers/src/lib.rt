//! What a record of a run tells of answers and of routes.
//!
//! The law holds of every record of every run, under any legal schedule, whether every phase was settled or not. Each answer
//! is what the first entries of its node's journal hold under the key, or the route from scratch over them; they are no fewer
//! than the desk had seen, or else the answer says that the desk was behind (`specs/Answered.antt`). The routes that a settle
//! shows are those from scratch over the whole journal that it tells of (`specs/Routed.antt`). `records_answer` ensures the law,
//! and does nothing.
#![tactic(auto)]

ghost use Rattle.net_answers.specs.Recorded.{RecordsAnswer};

/// In every record of a run of a sound laboratory, under any legal schedule, each answer and each route that is shown is what
/// the journals of the record tell. It does nothing.
pub fn records_answer()
    ensures { RecordsAnswer }
{}
