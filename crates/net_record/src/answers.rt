ghost use Rattle.std.specs.Prelude.{◌≡◌, ◌++◌, IfOk, OnOk};
ghost use Rattle.net_record.specs.Answers.{desk_asked, desks_asked};

use crate::questions::is_question;
use or_actor::Output;
use or_base::NoMemory;
use std::alloc::Global;

/// Adds the number of the desk that an output asks, if it asks one.
fn add_asked(desks: &mut Vec<u32>, output: &Output) -> Result<(), NoMemory>
    ensures { OnOk result (desks.new.items ≡ desks.old.items ++ desk_asked output.now) }
{
    match output {
        Output::To { lane, item } => {
            if is_question(item) {
                desks.push(*lane)?;
            }
        }
    }
    Ok(())
}

/// The numbers of the desks that are asked by what the driver sends, in order.
pub fn desks_asked(alloc: Global, issues: &[Output]) -> Result<Vec<u32>, NoMemory>
    ensures { IfOk result (λ desks. desks.items ≡ desks_asked issues.now) }
{
    let mut desks = Vec::new(alloc);
    for output in issues {
        add_asked(&mut desks, output)?;
    }
    Ok(desks)
}
