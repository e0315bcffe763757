ghost use Rattle.std.specs.Prelude.{IfOk};
ghost use Rattle.worker_split.specs.Tasks.{task_of, IsRightEnd, IsRightOutcome};

use crate::outcome::{End, Outcome};
use crate::task::Task;
use order_search::{Search, Step};
use std::alloc::{AllocError, Global};
use std::sync::Arc;

/// Searches as the task says.
pub fn perform(alloc: Global, task: &Task) -> Result<Outcome, AllocError>
    ensures { IfOk result (λ x. IsRightOutcome (task_of task.now) x) }
{
    let from = task.position.copy()?;
    let end = searched(alloc, task)?;
    Ok(Outcome {
        job: task.job,
        version: task.version,
        piece: task.piece,
        from,
        budget: task.budget,
        end,
    })
}

fn searched(alloc: Global, task: &Task) -> Result<End, AllocError>
    ensures { IfOk result (λ end. IsRightEnd (task_of task.now) end) }
{
    let rules = Arc::try_clone(&task.rules)?;
    let mut search = Search::resume(alloc, rules, task.prefix.as_slice(), &task.position)?;
    let step = search.advance(task.budget);
    let position = search.position().copy()?;
    match step {
        Step::Found => Ok(End::Found {
            order: position.signs.copy()?,
            position,
        }),
        Step::Done => Ok(End::Done),
        Step::Paused => Ok(End::Paused { position }),
    }
}
