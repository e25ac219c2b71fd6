//! Finds the floods in the counts of ten-minute periods, in one pass. A flood begins with a period of more than 10
//! activations and ends before the first period of fewer than 5.

ghost use Rattle.std.specs.Prelude.{◌≡◌, ◌+◌, ◌*◌, ◌≤◌, IfOk, IfSome, OnOk, ◌++◌, option_to_list};
ghost use Rattle.plant_types.specs.Results.{OnlyMemory};
ghost use Rattle.plant_floods.specs.Pass.{next_runs};
ghost use Rattle.plant_floods.specs.Floods as floods_of;
ghost use Rattle.plant_floods.specs.Pass as pass;

use crate::Run;
use plant_types::Fault;
use std::alloc::Global;

/// The floods in consecutive periods of ten minutes, oldest first. Each count is the number of activations in a period.
pub fn floods(alloc: Global, counts: &[u32]) -> Result<Vec<Run>, Fault>
    ensures value { IfOk result (λ runs. runs.items ≡ floods_of.floods counts.now) }
    ensures err { OnlyMemory result }
{
    let mut runs = Vec::new(alloc);
    let mut current = None;
    for (i, count) in counts.iter().enumerate() {
        let next = grown(current, i, *count);
        close(&mut runs, current, &next)?;
        current = next;
    }
    push_some(&mut runs, current)?;
    Ok(runs)
}

/// Appends the run, if any.
fn push_some(runs: &mut Vec<Run>, current: Option<Run>) -> Result<(), Fault>
    ensures value { OnOk result (runs.new.items ≡ runs.old.items ++ option_to_list current) }
    ensures err { OnlyMemory result }
{
    if let Some(run) = current {
        runs.push(run)?;
    }
    Ok(())
}

/// Appends the open run, if it does not go on.
fn close(runs: &mut Vec<Run>, current: Option<Run>, next: &Option<Run>) -> Result<(), Fault>
    ensures value { OnOk result (runs.new.items ≡ next_runs runs.old.items current next.now) }
    ensures err { OnlyMemory result }
{
    if next.is_none() {
        push_some(runs, current)?;
    }
    Ok(())
}

/// The open run after one more period. An open run goes on if the period has at least 5 activations; if no run is open,
/// one begins if the period has more than 10.
fn grown(current: Option<Run>, i: usize, count: u32) -> Option<Run>
    requires room { IfSome current (λ r. r.total ≤ 4294967295 * i) }
    ensures value { result ≡ pass.grown current i count }
    ensures room { IfSome result (λ r. r.total ≤ 4294967295 * (i + 1)) }
{
    match current {
        None => {
            if count > 10 {
                Some(Run {
                    first: i,
                    last: i,
                    total: u128::from(count),
                    peak: count,
                })
            } else {
                None
            }
        }
        Some(run) => {
            if count >= 5 {
                Some(Run {
                    first: run.first,
                    last: i,
                    total: run.total + u128::from(count),
                    peak: run.peak.max(count),
                })
            } else {
                None
            }
        }
    }
}
