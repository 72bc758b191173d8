//! Lines in the order of their stops, where they can be found.
ghost use Rattle.std.specs.Prelude.{◌≡◌, IfOk, MatchOption, map};
ghost use Rattle.std.specs.BTreeMap.{keys};
ghost use Rattle.std.specs.List.Sorted.{IsStrictlySortedBy};
ghost use Rattle.dr_plan_sound.specs.Stops.{stop_cmp};
ghost use Rattle.dr_cert.specs.Indexing.{IsIndexOf, AreSorted, StandsAt, HasNoLine, HasRank};
ghost use Rattle.dr_cert.specs.Indexing.{AreRanksOf, line_of};

use crate::place::StopPlace;
use dr_plan_sound::copies::copy_stop;
use dr_plan_sound::{Line, Stop};
use std::alloc::{AllocError, Global};
use std::collections::BTreeMap;

/// The place of the stop's line.
pub fn find(lines: &[Line], stop: &StopPlace<'_>) -> Option<usize>
    requires { AreSorted lines.now }
    ensures { MatchOption result (HasNoLine lines.now stop.now) (StandsAt lines.now stop.now) }
{
    match lines.binary_search_by(|line| stop.compared(&line.stop)) {
        Ok(place) => Some(place),
        Err(_) => None,
    }
}

/// The rank of the stop's line.
pub fn rank_of(lines: &[Line], stop: &StopPlace<'_>) -> Option<u32>
    requires { AreSorted lines.now }
    ensures { MatchOption result (HasNoLine lines.now stop.now) (HasRank lines.now stop.now) }
{
    let Some(place) = find(lines, stop) else {
        return None;
    };
    Some(lines[place].rank)
}

/// A rank for each stop of a line.
fn ranks_of(alloc: Global, lines: &[Line]) -> Result<BTreeMap<Stop, u32>, AllocError>
    ensures { IfOk result (AreRanksOf lines.now) }
{
    let mut ranks = BTreeMap::new(alloc);
    for line in lines {
        ranks.insert(copy_stop(&line.stop)?, line.rank)?;
    }
    Ok(ranks)
}

/// The stops with their ranks as lines, in the order of the stops.
fn in_order(alloc: Global, ranks: BTreeMap<Stop, u32>) -> Result<Vec<Line>, AllocError>
    ensures same { IfOk result (λ v. v.items ≡ map line_of ranks.entries) }
    ensures ordered { IsStrictlySortedBy stop_cmp (keys ranks) }
{
    let lines: Vec<Line> = ranks
        .into_iter()
        .map(|(stop, rank)| Line { stop, rank })
        .collect(alloc)?;
    Ok(lines)
}

/// One line for each stop that has lines, in the order of the stops.
pub fn index_of(alloc: Global, lines: &[Line]) -> Result<Vec<Line>, AllocError>
    ensures { IfOk result (λ v. IsIndexOf lines.now v.items) }
{
    let ranks = ranks_of(alloc, lines)?;
    let index = in_order(alloc, ranks)?;
    Ok(index)
}
