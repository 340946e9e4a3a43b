//! A depth-first search of the graph of inline instances. It yields an order in which each instance that reaches no
//! cycle comes after all that it uses, and ranks from Tarjan's strongly connected components. Both only save time:
//! correctness does not depend on them, because the caller looks for instances that still lack a size, and tests the
//! ranks before it uses them.
ghost use Rattle.std.specs.Prelude.{◌<◌, length, IfOk, OnOk};
ghost use Rattle.std.specs.List.{All};
ghost use Rattle.mh_inline.specs.code.DepthFirst.{IsDepthSearch, IsVisitBelow};

use mh_grammar::Memory;
use mh_inline_unfold::inlined_in;
use mh_rules::{Expanded, InstanceProduction};
use std::alloc::Global;

/// A visit on the stack: the search enters the instance, or leaves it after all instances that it uses have been
/// entered.
#[derive(Clone, Copy)]
pub struct Visit {
    pub number: usize,
    pub leaving: bool,
}

/// The state of the search.
#[derive(Drop)]
pub struct DepthSearch {
    /// The low-link of each instance: the position, from 1, at which the instance was put on the list `open`, or the
    /// least such position of the open instances that it is known to reach; 0 before the instance is entered.
    pub lowest: Vec<usize>,
    /// The rank of each instance: a number that all instances of its strongly connected component share and that is at
    /// least as large as the ranks of the instances that it uses; 0 while the instance is open.
    pub ranks: Vec<usize>,
    /// The visits to be made, the next one last.
    pub stack: Vec<Visit>,
    /// The instances that have been entered and have no rank yet, in the order of entering.
    pub open: Vec<usize>,
    /// The instances whose visit is complete, in the order in which the search left them.
    pub finished: Vec<usize>,
}

fn visits_to_all(alloc: Global, count: usize) -> Result<Vec<Visit>, Memory>
    ensures { IfOk result (λ stack. All (IsVisitBelow count) stack.items) }
{
    let mut stack = Vec::new(alloc);
    for number in 0..count {
        stack.push(Visit {
            number,
            leaving: false,
        })?;
    }
    Ok(stack)
}

/// A search that will enter each instance.
fn new_search(alloc: Global, count: usize) -> Result<DepthSearch, Memory>
    ensures { IfOk result (IsDepthSearch count) }
{
    Ok(DepthSearch {
        lowest: vec![in alloc; 0; count]?,
        ranks: vec![in alloc; 0; count]?,
        stack: visits_to_all(alloc, count)?,
        open: Vec::new(alloc),
        finished: Vec::new(alloc),
    })
}

/// Pushes visits that enter these instances.
fn push_visits(stack: &mut Vec<Visit>, count: usize, numbers: &[usize]) -> Result<(), Memory>
    requires numbers { All (λ n. n < count) numbers.now }
    requires stack { All (IsVisitBelow count) stack.old.items }
    ensures { OnOk result (All (IsVisitBelow count) stack.new.items) }
{
    for number in numbers {
        stack.push(Visit {
            number: *number,
            leaving: false,
        })?;
    }
    Ok(())
}

/// Enters an instance, unless it has been entered before.
fn enter(
    alloc: Global,
    expanded: &Expanded,
    search: &mut DepthSearch,
    number: usize,
) -> Result<(), Memory>
    requires number { number < length expanded.now.instances }
    requires search { IsDepthSearch (length expanded.now.instances) search.old }
    ensures { OnOk result (IsDepthSearch (length expanded.now.instances) search.new) }
{
    if search.lowest[number] > 0 {
        return Ok(());
    }
    search.open.push(number)?;
    search.lowest[number] = search.open.len();
    search.stack.push(Visit {
        number,
        leaving: true,
    })?;
    let made_of = inlined_in(alloc, expanded, number)?;
    push_visits(
        &mut search.stack,
        expanded.instances.len(),
        made_of.as_slice(),
    )
}

/// The least low-link of the open instances among these, or `own` if that is smaller.
fn least_of(search: &DepthSearch, numbers: &[usize], own: usize) -> usize
    requires search { IsDepthSearch (length search.now.ranks.items) search.now }
    requires numbers { All (λ n. n < length search.now.ranks.items) numbers.now }
{
    let mut least = own;
    for number in numbers {
        if search.ranks[*number] == 0 {
            least = least.min(search.lowest[*number]);
        }
    }
    least
}

/// Gives the rank to all open instances from the last down to this one, and closes them.
fn close(search: &mut DepthSearch, number: usize, rank: usize)
    requires { IsDepthSearch (length search.old.ranks.items) search.old }
    ensures { IsDepthSearch (length search.old.ranks.items) search.new }
{
    while let Some(member) = search.open.pop() {
        search.ranks[member] = rank;
        if member == number {
            break;
        }
    }
}

/// Leaves an instance. If its low-link is still its own position, it closes its component: the instance and those
/// opened after it.
fn leave(
    alloc: Global,
    expanded: &Expanded,
    search: &mut DepthSearch,
    number: usize,
) -> Result<(), Memory>
    requires number { number < length expanded.now.instances }
    requires search { IsDepthSearch (length expanded.now.instances) search.old }
    ensures { OnOk result (IsDepthSearch (length expanded.now.instances) search.new) }
{
    search.finished.push(number)?;
    let made_of = inlined_in(alloc, expanded, number)?;
    let own = search.lowest[number];
    let least = least_of(search, made_of.as_slice(), own);
    if least < own {
        search.lowest[number] = least;
    } else {
        let rank = search.finished.len();
        close(search, number, rank);
    }
    Ok(())
}

fn make_visit(
    alloc: Global,
    expanded: &Expanded,
    search: &mut DepthSearch,
    next: Visit,
) -> Result<(), Memory>
    requires number { next.number < length expanded.now.instances }
    requires search { IsDepthSearch (length expanded.now.instances) search.old }
    ensures { OnOk result (IsDepthSearch (length expanded.now.instances) search.new) }
{
    if next.leaving {
        leave(alloc, expanded, search, next.number)
    } else {
        enter(alloc, expanded, search, next.number)
    }
}

fn count_of_producers(productions: &[InstanceProduction]) -> usize {
    let mut count = 0usize;
    for production in productions {
        count = count.saturating_add(production.rhs.len());
    }
    count
}

/// An upper bound for the number of visits: each instance is pushed once at the start and left once, and each producer
/// is pushed once.
fn most_visits(expanded: &Expanded) -> usize {
    let mut count = 0usize;
    for instance in expanded.instances.as_slice() {
        count = count
            .saturating_add(2)
            .saturating_add(count_of_producers(instance.productions.as_slice()));
    }
    count
}

/// Makes visits until the stack is empty.
fn make_visits(alloc: Global, expanded: &Expanded, search: &mut DepthSearch) -> Result<(), Memory>
    requires { IsDepthSearch (length expanded.now.instances) search.old }
    ensures { OnOk result (IsDepthSearch (length expanded.now.instances) search.new) }
{
    for _ in 0..most_visits(expanded) {
        let Some(next) = search.stack.pop() else {
            break;
        };
        make_visit(alloc, expanded, search, next)?;
    }
    Ok(())
}

/// The state after the whole search. Fails only if memory runs out.
pub(crate) fn depth_first(alloc: Global, expanded: &Expanded) -> Result<DepthSearch, Memory>
    ensures { IfOk result (IsDepthSearch (length expanded.now.instances)) }
{
    let mut search = new_search(alloc, expanded.instances.len())?;
    make_visits(alloc, expanded, &mut search)?;
    Ok(search)
}
