//! The order of modules, each after those that it imports.

ghost use Rattle.std.specs.Prelude.{◌≡◌, ◌^◌, ◌<◌, [], length, IfOk, IfErr, IfSome};
ghost use Rattle.std.specs.List.{All};
ghost use Rattle.decl_groups.specs.Groups.{plain, list_at};
ghost use Rattle.import_graph.specs.Order.{IsOrder, IsRing};
ghost use Rattle.import_graph.specs.Rings as plain_rings;
ghost use Rattle.import_graph.specs.Rings.{IsLeast, joined};
ghost use Rattle.import_graph.specs.View.{IfRing};

use decl_groups::groups;
use std::alloc::{AllocError, AllocFailed, Global};

/// Why modules have no order.
#[derive(Debug, Drop)]
pub enum OrderError {
    /// Memory ran out.
    NoMemory,
    /// Modules import each other in a ring. Of the least module that reaches itself by imports these are all the
    /// modules that it reaches and that reach it, in ascending order. It is the first of them.
    Ring(Vec<u32>),
}

impl From<AllocError> for OrderError {
    ghost use Rattle.std.specs.Prelude.{◌≡◌};
    ghost use Rattle.import_graph.specs.declared.ordering.OrderError.TheVariants.{NoMemory};

    ghost from_gives = { λ _ e. e ≡ NoMemory };

    fn from(_error: AllocError) -> OrderError {
        OrderError::NoMemory
    }
}

/// The modules in order: repeatedly the least of the modules whose imports are all placed. Modules are numbered in
/// ascending order of their names, and `uses` has the modules that each one imports. It takes time in proportion to
/// the number of modules and imports, but for the choice of the least module.
///
/// The error is the ring of the least module that reaches itself, where some module does, or out of memory.
pub fn order(alloc: Global, uses: &[Vec<u32>]) -> Result<Vec<u32>, OrderError>
    requires count { length uses.now < 2 ^ 32 }
    requires places { All (λ row. All (λ j. j < length uses.now) row.items) uses.now }
    ensures order { IfOk result (λ order. IsOrder (plain uses.now) [] order.items) }
    ensures ring { IfErr result (λ e. IfRing e (IsRing (plain uses.now))) }
{
    let mut groups = groups(alloc, uses)?;
    match least_ring(uses, &groups) {
        Some(place) => Err(OrderError::Ring(groups.swap_remove(place))),
        None => Ok(all(alloc, &groups)?),
    }
}

/// The place of the ring with the least first module, if some group is a ring.
fn least_ring(uses: &[Vec<u32>], groups: &[Vec<u32>]) -> Option<usize>
    requires members { All (λ group. All (λ i. i < length uses.now) group.items) groups.now }
    ensures { IsLeast (plain uses.now) (plain groups.now) (length groups.now) result }
{
    let mut least = None;
    for place in 0..groups.len() {
        if is_ring(uses, &groups[place]) && begins_lower(groups, place, least) {
            least = Some(place);
        }
    }
    least
}

/// Whether the modules of a group reach themselves.
fn is_ring(uses: &[Vec<u32>], group: &[u32]) -> bool
    requires { All (λ i. i < length uses.now) group.now }
    ensures { result ≡ plain_rings.is_ring (plain uses.now) group.now }
{
    match group {
        [] => false,
        [only] => uses[*only as usize].contains(only),
        _ => true,
    }
}

/// Whether the group at `place` begins with a lower module than the one at `least`, if there is one.
fn begins_lower(groups: &[Vec<u32>], place: usize, least: Option<usize>) -> bool
    requires within { place < length groups.now }
    requires some { 0 < length (list_at (plain groups.now) place) }
    requires least_within { IfSome least (λ other. other < length groups.now) }
    requires least_some { IfSome least (λ other. 0 < length (list_at (plain groups.now) other)) }
    ensures { result ≡ plain_rings.begins_lower (plain groups.now) place least }
{
    match least {
        Some(other) => groups[place][0] < groups[other][0],
        None => true,
    }
}

/// The modules of the groups, one group after another.
fn all(alloc: Global, groups: &[Vec<u32>]) -> Result<Vec<u32>, AllocError>
    ensures { IfOk result (λ modules. modules.items ≡ joined (plain groups.now)) }
{
    let mut modules = Vec::with_capacity(alloc, groups.len())?;
    for group in groups {
        modules.extend_from_slice(group)?;
    }
    Ok(modules)
}
