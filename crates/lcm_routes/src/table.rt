//! The table of the interface's paths.
//!
//! It is made once, and says of each path which resource it names.
ghost use Rattle.std.specs.Prelude.{◌≡◌, OnOk, map};
ghost use Rattle.lcm_routes.specs.Paths.{resource_of};
ghost use Rattle.lcm_routes.specs.Table.{with_route, with_routes};
ghost use Rattle.matchit.specs.Route.{parse_route};

use crate::resources::Resource;
use lcm_events::{OpKind, Task};
use matchit::Router;
use std::alloc::{AllocError, Global};
use std::marker::Model;

/// The paths of the interface, each with what it names. A part in braces is an identifier.
///
/// Source: SOL 003 5.3 (Resource structure and methods).
const PATHS: [(&str, Resource); 17] = [
    ("/vnflcm/v1/vnf_instances", Resource::Instances),
    ("/vnflcm/v1/vnf_instances/{id}", Resource::Instance),
    (
        "/vnflcm/v1/vnf_instances/{id}/instantiate",
        Resource::InstanceTask(OpKind::Instantiate),
    ),
    (
        "/vnflcm/v1/vnf_instances/{id}/scale",
        Resource::InstanceTask(OpKind::Scale),
    ),
    (
        "/vnflcm/v1/vnf_instances/{id}/scale_to_level",
        Resource::InstanceTask(OpKind::ScaleToLevel),
    ),
    (
        "/vnflcm/v1/vnf_instances/{id}/change_flavour",
        Resource::InstanceTask(OpKind::ChangeFlavour),
    ),
    (
        "/vnflcm/v1/vnf_instances/{id}/terminate",
        Resource::InstanceTask(OpKind::Terminate),
    ),
    (
        "/vnflcm/v1/vnf_instances/{id}/heal",
        Resource::InstanceTask(OpKind::Heal),
    ),
    (
        "/vnflcm/v1/vnf_instances/{id}/operate",
        Resource::InstanceTask(OpKind::Operate),
    ),
    ("/vnflcm/v1/vnf_lcm_op_occs", Resource::Occurrences),
    ("/vnflcm/v1/vnf_lcm_op_occs/{id}", Resource::Occurrence),
    (
        "/vnflcm/v1/vnf_lcm_op_occs/{id}/retry",
        Resource::OccurrenceTask(Task::Retry),
    ),
    (
        "/vnflcm/v1/vnf_lcm_op_occs/{id}/rollback",
        Resource::OccurrenceTask(Task::Rollback),
    ),
    (
        "/vnflcm/v1/vnf_lcm_op_occs/{id}/fail",
        Resource::OccurrenceTask(Task::Fail),
    ),
    (
        "/vnflcm/v1/vnf_lcm_op_occs/{id}/cancel",
        Resource::OccurrenceTask(Task::Cancel),
    ),
    ("/vnflcm/v1/subscriptions", Resource::Subscriptions),
    ("/vnflcm/v1/subscriptions/{id}", Resource::Subscription),
];

/// The table of the interface's paths.
#[derive(Drop)]
pub struct Routes {
    router: Router<Resource>,
}

impl Model for Routes {
    ghost use Rattle.std.specs.Prelude.{◌≡◌, ℕ, List};
    ghost use Rattle.lcm_routes.specs.Paths.{resource_of};
    ghost use Rattle.lcm_routes.specs.Table.{AreBytes, found};

    // A contract sees nothing of it: each is the same table.
    ghost Value = { Unit {0} };

    ghost view = { λ _. tt };

    // each path finds the resource that it names
    ghost invariant = { λ r. (path : List ℕ) → AreBytes path → found r.router path ≡ resource_of path };
}

impl Routes {
    /// The table of all paths, which finds each path's resource: that is its invariant.
    ///
    /// Refusals: want of memory alone.
    pub fn new(alloc: Global) -> Result<Routes, AllocError> {
        let mut router = Router::new(alloc);
        fill(&mut router, &PATHS)?;
        Ok(Routes { router })
    }

    /// The resource that a path names; none where it is no path of the interface. It takes no memory.
    ///
    /// Source: SOL 003 5.3 (Resource structure and methods).
    pub fn find(&self, path: &str) -> Option<Resource>
        ensures { result ≡ resource_of path.now }
    {
        match self.router.at(path) {
            Ok(found) => Some(*found.value),
            Err(_) => None,
        }
    }
}

// Adds these paths, each with what it names.
fn fill(router: &mut Router<Resource>, paths: &[(&str, Resource)]) -> Result<(), AllocError>
    ensures { OnOk result (router.new ≡ with_routes (map (λ row. (row.0.now, row.1)) paths.now) router.old) }
{
    for (path, resource) in paths {
        add(router, path, *resource)?;
    }
    Ok(())
}

// Adds a path with what it names.
fn add(router: &mut Router<Resource>, path: &str, resource: Resource) -> Result<(), AllocError>
    ensures { OnOk result (router.new ≡ with_route (parse_route path.now) resource router.old) }
{
    match router.insert(path, resource) {
        Ok(()) => Ok(()),
        Err(_) => Err(AllocError),
    }
}
