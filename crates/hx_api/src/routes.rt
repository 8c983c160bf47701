// The table of routes.
ghost use Rattle.std.specs.Prelude.{◌≡◌, IfOk, OnOk, option_map};
ghost use Rattle.hx_api.specs.Paths.{resource_of};
ghost use Rattle.hx_api.specs.Inside.{as_sent};
ghost use Rattle.hx_api.specs.InsideRoutes.{added, core_rows, group_rows};

use crate::parts::resource_on;
use crate::resource_path::ResourcePath;
use hx_object::NoMemory;
use matchit::Router;
use std::alloc::Global;
use std::marker::Model;

/// What a path of a kind has behind its version.
#[derive(Clone, Copy)]
pub enum Form {
    /// `/{plural}`
    Collection,
    /// `/{plural}/{name}`
    Object,
    /// `/namespaces/{namespace}/{plural}`
    CollectionIn,
    /// `/namespaces/{namespace}/{plural}/{name}`
    ObjectIn,
}

/// Where a path leads.
#[derive(Clone, Copy)]
pub enum Route {
    /// A kind of the core group, behind `/api/v1`.
    Core(Form),
    /// A kind of another group, behind `/apis/{group}/{version}`.
    Group(Form),
    /// The feed of events.
    Events,
}

/// The paths that are served: those of the Kubernetes API for the kinds that are known, and the feed of events.
pub struct Routes {
    router: Router<Route>,
}

impl Drop for Routes {
    fn drop(self) {
        let Routes { router: _ } = self;
    }
}

impl Model for Routes {
    ghost use Rattle.std.specs.Prelude.{◌≡◌};
    ghost use Rattle.hx_api.specs.InsideRoutes.{table_rows};

    ghost Value = { Unit {0} };

    ghost view = { λ routes. tt };

    ghost invariant = { λ routes. routes.router ≡ table_rows };
}

impl Routes {
    pub fn new(alloc: Global) -> Result<Routes, NoMemory> {
        let mut router = group_routes(alloc)?;
        add(&mut router, "/hnc/v1/events", Route::Events)?;
        Ok(Routes { router })
    }

    /// What a path names, its segments as they were sent.
    pub fn resource_of<'a>(&self, path: &'a str) -> Option<ResourcePath<&'a str>>
        ensures { option_map as_sent result ≡ resource_of path.now }
    {
        match self.router.at(path) {
            Ok(found) => resource_on(*found.value, path),
            Err(_) => None,
        }
    }
}

/// The routes of the kinds of the core group.
fn core_routes(alloc: Global) -> Result<Router<Route>, NoMemory>
    ensures { IfOk result (λ router. router ≡ core_rows) }
{
    let mut router = Router::new(alloc);
    add(
        &mut router,
        "/api/v1/{plural}",
        Route::Core(Form::Collection),
    )?;
    add(
        &mut router,
        "/api/v1/{plural}/{name}",
        Route::Core(Form::Object),
    )?;
    add(
        &mut router,
        "/api/v1/namespaces/{namespace}/{plural}",
        Route::Core(Form::CollectionIn),
    )?;
    add(
        &mut router,
        "/api/v1/namespaces/{namespace}/{plural}/{name}",
        Route::Core(Form::ObjectIn),
    )?;
    Ok(router)
}

/// Those and the routes of the kinds of the other groups.
fn group_routes(alloc: Global) -> Result<Router<Route>, NoMemory>
    ensures { IfOk result (λ router. router ≡ group_rows) }
{
    let mut router = core_routes(alloc)?;
    add(
        &mut router,
        "/apis/{group}/{version}/{plural}",
        Route::Group(Form::Collection),
    )?;
    add(
        &mut router,
        "/apis/{group}/{version}/{plural}/{name}",
        Route::Group(Form::Object),
    )?;
    add(
        &mut router,
        "/apis/{group}/{version}/namespaces/{namespace}/{plural}",
        Route::Group(Form::CollectionIn),
    )?;
    add(
        &mut router,
        "/apis/{group}/{version}/namespaces/{namespace}/{plural}/{name}",
        Route::Group(Form::ObjectIn),
    )?;
    Ok(router)
}

/// Adds a route for the paths of a pattern.
#[tactic(auto, unfolding(crate::specs::InsideRoutes::added))]
fn add(router: &mut Router<Route>, pattern: &str, route: Route) -> Result<(), NoMemory>
    ensures { OnOk result (router.new ≡ added pattern.now route router.old) }
{
    match router.insert(pattern, route) {
        Ok(()) => Ok(()),
        Err(_) => Err(NoMemory),
    }
}
