// What a path names, by its route and by its parts, which are cut off one after another.
ghost use Rattle.std.specs.Prelude.{◌≡◌, [], ◌∷◌, MatchOption, option_map};
ghost use Rattle.hx_api.specs.Paths.{parts_of};
ghost use Rattle.hx_api.specs.Inside.{as_sent, parts_of_version};
ghost use Rattle.hx_api.specs.InsideRoutes.{core_resource_on, group_resource_on, resource_behind, resource_on};

use crate::resource_path::ResourcePath;
use crate::routes::{Form, Route};
use crate::served::{Version, cluster_object, collection, collection_in, object_in};
use memchr::memchr;

/// The first part of a path, and the path behind its slash. `None` where the path is one part.
fn cut_part(path: &str) -> Option<(&str, &str)>
    ensures { MatchOption result (parts_of path.now ≡ path.now ∷ []) (λ cut. parts_of path.now ≡ cut.0.now ∷ parts_of cut.1.now) }
{
    let slash = memchr(b'/', path.as_bytes())?;
    Some((&path[..slash], &path[slash + 1..]))
}

/// What a path of this route names.
pub fn resource_on(route: Route, path: &str) -> Option<ResourcePath<&str>>
    ensures { option_map as_sent result ≡ resource_on route (parts_of path.now) }
{
    match route {
        Route::Core(form) => core_resource_on(form, path),
        Route::Group(form) => group_resource_on(form, path),
        Route::Events => Some(ResourcePath::Events),
    }
}

fn core_resource_on(form: Form, path: &str) -> Option<ResourcePath<&str>>
    ensures { option_map as_sent result ≡ core_resource_on form (parts_of path.now) }
{
    let (_, path) = cut_part(path)?;
    let (_, path) = cut_part(path)?;
    let (version, path) = cut_part(path)?;
    resource_behind(Version::Core { version }, form, path)
}

fn group_resource_on(form: Form, path: &str) -> Option<ResourcePath<&str>>
    ensures { option_map as_sent result ≡ group_resource_on form (parts_of path.now) }
{
    let (_, path) = cut_part(path)?;
    let (_, path) = cut_part(path)?;
    let (group, path) = cut_part(path)?;
    let (version, path) = cut_part(path)?;
    resource_behind(Version::Group { group, version }, form, path)
}

/// What the parts behind a version name.
fn resource_behind<'a>(
    version: Version<'a>,
    form: Form,
    path: &'a str,
) -> Option<ResourcePath<&'a str>>
    ensures { option_map as_sent result ≡ resource_behind (parts_of_version version.entry) form (parts_of path.now) }
{
    match form {
        Form::Collection => collection(version, path),
        Form::Object => {
            let (plural, name) = cut_part(path)?;
            cluster_object(version, plural, name)
        }
        Form::CollectionIn => {
            let (_, path) = cut_part(path)?;
            let (ns, plural) = cut_part(path)?;
            collection_in(version, ns, plural)
        }
        Form::ObjectIn => {
            let (_, path) = cut_part(path)?;
            let (ns, path) = cut_part(path)?;
            let (plural, name) = cut_part(path)?;
            object_in(version, ns, plural, name)
        }
    }
}
