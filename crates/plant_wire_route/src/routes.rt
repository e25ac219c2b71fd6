//! The table of all routes, as two routers of matchit, one for GET and one for POST, and the look-up of the kind of
//! call by method and target.

ghost use Rattle.std.specs.{List.{list_all}, Prelude.{◌≡◌, IfOk, OnOk, IsTrue}};
ghost use Rattle.plant_types.specs.Results.{OnlyMemory};
ghost use Rattle.plant_wire_route.specs.Routes.{insert, unit_posts, alarm_posts, service_posts, change_posts, alarm_gets, unit_gets, own_gets, post_rows, get_rows, with_routes, route_in, route_of, is_path_byte, is_path};

use matchit::Router;
use plant_model::CallKind;
use plant_types::Fault;
use std::alloc::Global;

/// Adds a route. If that fails, it is reported as out of memory.
fn add(router: &mut Router<CallKind>, path: &str, kind: CallKind) -> Result<(), Fault>
    ensures ok { OnOk result (router.new ≡ insert router.old path.now kind) }
    ensures err { OnlyMemory result }
{
    match router.insert(path, kind) {
        Ok(()) => Ok(()),
        Err(_) => Err(Fault::Memory),
    }
}

#[tactic(auto, unfolding(crate::specs::Routes::unit_posts))]
fn add_unit_posts(router: &mut Router<CallKind>) -> Result<(), Fault>
    ensures ok { OnOk result (router.new ≡ with_routes unit_posts router.old) }
    ensures err { OnlyMemory result }
{
    add(router, "/units/{unit}", CallKind::OpenUnit)?;
    add(router, "/units/{unit}/grants", CallKind::Grant)?;
    add(router, "/units/{unit}/withdrawals", CallKind::Withdraw)?;
    add(router, "/units/{unit}/alarms", CallKind::Register)?;
    add(router, "/units/{unit}/imports", CallKind::Import)?;
    Ok(())
}

#[tactic(auto, unfolding(crate::specs::Routes::alarm_posts))]
fn add_alarm_posts(router: &mut Router<CallKind>) -> Result<(), Fault>
    ensures ok { OnOk result (router.new ≡ with_routes alarm_posts router.old) }
    ensures err { OnlyMemory result }
{
    add(
        router,
        "/units/{unit}/alarms/{tag}/timed-shelve",
        CallKind::TimedShelve,
    )?;
    add(
        router,
        "/units/{unit}/alarms/{tag}/one-shot-shelve",
        CallKind::OneShotShelve,
    )?;
    add(
        router,
        "/units/{unit}/alarms/{tag}/unshelve",
        CallKind::Unshelve,
    )?;
    Ok(())
}

#[tactic(auto, unfolding(crate::specs::Routes::service_posts))]
fn add_service_posts(router: &mut Router<CallKind>) -> Result<(), Fault>
    ensures ok { OnOk result (router.new ≡ with_routes service_posts router.old) }
    ensures err { OnlyMemory result }
{
    add(
        router,
        "/units/{unit}/alarms/{tag}/remove-from-service",
        CallKind::RemoveFromService,
    )?;
    add(
        router,
        "/units/{unit}/alarms/{tag}/place-in-service",
        CallKind::PlaceInService,
    )?;
    Ok(())
}

#[tactic(auto, unfolding(crate::specs::Routes::change_posts))]
fn add_change_posts(router: &mut Router<CallKind>) -> Result<(), Fault>
    ensures ok { OnOk result (router.new ≡ with_routes change_posts router.old) }
    ensures err { OnlyMemory result }
{
    add(router, "/units/{unit}/changes", CallKind::Propose)?;
    add(
        router,
        "/units/{unit}/changes/{n}/withdraw",
        CallKind::WithdrawChange,
    )?;
    add(
        router,
        "/units/{unit}/changes/{n}/approve",
        CallKind::Approve,
    )?;
    add(router, "/units/{unit}/changes/{n}/reject", CallKind::Reject)?;
    Ok(())
}

#[tactic(auto, unfolding(crate::specs::Routes::alarm_gets))]
fn add_alarm_gets(router: &mut Router<CallKind>) -> Result<(), Fault>
    ensures ok { OnOk result (router.new ≡ with_routes alarm_gets router.old) }
    ensures err { OnlyMemory result }
{
    add(router, "/units/{unit}/alarms/{tag}", CallKind::Status)?;
    add(
        router,
        "/units/{unit}/alarms/{tag}/record",
        CallKind::RecordOf,
    )?;
    add(router, "/units/{unit}/changes/{n}", CallKind::ChangeOf)?;
    Ok(())
}

#[tactic(auto, unfolding(crate::specs::Routes::unit_gets))]
fn add_unit_gets(router: &mut Router<CallKind>) -> Result<(), Fault>
    ensures ok { OnOk result (router.new ≡ with_routes unit_gets router.old) }
    ensures err { OnlyMemory result }
{
    add(router, "/units/{unit}/alarms", CallKind::Alarms)?;
    add(router, "/units/{unit}/shelves", CallKind::Shelves)?;
    add(router, "/units/{unit}/standing", CallKind::Standing)?;
    add(
        router,
        "/units/{unit}/floods/{begin}/{until}",
        CallKind::Floods,
    )?;
    Ok(())
}

#[tactic(auto, unfolding(crate::specs::Routes::own_gets))]
fn add_own_gets(router: &mut Router<CallKind>) -> Result<(), Fault>
    ensures ok { OnOk result (router.new ≡ with_routes own_gets router.old) }
    ensures err { OnlyMemory result }
{
    add(router, "/units", CallKind::MyUnits)?;
    add(router, "/shelves", CallKind::MyShelves)?;
    Ok(())
}

#[tactic(auto, unfolding(crate::specs::Routes::post_rows))]
fn post_routes(alloc: Global) -> Result<Router<CallKind>, Fault>
    ensures ok { IfOk result (λ router. router ≡ post_rows) }
    ensures err { OnlyMemory result }
{
    let mut router = Router::new(alloc);
    add_unit_posts(&mut router)?;
    add_alarm_posts(&mut router)?;
    add_service_posts(&mut router)?;
    add_change_posts(&mut router)?;
    Ok(router)
}

#[tactic(auto, unfolding(crate::specs::Routes::get_rows))]
fn get_routes(alloc: Global) -> Result<Router<CallKind>, Fault>
    ensures ok { IfOk result (λ router. router ≡ get_rows) }
    ensures err { OnlyMemory result }
{
    let mut router = Router::new(alloc);
    add_alarm_gets(&mut router)?;
    add_unit_gets(&mut router)?;
    add_own_gets(&mut router)?;
    Ok(router)
}

/// The routers of POST and GET, built once and used for one request after another.
#[derive(Drop)]
pub struct Routes {
    post: Router<CallKind>,
    get: Router<CallKind>,
    ghost post_is: { post ≡ post_rows },
    ghost get_is: { get ≡ get_rows },
}

impl Routes {
    /// Builds the routers of all routes.
    pub fn new(alloc: Global) -> Result<Routes, Fault>
        ensures { OnlyMemory result }
    {
        Ok(Routes {
            post: post_routes(alloc)?,
            get: get_routes(alloc)?,
        })
    }

    /// The kind of call for a method and a target, or `None` if no route fits.
    pub fn of(&self, method: &[u8], target: &[u8]) -> Option<CallKind>
        ensures { result ≡ route_of method.now target.now }
    {
        if !is_path(target) {
            return None;
        }
        let path = text_of(target);
        if method == b"POST".as_slice() {
            kind_at(&self.post, path)
        } else if method == b"GET".as_slice() {
            kind_at(&self.get, path)
        } else {
            None
        }
    }
}

fn kind_at(router: &Router<CallKind>, path: &str) -> Option<CallKind>
    ensures { result ≡ route_in router.now path.now }
{
    match router.at(path) {
        Ok(found) => Some(*found.value),
        Err(_) => None,
    }
}

fn is_path_byte(b: u8) -> bool
    ensures { result ≡ is_path_byte b }
{
    b <= 126 && !(b == b'?' || b == b'#')
}

fn has_path_bytes(target: &[u8]) -> bool
    ensures { result ≡ list_all is_path_byte target.now }
{
    target.iter().all(|b| is_path_byte(*b))
}

fn is_path(target: &[u8]) -> bool
    ensures { result ≡ is_path target.now }
{
    !target.is_empty() && target[0] == b'/' && has_path_bytes(target)
}

fn text_of(target: &[u8]) -> &str
    requires { IsTrue (is_path target.now) }
    ensures { result.now ≡ target.now }
{
    match std::str::from_utf8(target) {
        Ok(text) => text,
        Err(_) => unreachable!(),
    }
}
