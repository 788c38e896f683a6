//! The inventory, served over HTTP.

ghost use Rattle.std.specs.Prelude.{◌≡◌, IfErr, IfOk};
ghost use Rattle.lrs_cli_jobs.specs.Services.{EndsService, fault_of_service};

use lrs_cli_tasks::{Ending, PAGE, ProgramFault};
use lrs_cli_words::Service;
use lrs_desk::{Desk, Keeper};
use lrs_web_server::{ServiceFault, ServiceOptions, serve};
use std::alloc::Global;
use std::io::Write;
use std::net::Net;
use std::rt::Runtime;

fn service_fault(fault: ServiceFault) -> ProgramFault
    ensures { result ≡ fault_of_service fault }
{
    match fault {
        ServiceFault::Port | ServiceFault::Door => ProgramFault::Door,
        ServiceFault::Write => ProgramFault::Write,
        ServiceFault::Desk => ProgramFault::Keep,
    }
}

// The page that a service shows.
fn page_of(service: Service) -> Option<&'static str> {
    if service.shows_page { Some(PAGE) } else { None }
}

/// Serves a desk until the last connection has ended, or as the service says until a commit has failed. It is done where
/// as many were served as the service says. That it listens is written to `to`, which is given back with how the program
/// ends; where `tells` is true, standard error says where the page is.
///
/// # Errors
/// `Write` where that was not written, and nobody is served.
pub(crate) fn do_service<R: Runtime<A = Global> + Net, K: Keeper, W: Write + Drop>(
    rt: &R,
    desk: &mut Desk<K>,
    service: Service,
    tells: bool,
    to: W,
) -> Result<(W, Ending), ProgramFault>
    ensures ended { IfOk result (λ done. EndsService K.may_hold service desk.old desk.new
        (W.contents to) (W.contents done.0) done.1) }
    ensures failed { IfErr result (λ e. (desk.new ≡ desk.old) × (e ≡ ProgramFault.Write)) }
{
    let manner = ServiceOptions {
        logs: service.logs,
        ends_on_fault: service.ends_on_fault,
        most_reply: service.most_reply as usize,
        page: page_of(service),
        tells_page: tells && service.shows_page,
    };
    let mut to = to;
    match serve(rt, service.port, service.max, manner, desk, &mut to) {
        Ok(_) => Ok((to, Ending::Done)),
        Err(ServiceFault::Write) => Err(ProgramFault::Write),
        Err(fault) => Ok((to, Ending::Stopped(service_fault(fault)))),
    }
}
