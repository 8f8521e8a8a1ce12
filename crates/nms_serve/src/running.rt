//! The threads of the process: one that waits for the exit status, one that prints, and one that serves.
use crate::opening::serve_request;
use crate::program_fault::ProgramFault;
use crate::words::Request;
use nms_serving::{ServeFault, Teller};
use std::alloc::AllocError;
use std::sync::{Arc, Wait};
use std::thread;
use std::thread::Threads;

/// Serves a request in its own thread, and gives the exit status. The process ends when this returns, though threads may still
/// run then. A second after a fault, or after the end, it waits for none of them.
///
/// It fails only if nothing was opened yet: out of memory, or a thread could not be started.
pub(crate) fn run_request<R: Threads + Wait + Sync + Copy + Send + 'static>(
    rt: &R,
    host: &HostRuntime,
    request: Request,
) -> Result<u8, ProgramFault> {
    let Ok([teller, printing, serving]) = tellers_in(host, request.log_time) else {
        return Err(ProgramFault::Serving(ServeFault::NoMemory));
    };
    let (own, files) = (*rt, *host);
    let Ok(_printer) = thread::spawn(rt, move || printing.print_all(&own, &files)) else {
        return Err(ProgramFault::NoThread);
    };
    let Ok(_server) = thread::spawn(rt, move || serve_request(&own, &files, &serving, &request))
    else {
        return Err(ProgramFault::NoThread);
    };
    Ok(teller.wait_for_end(rt, host))
}

/// One teller, which three threads share. If `has_times` holds, each of its lines begins with the time.
fn tellers_in(host: &HostRuntime, has_times: bool) -> Result<[Arc<Teller>; 3], AllocError> {
    let (alloc, clock) = (host.alloc(), if has_times { Some(*host) } else { None });
    let teller = Arc::new(alloc, Teller::new(alloc, clock)?)?;
    let (second, third) = (Arc::try_clone(&teller)?, Arc::try_clone(&teller)?);
    Ok([teller, second, third])
}
