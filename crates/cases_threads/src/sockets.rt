//! Cases of sockets on this machine's own network, at ports of its own: what links, dialers and the clock of `gw_sockets`, and the door of `gw_porch`, do
//! there. No clause says it, since they tell nothing of what they carry. What it has to print stands in `stdout`.

mod clocks;
mod dialers;
mod door;
mod links;
mod wakes;

use std::io;
use std::net::{Net, TcpListener, TcpStream};
use std::time::Clock;

/// Prints what the section shows.
pub fn print<R: Print + Net<Listener = TcpListener, Stream = TcpStream> + Clock + AllocGlobal>(
    rt: &R,
) -> io::Result<()> {
    rt.println(links::exchange(rt)?)?;
    rt.println(links::full_socket(rt)?)?;
    rt.println(links::broken(rt)?)?;
    rt.println(links::waits(rt)?)?;
    rt.println(wakes::wakes(rt)?)?;
    rt.println(dialers::no_addresses(rt)?)?;
    rt.println(dialers::in_use(rt)?)?;
    rt.println(dialers::refused(rt)?)?;
    rt.println(dialers::over(rt)?)?;
    rt.println(clocks::moments(rt)?)
}
