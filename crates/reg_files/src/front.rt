//! The ports of the system, with the files of a folder in front of an office.
ghost use Rattle.std.specs.Prelude.{◌≡◌};

use crate::sites::{SitePlace, SystemSite};
use reg_folder::answers::SiteFront;
use reg_http::peers::Ports;
use reg_http::tcp::{TcpPeers, peers_at};
use std::alloc::Global;
use std::io;
use std::io::ErrorKind;
use std::net::SocketAddr;
use std::time::Duration;

/// The ports of the system. The files of a folder, if there is one, are served below `/site/`.
#[derive(Drop)]
pub struct SitePorts<'a> {
    /// Its runtime.
    pub rt: &'a HostRuntime,
    /// The folder.
    pub site: Option<SitePlace>,
}

impl<'a> Ports for SitePorts<'a> {
    type Given = TcpPeers<'a, HostRuntime, SiteFront<SystemSite<'a>>>;

    ghost Opened = { λ _ address patience count peers. (peers.address ≡ address)
        × (peers.patience ≡ patience) × (peers.count ≡ count) };

    fn listen(
        &self,
        alloc: Global,
        address: SocketAddr,
        patience: Duration,
        count: u32,
    ) -> io::Result<TcpPeers<'a, HostRuntime, SiteFront<SystemSite<'a>>>> {
        let front = front_at(self.rt, &self.site)?;
        peers_at(self.rt, alloc, address, patience, count, front)
    }
}

// What stands in front of the office.
fn front_at<'a>(
    rt: &'a HostRuntime,
    site: &Option<SitePlace>,
) -> io::Result<SiteFront<SystemSite<'a>>> {
    let files = match site {
        Some(place) => match SystemSite::of(rt, place) {
            Ok(files) => Some(files),
            Err(_) => return Err(ErrorKind::OutOfMemory.into()),
        },
        None => None,
    };
    Ok(SiteFront { files })
}
