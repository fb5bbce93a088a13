ghost use Rattle.std.specs.Prelude.{◌≡◌, ◌≤◌, None};
ghost use Rattle.sc_entry.specs.Failing.{one_more};
ghost use Rattle.sc_main_outside.specs.declared.make_error.MakeError.TheVariants as make_errors;

use crate::variables::variables;
use sc_clock::HostClock;
use sc_command::{Client, CommandCreator};
use sc_entry::ByteText;
use sc_host::{HostDisk, HostFiles, ProcessCommandCreator};
use sc_host_folders::{FolderError, StoreFolders, store_folders};
use sc_host_net::{HostAcceptorMaker, HostConnector};
use sc_host_probe::HostProbe;
use sc_main_outside::{MakeError, Outside, Surroundings, surroundings_of};
use std::alloc::{AllocGlobal, Global};
use std::env::Env;
use std::fs::Files;
use std::io::ErrorKind;
use std::net::{Net, TcpListener, TcpStream};
use std::process::{Processes, SystemProcess};
use std::sync::Wait;
use std::thread::Threads;
use std::{env, time};

/// What a program needs of the system.
pub trait System: Processes<Started = SystemProcess>
    + Threads
    + Wait
    + AllocGlobal
    + Files
    + Env
    + Net<Listener = TcpListener, Stream = TcpStream>
    + time::Clock
    + Clone
    + Copy
    + Drop {}

impl<R> System for R
where
    R: Processes<Started = SystemProcess>
        + Threads
        + Wait
        + AllocGlobal
        + Files
        + Env
        + Net<Listener = TcpListener, Stream = TcpStream>
        + time::Clock
        + Clone
        + Copy
        + Drop,
{}

/// The outside of a process of the host. It tells nothing, and counts each refusal. A working folder that can't be told, or whose
/// path isn't UTF-8, is refused, and so are folders of a store that can't be made. A variable whose name or value isn't UTF-8 is
/// left out of what is around it.
#[derive(Drop)]
pub struct HostOutside<R> {
    rt: R,
    is_out_terminal: bool,
    is_err_terminal: bool,
    faults: u64,
}

impl<R> HostOutside<R> {
    /// The outside of this process, whose standard output and standard error are terminals or not.
    pub fn new(rt: R, is_out_terminal: bool, is_err_terminal: bool) -> HostOutside<R>
        ensures { result.faults ≡ 0 }
    {
        HostOutside {
            rt,
            is_out_terminal,
            is_err_terminal,
            faults: 0,
        }
    }

    /// Counts a refusal.
    fn refuse(&mut self) -> MakeError
        ensures fault { result ≡ make_errors.MakeFault }
        ensures count { self.new.faults ≡ one_more self.old.faults }
        ensures later { self.old.faults ≤ self.new.faults }
    {
        self.faults = self.faults.saturating_add(1);
        MakeError::MakeFault
    }
}

/// The working folder.
fn cwd<R: AllocGlobal + Env>(rt: &R) -> Result<ByteText, MakeError> {
    match env::current_dir(rt) {
        Ok(path) => Ok(ByteText::from_slice(rt.alloc(), path.as_str().as_bytes())?),
        Err(error) if error.kind() == ErrorKind::OutOfMemory => Err(MakeError::NoMemory),
        Err(_) => Err(MakeError::MakeFault),
    }
}

impl<R: System> HostOutside<R> {
    /// What is around the process.
    fn found(&self) -> Result<Surroundings, MakeError> {
        let alloc = self.rt.alloc();
        let cwd = cwd(&self.rt)?;
        let variables = variables(&self.rt, alloc)?;
        let (out, err) = (self.is_out_terminal, self.is_err_terminal);
        let found = surroundings_of(alloc, cwd, variables, out, err)?;
        Ok(found)
    }
}

impl<R: System> Outside for HostOutside<R> {
    type Connector = HostConnector<R>;

    type AcceptorMaker = HostAcceptorMaker<R>;

    type Disk = HostDisk<R>;

    type Files = HostFiles<R>;

    type Probe = HostProbe<R>;

    type Creator = ProcessCommandCreator<R>;

    type Clock = HostClock<R>;

    ghost around = { λ _. None };

    ghost fault_count = { λ o. o.faults };

    fn faults(&self) -> u64 {
        self.faults
    }

    fn alloc(&self) -> Global {
        self.rt.alloc()
    }

    fn surroundings(&mut self) -> Result<Surroundings, MakeError> {
        match self.found() {
            Ok(found) => Ok(found),
            Err(MakeError::NoMemory) => Err(MakeError::NoMemory),
            Err(MakeError::MakeFault) => Err(self.refuse()),
        }
    }

    fn connector(&mut self) -> Result<HostConnector<R>, MakeError> {
        Ok(HostConnector::new(self.rt))
    }

    fn acceptor_maker(&mut self) -> Result<HostAcceptorMaker<R>, MakeError> {
        Ok(HostAcceptorMaker::new(self.rt))
    }

    fn disks(&mut self, folder: &ByteText) -> Result<(HostDisk<R>, HostDisk<R>), MakeError> {
        match store_folders(self.rt, folder) {
            Ok(StoreFolders { main, pre }) => Ok((main, pre)),
            Err(FolderError::NoMemory) => Err(MakeError::NoMemory),
            Err(FolderError::NotMade) => Err(self.refuse()),
        }
    }

    fn files(&mut self) -> Result<HostFiles<R>, MakeError> {
        Ok(HostFiles::new(self.rt))
    }

    fn probe(&mut self) -> Result<HostProbe<R>, MakeError> {
        Ok(HostProbe::new(self.rt))
    }

    fn creator(&mut self, client: &Client) -> Result<ProcessCommandCreator<R>, MakeError> {
        let creator = ProcessCommandCreator::new(self.rt, self.rt.alloc(), client)?;
        Ok(creator)
    }

    fn clock(&mut self) -> Result<HostClock<R>, MakeError> {
        Ok(HostClock::new(self.rt))
    }
}
