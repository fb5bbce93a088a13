ghost use Rattle.std.specs.Prelude.{◌≡◌, ◌≤◌, ◌++◌, codes, ℕ, Option, IfOk};
ghost use Rattle.sc_entry.specs.Causes.{IfTold};
ghost use Rattle.sc_main_outside.specs.Makings.{MakeCause};
ghost use Rattle.sc_main_outside.specs.declared.surroundings.Surroundings.{Surroundings as Around};

use crate::make_error::MakeError;
use crate::surroundings::Surroundings;
use sc_clock::Clock;
use sc_command::{Client, CommandCreator};
use sc_compile::Probe;
use sc_disk::Disk;
use sc_entry::{ByteText, Files};
use sc_link::{AcceptorMaker, Connector};
use std::alloc::Global;

/// What a program works with beside its words and streams: what is around it, and the makers of its parts.
pub trait Outside {
    type Connector: Connector + Drop;

    type AcceptorMaker: AcceptorMaker + Drop;

    type Disk: Disk + Drop;

    type Files: Files + Drop;

    type Probe: Probe + Drop;

    type Creator: CommandCreator + Drop;

    type Clock: Clock + Drop;

    /// What is around the program, where that is told. No call changes it.
    ghost around: { Self → Option Around };

    /// How often a call was refused.
    ghost fault_count: { Self → ℕ };

    /// How often a call was refused. The count never falls.
    fn faults(&self) -> u64
        ensures { result ≡ fault_count self.now };

    /// Where memory comes from.
    fn alloc(&self) -> Global;

    /// What is around the program.
    fn surroundings(&mut self) -> Result<Surroundings, MakeError>
        ensures told { IfOk result (λ found. IfTold (around self.old) (λ a. found ≡ a)) }
        ensures same { around self.new ≡ around self.old }
        ensures later { fault_count self.old ≤ fault_count self.new }
        ensures cause { MakeCause (fault_count self.old) (fault_count self.new) result };

    /// Something that makes links to servers.
    fn connector(&mut self) -> Result<Self::Connector, MakeError>
        ensures same { around self.new ≡ around self.old }
        ensures later { fault_count self.old ≤ fault_count self.new }
        ensures cause { MakeCause (fault_count self.old) (fault_count self.new) result };

    /// Something that makes acceptors.
    fn acceptor_maker(&mut self) -> Result<Self::AcceptorMaker, MakeError>
        ensures same { around self.new ≡ around self.old }
        ensures later { fault_count self.old ≤ fault_count self.new }
        ensures cause { MakeCause (fault_count self.old) (fault_count self.new) result };

    /// The two disks of a store in a folder: that of its entries, and that of its preprocessor entries, which is in the folder
    /// `preprocessor` there. Folders that can't be made are refused.
    fn disks(&mut self, folder: &ByteText) -> Result<(Self::Disk, Self::Disk), MakeError>
        ensures main { IfOk result (λ disks. (Self.Disk.state disks.0).root ≡ folder.now) }
        ensures pre { IfOk result (λ disks. (Self.Disk.state disks.1).root ≡ folder.now ++ codes "/preprocessor") }
        ensures same { around self.new ≡ around self.old }
        ensures later { fault_count self.old ≤ fault_count self.new }
        ensures cause { MakeCause (fault_count self.old) (fault_count self.new) result };

    /// Where outputs are read and placed.
    fn files(&mut self) -> Result<Self::Files, MakeError>
        ensures same { around self.new ≡ around self.old }
        ensures later { fault_count self.old ≤ fault_count self.new }
        ensures cause { MakeCause (fault_count self.old) (fault_count self.new) result };

    /// What finds programs and compilers.
    fn probe(&mut self) -> Result<Self::Probe, MakeError>
        ensures same { around self.new ≡ around self.old }
        ensures later { fault_count self.old ≤ fault_count self.new }
        ensures cause { MakeCause (fault_count self.old) (fault_count self.new) result };

    /// Something that makes commands, whose children take their tokens from a client.
    fn creator(&mut self, client: &Client) -> Result<Self::Creator, MakeError>
        ensures same { around self.new ≡ around self.old }
        ensures later { fault_count self.old ≤ fault_count self.new }
        ensures cause { MakeCause (fault_count self.old) (fault_count self.new) result };

    /// What tells the moment.
    fn clock(&mut self) -> Result<Self::Clock, MakeError>
        ensures same { around self.new ≡ around self.old }
        ensures later { fault_count self.old ≤ fault_count self.new }
        ensures cause { MakeCause (fault_count self.old) (fault_count self.new) result };
}
