//! Where the streams of a client go.
ghost use Rattle.std.specs.Prelude.{◌≡◌, IfOk};
ghost use Rattle.sc_client.specs.Outlets.{is_filtered, shown};

use crate::escapes::filter_escapes;
use sc_entry::{ByteText, NoMemory};
use sc_model::ColorMode;
use std::alloc::Global;

/// What is known of where a stream goes.
#[derive(Clone, Copy)]
pub struct Outlet {
    pub is_terminal: bool,
    /// Whether terminals show no colors here.
    pub is_dumb: bool,
}

/// Where a client's two streams go.
#[derive(Clone, Copy)]
pub struct Outlets {
    pub out: Outlet,
    pub err: Outlet,
}

impl Outlet {
    /// Whether what goes there is filtered: not where colors are on, nor at a terminal that shows them, unless they are off.
    fn is_filtered(&self, mode: ColorMode) -> bool
        ensures { result ≡ is_filtered self.now mode }
    {
        match mode {
            ColorMode::On => false,
            ColorMode::Off => true,
            ColorMode::Auto => !self.is_terminal || self.is_dumb,
        }
    }

    /// What goes there of some bytes.
    pub fn shown(
        &self,
        alloc: Global,
        mode: ColorMode,
        bytes: &ByteText,
    ) -> Result<ByteText, NoMemory>
        ensures { IfOk result (λ kept. kept ≡ shown self.now mode bytes.now) }
    {
        if self.is_filtered(mode) {
            return filter_escapes(alloc, bytes.as_slice());
        }
        bytes.try_clone()
    }
}
