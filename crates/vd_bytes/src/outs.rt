//! What was written on each channel, in memory.

ghost use Rattle.std.specs.Prelude.{◌≡◌, ◌≢◌, ◌++◌, [], OnOk, OnErr};
ghost use Rattle.vd_bytes.specs.declared.channels.Channel.{Channel};
ghost use Rattle.vd_bytes.specs.Outs.{out_of, after_append};

use crate::channels::Channel;
use std::alloc::{AllocError, Global};
use std::marker::Model;

/// The bytes out on each channel.
#[derive(Debug, Drop)]
pub struct Outs {
    design: Vec<u8>,
    map: Vec<u8>,
    console: Vec<u8>,
}

impl Model for Outs {
    ghost use Rattle.vd_bytes.specs.Outs.{Written};

    ghost Value = { Written };

    ghost view = { λ a. record {
      on_design = a.design.items;
      on_map = a.map.items;
      on_console = a.console.items;
    } };
}

impl Outs {
    /// Nothing is written yet.
    pub fn new(alloc: Global) -> Outs
        ensures { (to : Channel) → out_of result to ≡ [] }
    {
        Outs {
            design: Vec::new(alloc),
            map: Vec::new(alloc),
            console: Vec::new(alloc),
        }
    }

    /// What was written on a channel.
    pub fn get(&self, to: Channel) -> &[u8]
        ensures { result.now ≡ out_of self.now to }
    {
        match to {
            Channel::Design => self.design.as_slice(),
            Channel::Map => self.map.as_slice(),
            Channel::Console => self.console.as_slice(),
        }
    }

    /// Writes a piece behind what is there.
    pub fn append(&mut self, to: Channel, piece: &[u8]) -> Result<(), AllocError>
        ensures ok { OnOk result (self.new ≡ after_append self.old to piece.now) }
        ensures err { OnErr result (self.new ≡ self.old) }
    {
        match to {
            Channel::Design => self.design.extend_from_slice(piece),
            Channel::Map => self.map.extend_from_slice(piece),
            Channel::Console => self.console.extend_from_slice(piece),
        }
    }
}
