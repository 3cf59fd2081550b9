//! Which channels were begun.

ghost use Rattle.std.specs.Prelude.{◌≡◌};
ghost use Rattle.vd_bytes.specs.Begun.{none_begun, has_begun, after_begin};

use crate::channels::Channel;
use std::marker::Model;

/// For each channel, whether a piece was written to it, perhaps an empty one.
#[derive(Debug, Drop)]
pub struct BegunChannels {
    design: bool,
    map: bool,
    console: bool,
}

impl Model for BegunChannels {
    ghost use Rattle.vd_bytes.specs.Begun.{Begun};

    ghost Value = { Begun };

    ghost view = { λ a. record {
      has_design = a.design;
      has_map = a.map;
      has_console = a.console;
    } };
}

impl BegunChannels {
    /// None was begun yet.
    pub fn none() -> BegunChannels
        ensures { result ≡ none_begun }
    {
        BegunChannels {
            design: false,
            map: false,
            console: false,
        }
    }

    /// Whether that channel was begun.
    pub fn has(&self, to: Channel) -> bool
        ensures { result ≡ has_begun self.now to }
    {
        match to {
            Channel::Design => self.design,
            Channel::Map => self.map,
            Channel::Console => self.console,
        }
    }

    /// That channel is begun now.
    pub fn begin(&mut self, to: Channel)
        ensures { self.new ≡ after_begin self.old to }
    {
        match to {
            Channel::Design => self.design = true,
            Channel::Map => self.map = true,
            Channel::Console => self.console = true,
        }
    }
}
