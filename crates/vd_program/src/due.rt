//! What is due of a call, formed whole before the first byte of it is written.

ghost use Rattle.std.specs.Prelude.{◌≡◌, IfOk, string_bytes};
ghost use Rattle.vd_program.specs.Dues.{console_alone, refusal, limit_passed};

use crate::lines::{limit_line, refusal_line};
use std::alloc::{AllocError, Global};
use std::marker::Model;
use vd_bytes::{Bytes, Limit, Refused};

/// A status, and the bytes that are due on each channel.
#[derive(Debug, Drop)]
pub struct DueBytes {
    status: u8,
    design: Bytes,
    map: Bytes,
    console: Bytes,
}

impl Model for DueBytes {
    ghost use Rattle.vd_program.specs.Dues.{Due};

    ghost Value = { Due };

    ghost view = { λ a. record {
      status = a.status;
      design = a.design;
      map = a.map;
      console = a.console;
    } };
}

impl DueBytes {
    /// Status 0, a design and its map, and what the console shows of them.
    pub fn files(design: Bytes, map: Vec<u8>, console: String) -> DueBytes
        ensures { result ≡ record { status = 0; design = design; map = map.items; console = string_bytes console } }
    {
        DueBytes {
            status: 0,
            design,
            map: Bytes::of(map),
            console: Bytes::of(console.into_bytes()),
        }
    }

    /// Status 0, and bytes on all channels. Those of the console needn't be a text.
    pub fn all(design: Bytes, map: Vec<u8>, console: Vec<u8>) -> DueBytes
        ensures { result ≡ record { status = 0; design = design; map = map.items; console = console.items } }
    {
        DueBytes {
            status: 0,
            design,
            map: Bytes::of(map),
            console: Bytes::of(console),
        }
    }

    /// A text of the console alone.
    pub fn console_alone(alloc: Global, status: u8, console: String) -> DueBytes
        ensures { result ≡ console_alone status (string_bytes console) }
    {
        DueBytes::bytes_alone(alloc, status, console.into_bytes())
    }

    /// Bytes of the console alone, which needn't be a text.
    pub fn bytes_alone(alloc: Global, status: u8, console: Vec<u8>) -> DueBytes
        ensures { result ≡ console_alone status console.items }
    {
        DueBytes {
            status,
            design: Bytes::of(Vec::new(alloc)),
            map: Bytes::of(Vec::new(alloc)),
            console: Bytes::of(console),
        }
    }

    /// That rule is broken in the file of that name.
    pub fn refusal(alloc: Global, file: &str, refused: &Refused) -> Result<DueBytes, AllocError>
        ensures { IfOk result (λ due. due ≡ refusal file.now refused.now) }
    {
        let line = refusal_line(alloc, file, refused)?;
        Ok(DueBytes::console_alone(alloc, 1, line))
    }

    /// That limit is passed.
    pub fn limit(alloc: Global, limit: Limit) -> Result<DueBytes, AllocError>
        ensures { IfOk result (λ due. due ≡ limit_passed limit) }
    {
        let line = limit_line(alloc, limit)?;
        Ok(DueBytes::console_alone(alloc, 6, line))
    }

    /// The status.
    pub fn status(&self) -> u8
        ensures { result ≡ self.now.status }
    {
        self.status
    }

    /// What is due on Design.
    pub fn design(&self) -> &[u8]
        ensures { result.now ≡ self.now.design }
    {
        self.design.as_slice()
    }

    /// What is due on Map.
    pub fn map(&self) -> &[u8]
        ensures { result.now ≡ self.now.map }
    {
        self.map.as_slice()
    }

    /// What is due on Console.
    pub fn console(&self) -> &[u8]
        ensures { result.now ≡ self.now.console }
    {
        self.console.as_slice()
    }
}
