//! What is known of the declarations of a name in a region.

ghost use Rattle.std.specs.Prelude.{◌≡◌, ◌<◌, ◌+◌, ◌^◌};
ghost use Rattle.vd_region_tables.specs.Growth.{grown};

/// A table: its newest declaration, counted from 1, or 0 where there is none; its first; and the first that is not overloadable.
#[derive(Clone, Copy)]
pub struct Table {
    pub newest: u32,
    pub first: Option<u32>,
    pub alone: Option<u32>,
}

impl Table {
    /// With a declaration more, whose number is no greatest one.
    pub fn with(self, id: u32, overloadable: bool) -> Table
        requires { id + 1 < 2 ^ 32 }
        ensures { result ≡ grown self id overloadable }
    {
        let alone = if overloadable { None } else { Some(id) };
        Table {
            newest: id + 1,
            first: self.first.or(Some(id)),
            alone: self.alone.or(alone),
        }
    }
}
