//! Where a port map stands.

use vd_declarations::DeclId;
use vd_name_rows::{At, Names};

/// A port map: the design so far, the place of the map, the same place where the ports of the entity are looked up first, and the entity.
#[derive(Clone, Copy)]
pub struct Instance<'n, 'a> {
    pub names: &'n Names,
    pub at: &'n At<'a>,
    pub among: &'n At<'a>,
    pub entity: DeclId,
}
