//! Names that no unit may have.

ghost use Rattle.std.specs.Prelude.{◌≡◌};
ghost use Rattle.vd_naming.specs.Units.{is_library_word as is_name_of_library, refused_word as refused_name};

use vd_bytes::Refused;
use vd_declarations::Declaration;
use vd_naming::broken_if;

/// Whether a name is that of a library.
pub fn is_library_word(name: &[u8]) -> bool
    ensures { result ≡ is_name_of_library name.now }
{
    name == b"work".as_slice() || (name == b"std".as_slice() || name == b"ieee".as_slice())
}

/// What is refused of the name of a unit.
pub fn refused_word(declared: &Declaration) -> Option<Refused>
    ensures { result ≡ refused_name declared.now }
{
    broken_if(
        is_library_word(declared.name.as_slice()),
        301,
        declared.place,
    )
}
