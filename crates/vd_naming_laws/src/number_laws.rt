//! Laws of the numbers that names get, each the contract of a function that does nothing.

ghost use Rattle.vd_naming_laws.specs.NumberLaws.{VisibleAreDeclared, InterpretationsNameDeclared, GivenAreSound, NamesOnlyAppend, NamesStaySound, NamesAreAlmostResolved};

/// Where each declaration names what is declared, and types where it names types, what is visible under a name is declared, and the interpretations of an
/// expression name what is declared, and types.
pub fn readings_name_declared()
    ensures visible { VisibleAreDeclared }
    ensures interpretations { InterpretationsNameDeclared }
{}

/// The names of a design only enter declarations behind others. What they enter names what is declared, and types where it names types, if each array type
/// of the whole design does; and the types of the nodes are types, before headers of bodies are settled.
pub fn names_stay_sound()
    ensures appended { NamesOnlyAppend }
    ensures given { GivenAreSound }
    ensures sound { NamesStaySound }
{}

/// Where each array type of the whole design names types, and settling keeps types, the resolved design is valid but for the numbers of declarations at its
/// nodes.
pub fn names_are_almost_resolved()
    ensures { NamesAreAlmostResolved }
{}
