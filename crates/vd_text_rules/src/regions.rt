//! Regions, by the declarations that they take.

ghost use Rattle.std.specs.Prelude.{◌≡◌};
ghost use Rattle.vd_text_rules.specs.Regions.{inside as region_inside, takes as takes_declaration, takes_generic as takes_generic_declaration};

use vd_forms::Form;

/// The region in which a declaration stands. (IEEE 1076, declarative regions)
#[derive(Clone, Copy, PartialEq, Eq, Debug)]
pub enum Region {
    /// None of the others: a file, a context declaration.
    Outside,
    Entity,
    Package,
    PackageBody,
    /// An architecture body, or the body of a generate statement.
    Concurrent,
    /// A process or a function body.
    Sequential,
}

/// The region of what stands inside a node.
pub fn inside(form: Form, around: Region) -> Region
    ensures { result ≡ region_inside form around }
{
    match form {
        Form::EntityDeclaration => Region::Entity,
        Form::PackageDeclaration => Region::Package,
        Form::PackageBody => Region::PackageBody,
        Form::ArchitectureBody | Form::GenerateBody => Region::Concurrent,
        Form::ProcessStatement | Form::FunctionBody => Region::Sequential,
        _ => around,
    }
}

/// Whether a region takes a declaration.
pub fn takes(region: Region, form: Form) -> bool
    ensures { result ≡ takes_declaration region form }
{
    match form {
        Form::ViewDeclaration => matches!(region, Region::Package),
        Form::FunctionBody => matches!(
            region,
            Region::PackageBody | Region::Concurrent | Region::Sequential
        ),
        Form::SignalDeclaration => matches!(region, Region::Concurrent),
        Form::VariableDeclaration => matches!(region, Region::Sequential),
        _ => true,
    }
}

/// Whether a generic may stand in a region: those of an entity are constants.
pub fn takes_generic(region: Region, form: Form) -> bool
    ensures { result ≡ takes_generic_declaration region form }
{
    match form {
        Form::GenericType | Form::GenericFunction => !matches!(region, Region::Entity),
        _ => true,
    }
}
