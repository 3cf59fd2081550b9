//! Enters and looks up many declarations, for measurements. The words are a kind and a number N.
//!
//!     names N       a region of N names, each of which is entered and looked up
//!     packages N    N packages of one name each, all used by one region, in which N of the names are looked up
//!     one N         the same packages, and one look-up
//!     overloads N   N functions of one name with different profiles, and one look-up

ghost use Rattle.std.specs.Prelude.{◌≡◌, IfOk};

use anyhow::bail;
use std::alloc::{AllocError, Global};
use vd_bytes::{Place, Text};
use vd_declarations::{Class, DeclId, Declaration, Declarations, Made, RegionId, TypeId};
use vd_regions::{EnterEnd, Regions};

/// A declaration of a name.
fn declaration(
    alloc: Global,
    class: Class,
    name: &str,
    mark: Option<TypeId>,
    parameters: Vec<DeclId>,
) -> Result<Declaration, AllocError>
    ensures { IfOk result (λ d. d.name ≡ name.now) }
{
    Ok(Declaration {
        class,
        name: Text::from_slice(alloc, name.as_bytes())?,
        mark,
        parameters: Declarations::of(parameters),
        generics: Declarations::of(Vec::new(alloc)),
        inside: None,
        place: Place {
            file: 0,
            line: 1,
            column: 1,
        },
        made: Made::Written,
        wanted: Text::from_slice(alloc, b"")?,
    })
}

/// Enters a declaration. What it answers is an id, or a number for an end.
fn enter(
    alloc: Global,
    regions: &mut Regions,
    region: RegionId,
    class: Class,
    name: &str,
    parameters: Vec<DeclId>,
) -> Result<u32, AllocError> {
    let declared = declaration(alloc, class, name, None, parameters)?;
    match regions.enter(region, name, declared) {
        Ok(id) => Ok(id.number()),
        Err(end) => Ok(number_of(end)),
    }
}

/// A number for an end.
fn number_of(end: EnterEnd) -> u32 {
    match end {
        EnterEnd::Homograph(first) => first.number(),
        EnterEnd::Memory => 4294967295,
    }
}

/// How many declarations a name shows.
fn look(
    alloc: Global,
    regions: &Regions,
    region: RegionId,
    name: &str,
) -> Result<usize, AllocError> {
    let found = regions.visible(alloc, region, name)?;
    Ok(found.len())
}

/// A region of many names.
fn run_names(alloc: Global, many: u32) -> Result<usize, AllocError> {
    let mut regions = Regions::new(alloc)?;
    let root = regions.root();
    let mut shown: usize = 0;
    for number in 0..many {
        let name = format!(in alloc; "n{number}")?;
        enter(
            alloc,
            &mut regions,
            root,
            Class::Constant,
            &name,
            Vec::new(alloc),
        )?;
    }
    for number in 0..many {
        let name = format!(in alloc; "n{number}")?;
        shown = shown.saturating_add(look(alloc, &regions, root, &name)?);
    }
    Ok(shown)
}

/// Many packages, all used by one region.
fn run_packages(alloc: Global, many: u32, looks: u32) -> Result<usize, AllocError> {
    let mut regions = Regions::new(alloc)?;
    let root = regions.root();
    for number in 0..many {
        if !regions.is_region(root) {
            return Ok(0);
        }
        let package = regions.nest(root)?;
        let name = format!(in alloc; "n{number}")?;
        enter(
            alloc,
            &mut regions,
            package,
            Class::Constant,
            &name,
            Vec::new(alloc),
        )?;
        if !regions.is_region(package) || !regions.is_region(root) {
            return Ok(0);
        }
        regions.close(package);
        if !regions.is_region(root) {
            return Ok(0);
        }
        regions.use_name(root, package, None)?;
    }
    let mut shown: usize = 0;
    for number in 0..looks {
        let name = format!(in alloc; "n{number}")?;
        shown = shown.saturating_add(look(alloc, &regions, root, &name)?);
    }
    Ok(shown)
}

/// Many functions of one name.
fn run_overloads(alloc: Global, many: u32) -> Result<usize, AllocError> {
    let mut regions = Regions::new(alloc)?;
    let root = regions.root();
    if !regions.is_region(root) {
        return Ok(0);
    }
    let apart = regions.nest(root)?;
    for number in 0..many {
        let name = format!(in alloc; "p{number}")?;
        let declared = declaration(
            alloc,
            Class::Parameter,
            &name,
            Some(TypeId::of(number)),
            Vec::new(alloc),
        )?;
        let parameter = match regions.enter(apart, &name, declared) {
            Ok(id) => id,
            Err(end) => DeclId::of(number_of(end)),
        };
        let mut parameters = Vec::new(alloc);
        parameters.push(parameter)?;
        enter(alloc, &mut regions, root, Class::Function, "f", parameters)?;
    }
    look(alloc, &regions, root, "f")
}

/// Runs the bench on its words.
pub fn run(rt: HostRuntime, words: &[String]) -> anyhow::Result<()> {
    let [kind, many] = words else {
        bail!("the words are a kind and a number");
    };
    let many = many.parse::<u32>()?;
    let shown = match kind.as_str() {
        "names" => run_names(rt.alloc(), many)?,
        "packages" => run_packages(rt.alloc(), many, many)?,
        "one" => run_packages(rt.alloc(), many, 1)?,
        "overloads" => run_overloads(rt.alloc(), many)?,
        _ => bail!("there is no such kind"),
    };
    println!(rt; "{shown}")?;
    Ok(())
}
