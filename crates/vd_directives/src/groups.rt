//! The groups that are open round a line.

ghost use Rattle.std.specs.Prelude.{◌≡◌, OnOk};
ghost use Rattle.vd_directives.specs.Levels as levels;

use crate::kinds::Kind;
use crate::stack::Stack;
use std::alloc::AllocError;

/// A group that is open.
#[derive(Clone, Copy, Drop)]
pub(crate) struct Level {
    /// Whether its last branch is the one that is selected, and so are the groups round it.
    pub(crate) is_here: bool,
    /// Whether no branch so far is, and a later one may be.
    pub(crate) may_come: bool,
    /// Whether its last branch is an `else`.
    pub(crate) has_else: bool,
}

/// Whether a line is selected that stands in these groups.
pub(crate) fn is_here(groups: &Stack<Level>) -> bool
    ensures { result ≡ levels.here groups.now }
{
    match groups.top() {
        None => true,
        Some(level) => level.is_here,
    }
}

/// The rule that an `elsif` or `else` breaks, or 0.
fn branch_rule(groups: &Stack<Level>) -> u16
    ensures { result ≡ levels.branch_rule groups.now }
{
    match groups.top() {
        None => 112,
        Some(level) => { if level.has_else { 112 } else { 0 } }
    }
}

/// The rule that a line breaks that stands in these groups, or 0.
pub(crate) fn level_rule(groups: &Stack<Level>, kind: &Kind) -> u16
    ensures { result ≡ levels.level_rule kind.now groups.now }
{
    match kind {
        Kind::Broken => 111,
        Kind::Unknown if is_here(groups) => 111,
        Kind::Elsif(_) | Kind::Else => branch_rule(groups),
        Kind::End if groups.is_empty() => 112,
        Kind::Error if is_here(groups) => 113,
        _ => 0,
    }
}

/// Goes past a line.
pub(crate) fn enter(groups: &mut Stack<Level>, kind: &Kind) -> Result<(), AllocError>
    ensures { OnOk result (groups.new ≡ levels.entered kind.now groups.old) }
{
    match kind {
        Kind::If(condition) => {
            let here = is_here(groups);
            groups.push(Level {
                is_here: *condition && here,
                may_come: !*condition && here,
                has_else: false,
            })?;
        }
        Kind::Elsif(condition) => {
            if let Some(level) = groups.pop() {
                groups.push(Level {
                    is_here: *condition && level.may_come,
                    may_come: !*condition && level.may_come,
                    has_else: false,
                })?;
            }
        }
        Kind::Else => {
            if let Some(level) = groups.pop() {
                groups.push(Level {
                    is_here: level.may_come,
                    may_come: false,
                    has_else: true,
                })?;
            }
        }
        Kind::End => {
            let _ended = groups.pop();
        }
        _ => {}
    }
    Ok(())
}
