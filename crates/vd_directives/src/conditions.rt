//! Conditions, read piece by piece. The brackets that are open stand in memory.

ghost use Rattle.std.specs.Prelude.{◌≡◌, Some, None, IfOk, if◌then◌else◌};
ghost use Rattle.vd_directives.specs.Conditions as conditions;
ghost use Rattle.vd_directives.specs.Steps as steps;
ghost use Rattle.vd_directives.specs.Steps.{stepped};

use crate::pieces::{Piece, Relator};
use crate::stack::Stack;
use crate::words::{Keyword, Known, Operator, is_identifier, keyword_of, known_of, text_of};
use std::alloc::{AllocError, Global};
use std::cmp::Ordering;

/// The relations of a chain so far: the operator behind them, and their value.
#[derive(Clone, Copy, Drop)]
pub(crate) struct Chain {
    pub(crate) operator: Operator,
    pub(crate) so_far: bool,
}

/// A bracket that is open: whether `not` stands before it, and the chain in which it stands.
#[derive(Clone, Copy, Drop)]
pub(crate) struct Bracket {
    pub(crate) negated: bool,
    pub(crate) outside: Option<Chain>,
}

/// What has to come next.
#[derive(Clone, Copy, Drop)]
pub(crate) enum Awaited {
    Relation,
    /// The bracket behind a `not`.
    Behind,
    /// The relator behind an identifier.
    Relator(Known),
    /// The text behind a relator.
    Text(Known, Relator),
    /// More of the chain, or the end of the condition, which has this value so far.
    More(bool),
    /// Nothing. The condition has this value.
    End(bool),
}

/// A condition that is being read: what has to come next, the chain that is at hand, and the
/// brackets that are open round it.
#[derive(Drop)]
pub(crate) struct Reader {
    pub(crate) awaited: Awaited,
    pub(crate) chain: Option<Chain>,
    pub(crate) open: Stack<Bracket>,
}

/// Whether two texts stand in a relation.
fn relates(relator: Relator, left: &[u8], right: &[u8]) -> bool
    ensures { result ≡ conditions.relates relator left.now right.now }
{
    match relator {
        Relator::Same => left == right,
        Relator::Differs => left != right,
        Relator::Below => left.cmp(right) == Ordering::Less,
        Relator::AtMost => left.cmp(right) != Ordering::Greater,
        Relator::Above => left.cmp(right) == Ordering::Greater,
        Relator::AtLeast => left.cmp(right) != Ordering::Less,
    }
}

/// The value of a chain with one relation more.
fn joined(chain: Option<Chain>, value: bool) -> bool
    ensures { result ≡ conditions.joined chain value }
{
    match chain {
        None => value,
        Some(chain) => match chain.operator {
            Operator::And => chain.so_far && value,
            Operator::Or => chain.so_far || value,
            Operator::Xor => chain.so_far != value,
            Operator::Xnor => chain.so_far == value,
        },
    }
}

/// Whether a chain may go on with an operator.
fn goes_on(chain: Option<Chain>, operator: Operator) -> bool
    ensures { result ≡ conditions.goes_on chain operator }
{
    match chain {
        None => true,
        Some(chain) => match (chain.operator, operator) {
            (Operator::And, Operator::And) => true,
            (Operator::Or, Operator::Or) => true,
            (Operator::Xor, Operator::Xor) => true,
            (Operator::Xnor, Operator::Xnor) => true,
            _ => false,
        },
    }
}

impl Reader {
    /// Opens a bracket.
    fn open_bracket(&mut self, negated: bool) -> Result<bool, AllocError>
        ensures { IfOk result (λ taken. (if taken then Some self.new else None) ≡ Some (steps.opened negated self.old.chain self.old.«open»)) }
    {
        self.open.push(Bracket {
            negated,
            outside: self.chain,
        })?;
        self.chain = None;
        self.awaited = Awaited::Relation;
        Ok(true)
    }

    /// Reads a piece where a relation has to come.
    fn read_relation(&mut self, piece: &Piece) -> Result<bool, AllocError>
        ensures { IfOk result (λ taken. (if taken then Some self.new else None) ≡ steps.at_relation piece.now self.old.chain self.old.«open») }
    {
        match piece {
            Piece::Opening => {
                let taken = self.open_bracket(false)?;
                Ok(taken)
            }
            Piece::Word(word) => {
                let word = word.as_slice();
                if matches!(keyword_of(word), Keyword::Not) {
                    self.awaited = Awaited::Behind;
                    Ok(true)
                } else if is_identifier(word) {
                    self.awaited = Awaited::Relator(known_of(word));
                    Ok(true)
                } else {
                    Ok(false)
                }
            }
            _ => Ok(false),
        }
    }

    /// Reads a piece where the chain may go on, or the condition may end, and has this value.
    fn read_more(&mut self, piece: &Piece, value: bool) -> bool
        ensures { (if result then Some self.new else None) ≡ steps.at_more value piece.now self.old.chain self.old.«open» }
    {
        match piece {
            Piece::Word(word) => match keyword_of(word.as_slice()) {
                Keyword::Join(operator) => {
                    if !goes_on(self.chain, operator) {
                        return false;
                    }
                    self.chain = Some(Chain {
                        operator,
                        so_far: value,
                    });
                    self.awaited = Awaited::Relation;
                    true
                }
                Keyword::Then => {
                    if !self.open.is_empty() {
                        return false;
                    }
                    self.awaited = Awaited::End(value);
                    true
                }
                _ => false,
            },
            Piece::Closing => match self.open.pop() {
                None => false,
                Some(bracket) => {
                    let value = if bracket.negated { !value } else { value };
                    self.awaited = Awaited::More(joined(bracket.outside, value));
                    self.chain = bracket.outside;
                    true
                }
            },
            _ => false,
        }
    }

    /// Reads a piece, and says whether it may stand there.
    fn step(&mut self, tool: &[u8], piece: &Piece) -> Result<bool, AllocError>
        ensures { IfOk result (λ taken. (if taken then Some self.new else None) ≡ stepped tool.now self.old piece.now) }
    {
        match self.awaited {
            Awaited::Relation => {
                let taken = self.read_relation(piece)?;
                Ok(taken)
            }
            Awaited::Behind => match piece {
                Piece::Opening => {
                    let taken = self.open_bracket(true)?;
                    Ok(taken)
                }
                _ => Ok(false),
            },
            Awaited::Relator(known) => match piece {
                Piece::Compare(relator) => {
                    self.awaited = Awaited::Text(known, *relator);
                    Ok(true)
                }
                _ => Ok(false),
            },
            Awaited::Text(known, relator) => match piece {
                Piece::Quoted(right) => {
                    let value = relates(relator, text_of(tool, known), right.as_slice());
                    self.awaited = Awaited::More(joined(self.chain, value));
                    Ok(true)
                }
                _ => Ok(false),
            },
            Awaited::More(value) => Ok(self.read_more(piece, value)),
            Awaited::End(_) => Ok(false),
        }
    }
}

/// The value of a condition with `then` behind it, where the pieces are just that.
#[tactic(auto, using(crate::proofs::ConditionLemmas::run_all))]
pub(crate) fn condition_of(
    alloc: Global,
    tool: &[u8],
    pieces: &[Piece],
) -> Result<Option<bool>, AllocError>
    ensures { IfOk result (λ value. value ≡ conditions.condition_of tool.now pieces.now) }
{
    let mut reader = Reader {
        awaited: Awaited::Relation,
        chain: None,
        open: Stack::new(alloc),
    };
    for piece in pieces {
        if !reader.step(tool, piece)? {
            return Ok(None);
        }
    }
    match reader.awaited {
        Awaited::End(value) => Ok(Some(value)),
        _ => Ok(None),
    }
}
