//! The stack of what is still to be written. Its last frame is written first.

ghost use Rattle.std.specs.Prelude.{◌≡◌, ◌++◌, [], true, OnOk, IfOk, None, if◌then◌else◌};
ghost use Rattle.vd_forest.specs.Forest.{Forest};
ghost use Rattle.vd_forms.specs.Validity.{leaf_kind};
ghost use Rattle.vd_templates.specs.Templates.{up_to_head, kind_at, own};
ghost use Rattle.vd_writing.specs.Pending.{stands_for_trees, first_by, node_itself, node_piece, node_items, node_row, frame_items, pending, shown};

use crate::finding::is_head;
use crate::items::Item;
use crate::rows::Rows;
use std::alloc::AllocError;
use vd_forest::Cursor;
use vd_forms::Form;
use vd_gram::Symbol;
use vd_templates::Piece;
use vd_templates::states::{AS_IT_IS, State};
use vd_tokens::Kind;

/// A tree that is being written.
#[derive(Drop)]
pub struct Node<'a> {
    form: Form,
    text: &'a [u8],
    parts: Cursor<'a, Form>,
}

/// What is to be written.
#[derive(Drop)]
pub enum Frame<'a> {
    /// The pieces up to the next head, for a tree. Whether the row is the one of the tree as it is, in which no piece stands
    /// for the tree itself.
    Row(&'static [Piece], bool, Node<'a>),
    /// Trees as they are.
    Trees(Cursor<'a, Form>),
    /// Trees as they are, with a token in front of each.
    Listed(Symbol, Cursor<'a, Form>),
}

/// The token of a terminal without a text.
fn kind_at(symbol: Symbol) -> Kind
    ensures { result ≡ kind_at symbol }
{
    if symbol < 36 {
        Kind::Mark(symbol.saturating_sub(5))
    } else {
        Kind::Word(symbol - 36)
    }
}

/// The kind of the token that a leaf stands for.
fn leaf_kind(form: Form) -> Option<Kind>
    ensures { result ≡ leaf_kind form }
{
    match form {
        Form::Identifier => Some(Kind::Name),
        Form::Number => Some(Kind::Number),
        Form::Letter => Some(Kind::Letter),
        Form::Quoted => Some(Kind::Quoted),
        Form::Bits => Some(Kind::Bits),
        _ => None,
    }
}

/// Puts a frame on the stack.
#[tactic(auto, using(crate::proofs::PendingLemmas::pending_push))]
fn push<'a>(rows: &Rows, stack: &mut Vec<Frame<'a>>, frame: Frame<'a>) -> Result<(), AllocError>
    ensures { OnOk result (pending rows.now stack.new.items ≡ frame_items rows.now frame.entry ++ pending rows.now stack.old.items) }
{
    stack.push(frame)?;
    Ok(())
}

/// Puts the row of a tree in a state on the stack.
fn push_tree<'a>(
    rows: &mut Rows,
    stack: &mut Vec<Frame<'a>>,
    state: State,
    whole: bool,
    node: Node<'a>,
) -> Result<(), AllocError>
    ensures row { OnOk result (pending rows.old stack.new.items ≡ node_row rows.old state whole node.entry ++ pending rows.old stack.old.items) }
    ensures unchanged { rows.new ≡ rows.old }
{
    let pieces = rows.row(state, node.form);
    push(rows, stack, Frame::Row(pieces, whole, node))
}

/// Puts the first of some trees on the stack, in a state.
fn push_first<'a>(
    rows: &mut Rows,
    stack: &mut Vec<Frame<'a>>,
    state: State,
    trees: &Cursor<'a, Form>,
) -> Result<(), AllocError>
    ensures first { OnOk result (pending rows.old stack.new.items ≡ first_by rows.old state trees.now ++ pending rows.old stack.old.items) }
    ensures unchanged { rows.new ≡ rows.old }
{
    let Some(first) = trees.open() else {
        return Ok(());
    };
    let node = Node {
        form: first.form,
        text: first.text,
        parts: first.parts,
    };
    push_tree(rows, stack, state, false, node)
}

/// Writes one piece of a row of a tree.
fn write_piece<'a>(
    rows: &mut Rows,
    stack: &mut Vec<Frame<'a>>,
    piece: Piece,
    whole: bool,
    node: Node<'a>,
) -> Result<Option<Item<'a>>, AllocError>
    ensures given { IfOk result (λ item. node_piece rows.old piece whole node.entry ++ pending rows.old stack.old.items
        ≡ shown item ++ pending rows.old stack.new.items) }
    ensures unchanged { rows.new ≡ rows.old }
{
    match piece {
        Piece::Token(symbol) => Ok(Some(Item::Token(kind_at(symbol), &[]))),
        Piece::Own => Ok(own(node.form, node.text)),
        Piece::EndLine => Ok(Some(Item::EndLine)),
        Piece::Inward => Ok(Some(Item::Inward)),
        Piece::Outward => Ok(Some(Item::Outward)),
        _ => {
            push_piece(rows, stack, piece, whole, node)?;
            Ok(None)
        }
    }
}

/// Puts a piece that stands for trees on the stack.
fn push_piece<'a>(
    rows: &mut Rows,
    stack: &mut Vec<Frame<'a>>,
    piece: Piece,
    whole: bool,
    node: Node<'a>,
) -> Result<(), AllocError>
    requires { stands_for_trees piece ≡ true }
    ensures pushed { OnOk result (pending rows.old stack.new.items ≡ node_piece rows.old piece whole node.entry ++ pending rows.old stack.old.items) }
    ensures unchanged { rows.new ≡ rows.old }
{
    match piece {
        Piece::Itself => push_itself(rows, stack, whole, node),
        Piece::Part(number, state) => {
            push_first(rows, stack, state, &node.parts.skip(u32::from(number)))
        }
        Piece::Listed(number, symbol) => {
            push(
                rows,
                stack,
                Frame::Listed(symbol, node.parts.skip(u32::from(number))),
            )
        }
        Piece::Parts(number) => {
            push(
                rows,
                stack,
                Frame::Trees(node.parts.skip(u32::from(number))),
            )
        }
        _ => Ok(()),
    }
}

/// Puts a tree as it is on the stack, in front of another row of it.
fn push_itself<'a>(
    rows: &mut Rows,
    stack: &mut Vec<Frame<'a>>,
    whole: bool,
    node: Node<'a>,
) -> Result<(), AllocError>
    ensures itself { OnOk result (pending rows.old stack.new.items ≡ node_itself rows.old whole node.entry ++ pending rows.old stack.old.items) }
    ensures unchanged { rows.new ≡ rows.old }
{
    if whole {
        return Ok(());
    }
    push_tree(rows, stack, AS_IT_IS, true, node)
}

/// The token of a leaf.
fn own<'a>(form: Form, text: &'a [u8]) -> Option<Item<'a>>
    ensures { shown result ≡ own (leaf_kind form) text.now }
{
    let kind = leaf_kind(form)?;
    Some(Item::Token(kind, text))
}

/// Writes the first piece of a row up to the next head, and leaves the rest of the row.
fn write_row<'a>(
    rows: &mut Rows,
    stack: &mut Vec<Frame<'a>>,
    pieces: &'static [Piece],
    whole: bool,
    node: Node<'a>,
) -> Result<Option<Item<'a>>, AllocError>
    ensures given { IfOk result (λ item. node_items rows.old (up_to_head pieces.now) whole node.entry ++ pending rows.old stack.old.items
        ≡ shown item ++ pending rows.old stack.new.items) }
    ensures unchanged { rows.new ≡ rows.old }
{
    let Some((piece, rest)) = pieces.split_first() else {
        return Ok(None);
    };
    if is_head(*piece) {
        return Ok(None);
    }
    let behind = Node {
        form: node.form,
        text: node.text,
        parts: node.parts.fork(),
    };
    push(rows, stack, Frame::Row(rest, whole, behind))?;
    write_piece(rows, stack, *piece, whole, node)
}

/// Leaves the trees behind the first one, and puts that in front of them as it is.
fn write_tree<'a>(
    rows: &mut Rows,
    stack: &mut Vec<Frame<'a>>,
    trees: &Cursor<'a, Form>,
    behind: Frame<'a>,
) -> Result<(), AllocError>
    ensures pushed { OnOk result (pending rows.old stack.new.items
        ≡ first_by rows.old AS_IT_IS trees.now ++ (frame_items rows.old behind.entry ++ pending rows.old stack.old.items)) }
    ensures unchanged { rows.new ≡ rows.old }
{
    push(rows, stack, behind)?;
    push_first(rows, stack, AS_IT_IS, trees)
}

/// Writes the first piece of a frame, and leaves the rest of it.
fn write_frame<'a>(
    rows: &mut Rows,
    stack: &mut Vec<Frame<'a>>,
    frame: Frame<'a>,
) -> Result<Option<Item<'a>>, AllocError>
    ensures given { IfOk result (λ item. frame_items rows.old frame.entry ++ pending rows.old stack.old.items
        ≡ shown item ++ pending rows.old stack.new.items) }
    ensures unchanged { rows.new ≡ rows.old }
{
    match frame {
        Frame::Row(pieces, whole, node) => write_row(rows, stack, pieces, whole, node),
        Frame::Trees(trees) => {
            let Some(first) = trees.open() else {
                return Ok(None);
            };
            write_tree(rows, stack, &trees, Frame::Trees(first.next))?;
            Ok(None)
        }
        Frame::Listed(separator, trees) => {
            let Some(first) = trees.open() else {
                return Ok(None);
            };
            write_tree(rows, stack, &trees, Frame::Listed(separator, first.next))?;
            Ok(Some(Item::Token(kind_at(separator), &[])))
        }
    }
}

/// Writes up to the next item. So many steps as the loop can take need more memory than there is.
pub fn next_item<'a>(
    rows: &mut Rows,
    stack: &mut Vec<Frame<'a>>,
) -> Result<Option<Item<'a>>, AllocError>
    ensures given { IfOk result (λ item. pending rows.old stack.old.items ≡ shown item ++ pending rows.old stack.new.items) }
    ensures ended { IfOk result (λ item. item ≡ None → pending rows.old stack.old.items ≡ []) }
    ensures unchanged { rows.new ≡ rows.old }
{
    for _step in 0..u64::MAX {
        let Some(frame) = stack.pop() else {
            return Ok(None);
        };
        let item = write_frame(rows, stack, frame)?;
        if item.is_some() {
            return Ok(item);
        }
    }
    Err(AllocError)
}
