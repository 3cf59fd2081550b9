//! Forests that are built, changed and read. Words say which forest it is, what is done to it, what of it is looked at, and how that comes into
//! another store.

ghost use Rattle.std.specs.Prelude.{◌≤◌, IfOk, length};
ghost use Rattle.vd_forest.specs.Store.{Extends};

use crate::passes::passed;
use std::alloc::{AllocError, Global};
use vd_bytes::Place;
use vd_forest::{Cursor, Store, Texts};

/// What a tree is.
#[derive(Clone, Copy, PartialEq, Eq, Debug)]
pub enum Form {
    Sum,
    Name,
}

fn place_at(line: u32) -> Place {
    Place {
        file: 0,
        line,
        column: 1,
    }
}

/// The names `a`, `b` and `c`, each on a line of its own.
#[tactic(auto, using(vd_forest::proofs::StoreLemmas::growing))]
fn names(store: &mut Store<Form>) -> Result<u32, AllocError>
    ensures within { IfOk result (λ number. number ≤ length store.new) }
    ensures extends { Extends store.old store.new }
{
    let third = store.add(Form::Name, b"c", place_at(3), 0, 0)?;
    let second = store.add(Form::Name, b"b", place_at(2), 0, third)?;
    let first = store.add(Form::Name, b"a", place_at(1), 0, second)?;
    Ok(first)
}

/// The sum of these names, and then a name `d`.
#[tactic(auto, using(vd_forest::proofs::StoreLemmas::growing))]
fn sum_and_name(store: &mut Store<Form>) -> Result<u32, AllocError>
    ensures { IfOk result (λ number. number ≤ length store.new) }
{
    let last = store.add(Form::Name, b"d", place_at(4), 0, 0)?;
    let addends = names(store)?;
    let number = store.add(Form::Sum, b"", place_at(1), addends, last)?;
    Ok(number)
}

/// The sum of `a` and `b`, and then a name `c`, each on a line of its own.
#[tactic(auto, using(vd_forest::proofs::StoreLemmas::growing))]
fn short_sum(store: &mut Store<Form>) -> Result<u32, AllocError>
    ensures { IfOk result (λ number. number ≤ length store.new) }
{
    let last = store.add(Form::Name, b"c", place_at(4), 0, 0)?;
    let second = store.add(Form::Name, b"b", place_at(3), 0, 0)?;
    let first = store.add(Form::Name, b"a", place_at(2), 0, second)?;
    let number = store.add(Form::Sum, b"", place_at(1), first, last)?;
    Ok(number)
}

/// A forest by its word.
pub fn built(store: &mut Store<Form>, word: &str) -> Result<u32, AllocError>
    ensures { IfOk result (λ number. number ≤ length store.new) }
{
    match word {
        "names" => names(store),
        "short" => short_sum(store),
        _ => sum_and_name(store),
    }
}

/// A forest turned or its first tree linked again, before the same forest, or the forest as it is.
fn changed(store: &mut Store<Form>, number: u32, word: &str) -> Result<u32, AllocError>
    requires { number ≤ length store.old }
    ensures { IfOk result (λ made. made ≤ length store.new) }
{
    match word {
        "turn" => store.turn(number, number),
        "relink" => store.relink(number, number),
        _ => Ok(number),
    }
}

/// The trees inside the first one but for their first, the trees after it, or those after as many as a number says.
fn viewed<'a>(trees: &Cursor<'a, Form>, word: &str) -> Cursor<'a, Form> {
    match word {
        "inside" => trees.parts().next(),
        "next" => trees.next(),
        _ => trees.skip(word.parse::<u32>().unwrap_or(0)),
    }
}

/// A tree's text and line.
fn add_tree(out: &mut Vec<u8>, text: &[u8], line: u32) -> Result<(), AllocError> {
    out.extend_from_slice(text)?;
    out.push(b'0' + (line % 10) as u8)?;
    Ok(())
}

/// The texts and lines of the nodes, the parts of each sum between brackets.
fn shown(alloc: Global, trees: &Cursor<'_, Form>) -> Result<Vec<u8>, AllocError> {
    let mut out = Vec::new(alloc);
    let mut outer = Vec::new(alloc);
    let mut left = trees.fork();
    for _ in 0..1000 {
        if let Some(first) = left.open() {
            add_tree(&mut out, first.text, first.place.line)?;
            left = first.next;
            if first.form == Form::Sum {
                out.push(b'(')?;
                outer.push(left)?;
                left = first.parts;
            }
        } else if let Some(next) = outer.pop() {
            out.push(b')')?;
            left = next;
        } else {
            break;
        }
    }
    Ok(out)
}

/// A forest as a pass writes it into another store, behind other trees.
fn shown_behind(
    alloc: Global,
    trees: &Cursor<'_, Form>,
    pass: &str,
) -> Result<Vec<u8>, AllocError> {
    let mut other = Store::new(alloc);
    let _ = names(&mut other)?;
    let number = passed(alloc, pass, trees, &mut other)?;
    shown(alloc, &other.cursor(number))
}

/// What becomes of a forest by four words.
fn shown_by(
    alloc: Global,
    which: &str,
    change: &str,
    view: &str,
    pass: &str,
) -> Result<Vec<u8>, AllocError> {
    let mut store = Store::new(alloc);
    let first = built(&mut store, which)?;
    let number = changed(&mut store, first, change)?;
    let trees = viewed(&store.cursor(number), view);
    if pass == "none" {
        shown(alloc, &trees)
    } else {
        shown_behind(alloc, &trees, pass)
    }
}

/// What becomes of a forest.
pub fn shown_after(alloc: Global, words: &str) -> Result<Vec<u8>, AllocError> {
    let words: Vec<&str> = words.split_whitespace().collect(alloc)?;
    let [which, change, view, pass] = words.as_slice() else {
        return Vec::from_slice(alloc, b"there are not four words");
    };
    shown_by(alloc, which, change, view, pass)
}

/// The form, the text and the line of a forest's first tree.
fn add_head(
    alloc: Global,
    out: &mut Vec<u8>,
    trees: &Cursor<'_, Form>,
    form: Form,
) -> Result<(), AllocError> {
    let line = trees.place().map_or(0, |place| place.line);
    let head = format!(in alloc; "{form:?} {line} ")?;
    out.extend_from_slice(head.as_bytes())?;
    out.extend_from_slice(trees.text())?;
    out.push(b'|')?;
    Ok(())
}

/// The form, the line and the text of each tree of a forest.
fn shown_heads(alloc: Global, trees: &Cursor<'_, Form>) -> Result<Vec<u8>, AllocError> {
    let mut out = Vec::new(alloc);
    let mut left = trees.fork();
    for _ in 0..1000 {
        let Some(form) = left.form() else {
            return Ok(out);
        };
        add_head(alloc, &mut out, &left, form)?;
        left = left.next();
    }
    Ok(out)
}

/// The form, the line and the text of each tree of a forest.
pub fn heads(alloc: Global, which: &str) -> Result<Vec<u8>, AllocError> {
    let mut store = Store::new(alloc);
    let number = built(&mut store, which)?;
    shown_heads(alloc, &store.cursor(number))
}

/// A number and a text.
fn add_numbered(
    alloc: Global,
    out: &mut Vec<u8>,
    number: u32,
    text: &[u8],
) -> Result<(), AllocError> {
    let head = format!(in alloc; "{number} ")?;
    out.extend_from_slice(head.as_bytes())?;
    out.extend_from_slice(text)?;
    out.push(b'|')?;
    Ok(())
}

/// The numbers of some texts in one table, and the texts that have those.
pub fn interned(alloc: Global, words: &str) -> Result<Vec<u8>, AllocError> {
    let mut texts = Texts::new(alloc);
    let mut out = Vec::new(alloc);
    for word in words.split(' ') {
        let number = texts.intern(word.as_bytes())?;
        add_numbered(alloc, &mut out, number, texts.get(number))?;
    }
    Ok(out)
}

/// One more name, whose text is a number.
#[tactic(auto, using(vd_forest::proofs::StoreLemmas::growing))]
fn add_number(
    alloc: Global,
    store: &mut Store<Form>,
    number: u32,
    next: u32,
) -> Result<u32, AllocError>
    requires { next ≤ length store.old }
    ensures { IfOk result (λ made. made ≤ length store.new) }
{
    let text = format!(in alloc; "{number}")?;
    store.add(Form::Name, text.as_bytes(), place_at(number), 0, next)
}

/// Names that are numbers, the last one first, each with a text of its own.
fn numbers(alloc: Global, store: &mut Store<Form>, count: u32) -> Result<u32, AllocError>
    ensures { IfOk result (λ number. number ≤ length store.new) }
{
    let mut made = 0;
    for i in 0..count {
        made = add_number(alloc, store, i, made)?;
    }
    Ok(made)
}

/// The number of a forest of many names and the text of its first tree; and that of the forest when its first tree is linked again, with the text of
/// the tree after that one.
pub fn many_trees(alloc: Global, count: &str) -> Result<Vec<u8>, AllocError> {
    let mut store = Store::new(alloc);
    let mut out = Vec::new(alloc);
    let made = numbers(alloc, &mut store, count.parse::<u32>().unwrap_or(0))?;
    add_numbered(alloc, &mut out, made, store.cursor(made).text())?;
    let linked = store.relink(made, made)?;
    add_numbered(alloc, &mut out, linked, store.cursor(linked).next().text())?;
    Ok(out)
}
